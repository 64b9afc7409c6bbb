//! What holds of the operations. A law is what a function without parameters ensures; there is nothing to run.
ghost use Rattle.uniquify_spec.specs.Alike.{AlikeFlattenAlike};
ghost use Rattle.uniquify_spec.specs.OnePass.{CopiesGoOn, FirstsHaveNoneBefore};
ghost use Rattle.uniquify_spec.specs.ExampleCapital.{CapitalIsUnique, PathIsUnique};
ghost use Rattle.uniquify_spec.specs.ExamplePair.{PairIsUnique};
ghost use Rattle.std.specs.Prelude.{List, ℕ};
ghost use Rattle.uniquify_spec.specs.Laws.{BlocksAreOccurrences, BothGrow, CopiesGetLeastFree, EachBlockIsAtOnePath, EachCopyIsAtOnePath, FirstsKeepTheirCells, OnceIsEnough, OriginalsStay, TooManyIsTooFull, UniquePathKeepsFlattening, UniquifyKeepsFlattening};
ghost use Rattle.edit_rules_spec.specs.Local.{IsLocal};
ghost use Rattle.uniquify_spec.specs.Local.{KeepsValid};
ghost use Rattle.uniquify_spec.specs.Needs.{UniquePathNeeds, UniquifyNeeds};
ghost use Rattle.uniquify_spec.specs.Rows.{unique_path_row, uniquify_row};

/// Two blocks of one cell are made unique by one copy, and the flattening names it.
pub fn pair_is_unique()
    ensures { PairIsUnique }
{}

/// A name that is taken ignoring case is passed over.
pub fn capital_is_unique()
    ensures { CapitalIsUnique }
{}

/// A block along a path gets a copy, also where it is at one place only.
pub fn path_is_unique()
    ensures { PathIsUnique }
{}

/// Designs that differ in the cells behind their paths alone have one flattening, up to the names of blocks.
pub fn alike_flatten_alike()
    ensures { AlikeFlattenAlike }
{}

/// The flattening stays as it is, up to the names of blocks.
pub fn flattening_stays()
    ensures uniquify { UniquifyKeepsFlattening }
    ensures unique_path { UniquePathKeepsFlattening }
{}

/// After Uniquify each block is at one path, and after UniquePath each copy is.
pub fn one_path_each()
    ensures blocks { EachBlockIsAtOnePath }
    ensures copies { EachCopyIsAtOnePath }
{}

/// After Uniquify the design is valid, and Uniquify once more makes no copy.
pub fn once_is_enough()
    ensures { OnceIsEnough }
{}

/// UniquePath leaves each cell but the top as it was.
pub fn originals_stay()
    ensures { OriginalsStay }
{}

/// Cells are added, and what is seen of a cell from outside stays.
pub fn both_grow()
    ensures { BothGrow }
{}

/// The two operations do the same to two designs that agree on what they need.
pub fn both_are_local()
    ensures uniquify { IsLocal uniquify_row UniquifyNeeds (Unit {0}) }
    ensures unique_path { (path : List (List ℕ)) → IsLocal (λ d. unique_path_row d path) (λ d. UniquePathNeeds d path) (Unit {0}) }
{}

/// A copy gets the least number from 1 on that makes its name free.
pub fn copies_get_least_free()
    ensures { CopiesGetLeastFree }
{}

/// The two operations keep a valid design valid.
pub fn both_keep_valid()
    ensures uniquify { KeepsValid uniquify_row }
    ensures unique_path { (path : List (List ℕ)) → KeepsValid (λ d. unique_path_row d path) }
{}

/// The blocks that Uniquify goes by are the occurrences of the flattening: the first of a cell keeps it, and each later one gets a
/// cell that was not there.
pub fn firsts_keep_their_cells()
    ensures blocks { BlocksAreOccurrences }
    ensures firsts { FirstsKeepTheirCells }
{}

/// What is refused as too many is a library that would have more cells than it may.
pub fn too_many_is_too_full()
    ensures { TooManyIsTooFull }
{}

/// What a program can rest on that goes over the occurrences once.
pub fn copies_are_made_in_one_pass()
    ensures copies { CopiesGoOn }
    ensures firsts { FirstsHaveNoneBefore }
{}
