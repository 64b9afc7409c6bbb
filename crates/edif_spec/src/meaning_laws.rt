//! Laws on what a tree means.
ghost use Rattle.std.specs.Prelude.{◌≡◌};
ghost use Rattle.netlist_schema.specs.Valid.{IsValid};
ghost use Rattle.edif_spelling_spec.specs.Tree.{Bare};
ghost use Rattle.edif_spec.specs.Canonical.{tree_of};
ghost use Rattle.edif_spec.specs.Defined.{DefinedBefore};
ghost use Rattle.edif_spec.specs.Design.{Design};
ghost use Rattle.edif_spec.specs.Means.{MeansFile};

/// A tree means one design at most.
pub fn one_meaning()
    ensures { (t : Bare) (d e : Design) → MeansFile t d → MeansFile t e → d ≡ e }
{}

/// The tree of a valid design's text, where each cell that is placed is defined before the cell that places it, means
/// the design.
pub fn tree_means_its_design()
    ensures { (d : Design) → IsValid d → DefinedBefore d → MeansFile (tree_of d) d }
{}

/// In a design that a tree means, each cell that is placed is defined before the cell that places it.
pub fn meant_is_in_order()
    ensures { (t : Bare) (d : Design) → MeansFile t d → DefinedBefore d }
{}
