//! The text of a design and its meaning together.
ghost use Rattle.std.specs.Prelude.{◌≡◌};
ghost use Rattle.netlist_schema.specs.Valid.{IsValid};
ghost use Rattle.edif_spelling_spec.specs.Spelling.{Spells};
ghost use Rattle.edif_spelling_spec.specs.Tree.{Bare};
ghost use Rattle.edif_spec.specs.Arranged.{arranged, canonical_text};
ghost use Rattle.edif_spec.specs.Canonical.{tree_of};
ghost use Rattle.edif_spec.specs.Design.{Design};
ghost use Rattle.edif_spec.specs.Means.{MeansFile};

/// The read-back law: the canonical text of a valid design spells a tree, which means the arranged design; and each tree
/// that it spells means that design and no other.
pub fn text_reads_back()
    ensures spells { (d : Design) → IsValid d → Spells (canonical_text d) (tree_of (arranged d)) }
    ensures means { (d : Design) → IsValid d → MeansFile (tree_of (arranged d)) (arranged d) }
    ensures only { (d e : Design) (t : Bare) → IsValid d → Spells (canonical_text d) t → MeansFile t e → e ≡ arranged d }
{}

/// A design that a tree means is arranged already.
pub fn meant_is_arranged()
    ensures { (t : Bare) (d : Design) → MeansFile t d → arranged d ≡ d }
{}
