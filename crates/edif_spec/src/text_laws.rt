//! What the definitions say of the canonical text of a design.
ghost use Rattle.std.specs.Prelude.{◌≡◌, ◌≤◌, [], ◌∷◌, ◌++◌};
ghost use Rattle.edif_spec.specs.Arranged.{arranged, canonical_text};
ghost use Rattle.edif_spec.specs.Canonical.{layout, tree_of};
ghost use Rattle.edif_spec.specs.Defined.{DefinedBefore};
ghost use Rattle.edif_spec.specs.Design.{Design};
ghost use Rattle.edif_spec.specs.Writable.{IsWritable};
ghost use Rattle.netlist_schema.specs.Valid.{IsValid};
ghost use Rattle.edif_spelling_spec.specs.Spelling.{IsForm, Spells};
ghost use Rattle.edif_spelling_spec.specs.Tree.{Bare, depth};

/// The layout of a form in lines spells the form, where its words, integers and strings can be written and no form in it
/// is deeper than level 256.
pub fn layout_reads_back()
    ensures { (t : Bare) → IsForm t → depth t ≤ 256 → IsWritable t → Spells (layout 1 t ++ 10 ∷ []) t }
{}

/// The canonical text of a valid design spells the tree of the arranged design, and no other.
pub fn canonical_text_spells()
    ensures spells { (d : Design) → IsValid d → Spells (canonical_text d) (tree_of (arranged d)) }
    ensures only { (d : Design) (t : Bare) → IsValid d → Spells (canonical_text d) t → t ≡ tree_of (arranged d) }
{}

/// The arranged design of a valid one is valid.
pub fn arranged_is_valid()
    ensures { (d : Design) → IsValid d → IsValid (arranged d) }
{}

/// In the arranged design of a valid one each cell that is placed is defined before the cell that places it.
pub fn arranged_in_order()
    ensures { (d : Design) → IsValid d → DefinedBefore (arranged d) }
{}

/// A valid design in which each cell that is placed is defined before the cell that places it is arranged already.
pub fn in_order_is_arranged()
    ensures { (d : Design) → IsValid d → DefinedBefore d → arranged d ≡ d }
{}

/// The arranged design of a valid one is arranged already.
pub fn arranged_twice()
    ensures { (d : Design) → IsValid d → arranged (arranged d) ≡ arranged d }
{}
