//! Laws of objects and of designs that agree on them.
ghost use Rattle.std.specs.Prelude.{◌≡◌, ◌↔◌, Contains, IsTrue, List, ℕ};
ghost use Rattle.netlist_schema.specs.Design.{Design};
ghost use Rattle.netlist_schema.specs.Hierarchy.{IsBelow, Resolves};
ghost use Rattle.netlist_schema.specs.Types.{CellId, Object};
ghost use Rattle.netlist_schema.specs.Valid.{IsValid};
ghost use Rattle.edit_rules_spec.specs.Objects.{Agrees, IsClosed, value_of};
ghost use Rattle.edit_rules_spec.specs.Paths.{is_below, resolves};
ghost use Rattle.edit_rules_spec.specs.Overlay.{HasSameHeads, IsOverlaid};

/// Two designs agree on an object exactly where it has one value in both, or is absent in both.
pub fn agree_is_same_value()
    ensures { (d e : Design) (o : Object) → Agrees d e o ↔ (value_of d o ≡ value_of e o) }
{}

/// Heads and objects determine a design.
pub fn objects_determine()
    ensures { (d e : Design) → HasSameHeads d e → ((o : Object) → Agrees d e o) → d ≡ e }
{}

/// In a valid design each instance is of a cell of the design.
pub fn valid_is_closed()
    ensures { (d : Design) → IsValid d → IsClosed d }
{}

/// In a valid design the test whether a path leads somewhere is right.
pub fn path_test()
    ensures { (d : Design) (at : CellId) (path : List (List ℕ)) → IsValid d → IsTrue (resolves d at path) ↔ Resolves d at path }
{}

/// In a valid design the test whether a cell is below another is right.
pub fn below_test()
    ensures { (d : Design) (inner outer : CellId) → IsValid d → IsTrue (is_below d inner outer) ↔ IsBelow d inner outer }
{}

/// Two designs that have these objects of one design, and all others of another, are one.
pub fn one_overlay()
    ensures { (base over a b : Design) (objects : List Object) → IsOverlaid base over (Contains objects) a → IsOverlaid base over (Contains objects) b → a ≡ b }
{}
