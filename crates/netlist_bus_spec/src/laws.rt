//! What the definitions say of runs.
ghost use Rattle.std.specs.Prelude.{◌≡◌, ◌≤◌, ◌<◌, ◌^◌, ◌↔◌, ℕ, IsTrue, List, Option, length};
ghost use Rattle.netlist_schema.specs.Types.{Name, Net, Port};
ghost use Rattle.netlist_schema.specs.declared.limits.TheConstants.{MOST_WIDTH};
ghost use Rattle.netlist_bus_spec.specs.Members.{member_name};
ghost use Rattle.netlist_bus_spec.specs.Runs.{IsGreatest, IsRow, IsRun, is_run, run_name, run_width};
ghost use Rattle.netlist_schema.specs.Typed.{IsTypedName};

/// The test of runs tells them.
pub fn runs_are_told()
    ensures { (ports : Option ℕ → List Port) (nets : List Net) → IsTrue (is_run ports nets) ↔ IsRun ports nets }
{}

/// Each place of a list of nets has one greatest width of the runs that begin there.
pub fn greatest_run()
    ensures is { (ports : Option ℕ → List Port) (nets : List Net) → IsGreatest ports nets (run_width ports nets) }
    ensures one { (ports : Option ℕ → List Port) (nets : List Net) (v w : ℕ) → IsGreatest ports nets v → IsGreatest ports nets w → v ≡ w }
{}

/// A run is the row of nets of one array: net by net, the names of its members, the same bit of ports as wide as the run, and the
/// same properties.
pub fn runs_are_rows()
    ensures { (ports : Option ℕ → List Port) (nets : List Net) → IsRun ports nets → IsRow ports nets }
{}

/// The names of an array's nets differ.
pub fn members_differ()
    ensures { (name : Name) (j k : ℕ) → j < MOST_WIDTH → k < MOST_WIDTH → (member_name name j).id ≡ (member_name name k).id → j ≡ k }
{}

/// The names of an array's nets are names, and so is the array's name of a run, where it has a byte.
pub fn members_are_names()
    ensures members { (name : Name) (k : ℕ) → k < 2 ^ 64 → IsTypedName name → IsTypedName (member_name name k) }
    ensures array { (n : Net) → IsTypedName n.name → 1 ≤ length (run_name n).id → IsTypedName (run_name n) }
{}
