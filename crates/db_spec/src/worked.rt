//! Worked histories, computed on the definitions.
ghost use Rattle.std.specs.Prelude.{ℕ, ◌≤◌};
ghost use Rattle.netlist_schema.specs.Design.{Design};
ghost use Rattle.db_spec.specs.ExampleCollect.{collected_versions, one_cell};
ghost use Rattle.db_spec.specs.ExampleConflict.{IsRefusedCommit, two_cells};
ghost use Rattle.db_spec.specs.ExampleFaces.{AreFacesApart};
ghost use Rattle.db_spec.specs.ExampleInside.{inside_commits};
ghost use Rattle.db_spec.specs.ExampleRoom.{HavePins, HaveRounds};
ghost use Rattle.db_spec.specs.History.{Legal};

/// Two callers pin a version and change it so that each change is right alone and both together are not. The second commit is
/// refused, and what it wanted is refused on the next version by its own reply.
pub fn second_commit_is_refused()
    ensures { IsRefusedCommit }
{}

/// A commit inside a cell leaves a commit free that joins the cell's ports from outside; a commit on its interface refuses it.
pub fn inside_and_interface_are_apart()
    ensures { AreFacesApart }
{}

/// Commits inside two cells. A refused commit is told the least object that it read and a later commit wrote, and the last commit
/// that wrote that object.
pub fn least_object_and_last_commit_are_named()
    ensures { Legal two_cells inside_commits }
{}

/// A version is kept while it is pinned. The first collect after its last pin drops it, and then it is gone.
pub fn pinned_version_is_kept()
    ensures { Legal one_cell collected_versions }
{}

/// Pins that are released at once have room 2,097,152 times; then there is no room for a pin or a collect.
pub fn rounds_have_room()
    ensures { (d : Design) (n : ℕ) → n ≤ 2097152 → HaveRounds d n }
{}

/// Pins that stay live have room 2,097,152 times; then there is no room for one more.
pub fn held_pins_have_room()
    ensures { (d : Design) (n : ℕ) → n ≤ 2097152 → HavePins d n }
{}
