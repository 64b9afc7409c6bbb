//! Laws of what is read. A law is what a function without parameters ensures; there is nothing to run.
ghost use Rattle.db_spec.specs.ReadLaws.{ConflictsArePinned, NeedsAreThere};

/// What an operation needs is there in a valid design.
pub fn needs_are_there()
    ensures { NeedsAreThere }
{}

/// The least object that operations read on a version and a later commit wrote is there in that version, so its names can be told
/// from the version.
pub fn conflicts_are_pinned()
    ensures { ConflictsArePinned }
{}
