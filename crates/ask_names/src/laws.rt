//! What holds of the definitions. A law is what a function without parameters ensures; there is nothing to run.

ghost use Rattle.ask_names.specs.Told.{InstsAreTold, NetsAreTold, PathsAreFound, PathsAreTold, PortsAreTold};

/// A text names just the path of an occurrence that has the text, as a flattening shows it or as a script spells it. So each path of an
/// occurrence is found again by its text.
pub fn paths_are_told()
    ensures told { PathsAreTold }
    ensures found { PathsAreFound }
{}

/// An identifier leads to just the place of the instance, the net or the port of the cell that has it.
pub fn places_are_told()
    ensures insts { InstsAreTold }
    ensures nets { NetsAreTold }
    ensures ports { PortsAreTold }
{}
