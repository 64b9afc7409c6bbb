//! What holds of the definitions. A law is what a function without parameters ensures; there is nothing to run.
ghost use Rattle.used_spec.specs.Laws.{IndexHasEachCell, KeptAreBelow, KeptFlattensAlike, KeptIsValid, KeptStandAnew, KeptStaysKept, KeptStoodBefore, UsersAreInOrder, UsersAreInstances};

/// The index has the uses of each cell, and of nothing else.
pub fn index_has_each_cell()
    ensures { IndexHasEachCell }
{}

/// The uses of a cell are just the instances of it, in order.
pub fn users_are_instances()
    ensures instances { UsersAreInstances }
    ensures order { UsersAreInOrder }
{}

/// What is kept is the top and the cells below it.
pub fn kept_are_below()
    ensures { KeptAreBelow }
{}

/// Each cell that is kept stands in the kept design under its new id, with its instances by the new ids of their cells; and each cell there
/// is one of these.
pub fn kept_stand_anew()
    ensures stand { KeptStandAnew }
    ensures come { KeptStoodBefore }
{}

/// The design with nothing but the top and the cells below it is valid where the design is, and has the same flattening, where cells
/// are compared by name.
pub fn kept_stays()
    ensures valid { KeptIsValid }
    ensures flattening { KeptFlattensAlike }
{}

/// What is kept of a valid design is kept whole.
pub fn kept_stays_kept()
    ensures { KeptStaysKept }
{}
