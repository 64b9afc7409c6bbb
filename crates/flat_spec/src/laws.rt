//! What holds of the definitions. A law is what a function without parameters ensures; there is nothing to run.

ghost use Rattle.flat_spec.specs.Below.{FlatteningIsUnderTop, ItemsGoDown};
ghost use Rattle.flat_spec.specs.Connection.{ConnectionIsLocal};
ghost use Rattle.flat_spec.specs.ConnectionTest.{TestTellsConnection};
ghost use Rattle.flat_spec.specs.ExampleCounter.{CounterIsFlattened};
ghost use Rattle.flat_spec.specs.ExampleFeedthrough.{BoardIsFlattened};
ghost use Rattle.flat_spec.specs.ExampleNotes.{NotesAreMerged, PairIsFlattened};
ghost use Rattle.flat_spec.specs.ExampleTower.{TowerBegins};
ghost use Rattle.flat_spec.specs.HandedDown.{EachNetHasAFirstInside, OrAreTheFirstInside, RepresentativesAreHandedDown};
ghost use Rattle.flat_spec.specs.Occurrences.{NetsAreAll, OccurrencesAreAll, OccurrencesGoDown};
ghost use Rattle.flat_spec.specs.Pins.{JoinedBitsBelowAreThere, JoinedOwnBitsAreThere, PinsAreExact};
ghost use Rattle.flat_spec.specs.Representatives.{ConnectedNetsHaveOneRepresentative, EachNetHasOneRepresentative};
ghost use Rattle.flat_spec.specs.Trees.{EachCellHasOneTree};

/// Each cell has one tree of occurrences.
pub fn each_cell_has_one_tree()
    ensures { EachCellHasOneTree }
{}

/// The listed occurrences are the paths below the root, and the listed nets those of the cells there, each once and in order. The
/// occurrences of a cell are made of those of its instances' cells.
pub fn occurrences_and_nets_are_all()
    ensures occurrences { OccurrencesAreAll }
    ensures nets { NetsAreAll }
    ensures go_down { OccurrencesGoDown }
{}

/// The test by which connection is told tells it.
pub fn test_tells_connection()
    ensures { TestTellsConnection }
{}

/// Each net has one representative, which is the first of the nets connected with it.
pub fn each_net_has_one_representative()
    ensures first { EachNetHasOneRepresentative }
    ensures same { ConnectedNetsHaveOneRepresentative }
{}

/// Whether two nets of a cell's contents are connected in its tree is told by its contents and by which own bits of the cells of
/// its instances are connected.
pub fn connection_is_local()
    ensures { ConnectionIsLocal }
{}

/// The representative of a net below the root is that of the parent's net that is handed down to it, and where none is, the first
/// net of the same contents that is connected with it inside. There is always such a first net inside.
pub fn representatives_are_handed_down()
    ensures handed { RepresentativesAreHandedDown }
    ensures inside { OrAreTheFirstInside }
    ensures there { EachNetHasAFirstInside }
{}

/// In a valid design each end that a net joins is a bit of the occurrence's cell, or of a cell one step below.
pub fn joined_bits_are_there()
    ensures own { JoinedOwnBitsAreThere }
    ensures below { JoinedBitsBelowAreThere }
{}

/// In a valid design the net at a pin is the only one that joins it.
pub fn pins_are_exact()
    ensures { PinsAreExact }
{}

/// The flattening of a board with a feedthrough: all its nets are one.
pub fn board_is_flattened()
    ensures { BoardIsFlattened }
{}

/// The flattening of a design with a note, and properties with several notes.
pub fn pair_is_flattened()
    ensures items { PairIsFlattened }
    ensures merged { NotesAreMerged }
{}

/// The flattening of a small counter.
pub fn counter_is_flattened()
    ensures { CounterIsFlattened }
{}

/// The first items of a flattening that is too long to be written out.
pub fn tower_begins()
    ensures { TowerBegins }
{}

/// The items at and below an occurrence are its own, and then those at and below each of its instances in order.
pub fn items_go_down()
    ensures down { ItemsGoDown }
    ensures top { FlatteningIsUnderTop }
{}
