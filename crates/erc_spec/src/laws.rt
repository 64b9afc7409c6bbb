//! What holds of the definitions. A law is what a function without parameters ensures; there is nothing to run.

ghost use Rattle.erc_spec.specs.ExampleClash.{ClashIsFound, ClashIsTold};
ghost use Rattle.erc_spec.specs.ExampleLevels.{LevelsAreFound, LevelsAreTold};
ghost use Rattle.erc_spec.specs.ExamplePorts.{PortsAreFound};
ghost use Rattle.erc_spec.specs.ExampleWeak.{NothingIsFoundInWeak};
ghost use Rattle.erc_spec.specs.Examples.{BoardIsFound, BoardIsTold, CounterIsTold, NothingIsFoundInCounter};
ghost use Rattle.erc_spec.specs.Told.{ManyIsExact, NetsAreToldInOrder, OpenIsExact, PinsAreToldInOrder, PinsAreToldLast, StrongPinsCanBeListed, ToldNetsAreThere, UndrivenIsExact};

/// Of the nets connected with a net the first is told to be undriven exactly where none of them joins a pin that drives.
pub fn undriven_is_exact()
    ensures { UndrivenIsExact }
{}

/// The pins that drive a net strongly can be listed, each once; and of the nets connected with it the first is told to have several
/// drivers exactly where these are two or more, with their number, which stands still at the greatest of 64 bits.
pub fn many_is_exact()
    ensures told { ManyIsExact }
    ensures listed { StrongPinsCanBeListed }
{}

/// A pin is told to be open exactly where it is an input of a leaf below the top, and no net joins it.
pub fn open_is_exact()
    ensures { OpenIsExact }
{}

/// The pins that are told to be open are told in order, so each once at most, and behind all nets.
pub fn open_pins_are_told_in_order()
    ensures in_order { PinsAreToldInOrder }
    ensures behind { PinsAreToldLast }
{}

/// The nets of findings are there, and each is the first of those connected with it; they are told in order, so each once at most.
pub fn told_nets_are_there()
    ensures there { ToldNetsAreThere }
    ensures in_order { NetsAreToldInOrder }
{}

/// A small counter, in which nothing is found.
pub fn nothing_is_found_in_counter()
    ensures found { NothingIsFoundInCounter }
    ensures told { CounterIsTold }
{}

/// A board whose nets are one, which no pin drives.
pub fn undriven_board_is_found()
    ensures found { BoardIsFound }
    ensures told { BoardIsTold }
{}

/// Two outputs joined by one net, and an input that no net joins.
pub fn clash_is_found()
    ensures found { ClashIsFound }
    ensures told { ClashIsTold }
{}

/// Ports of the top drive as inputs, and one that no net joins is not told.
pub fn ports_of_the_top_are_found()
    ensures { PortsAreFound }
{}

/// Pins that lead both ways and pins without a direction drive, but not strongly.
pub fn weak_pins_drive()
    ensures { NothingIsFoundInWeak }
{}

/// Drivers on two levels of the hierarchy are counted at one net; what is found below the top has its place there.
pub fn levels_are_found()
    ensures found { LevelsAreFound }
    ensures told { LevelsAreTold }
{}
