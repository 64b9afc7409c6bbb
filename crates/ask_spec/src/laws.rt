//! What holds of the definitions. A law is what a function without parameters ensures; there is nothing to run.

ghost use Rattle.ask_spec.specs.Examples.{BoardIsAsked, CounterIsAsked, LevelsAreAsked};
ghost use Rattle.ask_spec.specs.Told.{ClassesAreConnected, ClassesHaveOnePins, EachDrivesOrLoads, InstsAreTold, NetsAreTold, NoNetHasNoPins, OccurrencesAreTold, OnlyPinsAreThere, PinsAreParted, PinsAreTold, PropertiesAreThere, SidesAgree, TopHasOneSide, UndrivenHasNoDrivers};

/// What stands at a path is what the flattening has there.
pub fn places_are_told()
    ensures occurrences { OccurrencesAreTold }
    ensures properties { PropertiesAreThere }
    ensures insts { InstsAreTold }
    ensures nets { NetsAreTold }
{}

/// The net at a pin is the one that the flattening gives for it.
pub fn pins_are_told()
    ensures { PinsAreTold }
{}

/// Seen from inside an occurrence the net at a pin has the same first net as seen from outside, where there are both.
pub fn sides_agree()
    ensures below { SidesAgree }
    ensures top { TopHasOneSide }
{}

/// Drivers and loads are those that the electrical check counts.
pub fn drivers_are_counted()
    ensures undriven { UndrivenHasNoDrivers }
    ensures each { EachDrivesOrLoads }
{}

/// The pins of all first nets together are the pins of the flattening that have a net, each at just the nets of one class.
pub fn pins_are_parted()
    ensures parted { PinsAreParted }
    ensures only { OnlyPinsAreThere }
{}

/// Any net of a class names the class: connected nets have the same pins. What is no net has none.
pub fn classes_are_told()
    ensures connected { ClassesAreConnected }
    ensures one { ClassesHaveOnePins }
    ensures none { NoNetHasNoPins }
{}

/// A board with a feedthrough.
pub fn board_is_asked()
    ensures { BoardIsAsked }
{}

/// A small counter.
pub fn counter_is_asked()
    ensures { CounterIsAsked }
{}

/// A net that is driven on two levels.
pub fn levels_are_asked()
    ensures { LevelsAreAsked }
{}
