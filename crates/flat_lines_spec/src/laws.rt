//! What holds of the definitions. A law is what a function without parameters ensures; there is nothing to run.

ghost use Rattle.flat_lines_spec.specs.Example.{BoardIsShown, CounterIsCut, CounterIsNotCut, CounterIsShown, PairIsShown};

/// The lines of a small counter: all of them, the first two, and as many as there are.
pub fn counter_is_shown()
    ensures whole { CounterIsShown }
    ensures cut { CounterIsCut }
    ensures not_cut { CounterIsNotCut }
{}

/// The lines of a board on which a net leads through a cell.
pub fn board_is_shown()
    ensures { BoardIsShown }
{}

/// The lines of a design with a note.
pub fn pair_is_shown()
    ensures { PairIsShown }
{}
