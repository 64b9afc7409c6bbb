//! Worked runs and lines, computed on the definitions.
ghost use Rattle.script_spec.specs.ExampleLines.{AreReadAlike, HaveBadLines, OperationsAreShown};
ghost use Rattle.script_spec.specs.ExampleParallel.{IsParallelRun};
ghost use Rattle.script_spec.specs.ExampleRetry.{IsRetriedRun};

/// Operations of each kind and their replies, as an event shows them.
pub fn operations_are_shown()
    ensures { OperationsAreShown }
{}

/// Two scripts write two cells while a third walks the first version.
pub fn parallel_run()
    ensures { IsParallelRun }
{}

/// Two scripts set one property. The second to commit meets a conflict and is run again.
pub fn retried_run()
    ensures { IsRetriedRun }
{}

/// A line that no row has, a commit where nothing is held, and one retry too many are bad lines.
pub fn bad_lines()
    ensures { HaveBadLines }
{}

/// Blanks, leading zeros, strings with blanks and escapes, and comments, as they are read.
pub fn read_alike()
    ensures { AreReadAlike }
{}
