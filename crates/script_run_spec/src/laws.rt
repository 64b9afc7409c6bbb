//! How the lines of a script make up its session. A law is what a function without parameters ensures; there is nothing to run.
ghost use Rattle.script_run_spec.specs.Laws.{ComesFurther, ComesToBegin, ComesToBreak, ComesToEnd, ComesToFull};

/// A caller without calls has come to the beginning of a script.
pub fn comes_to_begin()
    ensures { ComesToBegin }
{}

/// A line that was run brings the script one line further.
pub fn comes_further()
    ensures { ComesFurther }
{}

/// At the end of the lines the held pin is released, and the script has run.
pub fn comes_to_end()
    ensures { ComesToEnd }
{}

/// Where the log was full for a line, the held pin is released, and the script has run to a full log.
pub fn comes_to_full()
    ensures { ComesToFull }
{}

/// Where a line was broken off, the held pin is released, and no pin of the caller is live.
pub fn comes_to_break()
    ensures { ComesToBreak }
{}
