//! Scripts as text, what a script makes of its caller's events, and the report of a run. It holds definitions and laws, and no
//! algorithm.
#![tactic(auto)]

mod laws;
mod limits;
mod script;
mod worked;

pub use laws::{
    lines_are_read, lines_differ, objects_stay, one_bad_line, one_report, one_script, one_step,
    one_transcript, room_suffices, script_or_bad, session_stays, transcript_stays,
};
pub use limits::{MOST_SCRIPT_BYTES, MOST_SCRIPTS};
pub use script::{Script, ScriptLine, Step};
pub use worked::{bad_lines, operations_are_shown, parallel_run, read_alike, retried_run};
