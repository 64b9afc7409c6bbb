//! What holds of the definitions. A law is what a function without parameters ensures; there is nothing to run.

ghost use Rattle.script_run_spec.specs.JointLaws.{EndedIsPrinted};

use script_spec::{session_stays, transcript_stays};

/// Scripts that ended at different times of one legal history have one report.
pub fn ended_is_printed()
    ensures { EndedIsPrinted }
{
    session_stays();
    transcript_stays();
}
