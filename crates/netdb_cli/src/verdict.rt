//! What a check of a report writes: whether it is true, as a line.
ghost use Rattle.std.specs.Prelude.{◌≤◌, length};
ghost use Rattle.script_run_spec.specs.Scripts.{all_steps};
ghost use Rattle.netdb_spec.specs.Counts.{CountsWriting};
ghost use Rattle.netdb_spec.specs.Checked.{CheckGives};
ghost use Rattle.script_spec.specs.declared.limits.TheConstants.{MOST_SCRIPTS};

use history_check::{CheckError, Verdict, check_report};
use netdb_commands::put_bytes;
use netdb_outside::Sink;
use netdb_spec::Status;
use netlist_schema::{Design, Row};
use script_spec::Script;
use std::alloc::Global;

/// Writes the line `yes` where a text is the report of a run of scripts on a design, else the line `no`, unless one of the scripts walks
/// and the design has no top.
pub(crate) fn write_verdict<K: Sink>(
    alloc: Global,
    design: Design,
    scripts: &Row<Script>,
    report: &[u8],
    out: &mut K,
) -> Status
    requires { length scripts.now ≤ MOST_SCRIPTS }
    ensures gives { CheckGives design (all_steps scripts.now) report.now (K.written out.old) (K.written out.new) result }
    ensures counts { CountsWriting (K.faults out.old) (K.faults out.new) result }
{
    match check_report(alloc, design, scripts, report) {
        Ok(Verdict::Yes) => put_bytes(b"yes\n", out),
        Ok(Verdict::No) => put_bytes(b"no\n", out),
        Err(CheckError::NoTop) => Status::NoTop,
        Err(CheckError::NoMemory) => Status::NoMemory,
    }
}
