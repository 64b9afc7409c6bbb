//! The report of a run, on its way to a sink.
ghost use Rattle.std.specs.Prelude.{◌≡◌, ◌≤◌, Err, List, length};
ghost use Rattle.netlist_schema.specs.Design.{Design as DesignFacts};
ghost use Rattle.netdb_outside.specs.Outside.{Rose};
ghost use Rattle.script_spec.specs.Headline.{CanWalk};
ghost use Rattle.script_spec.specs.declared.script.Step.{Step};
ghost use Rattle.script_run_spec.specs.Scripts.{all_steps};
ghost use Rattle.script_run_all.specs.Run.{HaveRun};
ghost use Rattle.script_run_all.specs.Written.{RunWrites};
ghost use Rattle.script_spec.specs.declared.limits.TheConstants.{MOST_SCRIPTS};

use crate::ended::RunEnd;
use crate::run::{Closed, run_scripts};
use netdb_outside::{Gate, Sink, WriteError};
use netlist_schema::Design;
use script_report::write_report;
use script_run_spec::ended_is_printed;
use script_spec::Script;
use std::alloc::Global;
use std::sync::Wait;
use std::thread::Threads;

/// Writes the report of a run that is closed.
fn write_closed<K: Sink>(alloc: Global, closed: &Closed, out: &mut K) -> Result<RunEnd, WriteError>
    ensures writes { (d : DesignFacts) (scripts : List (List Step)) → HaveRun d scripts closed.now.core closed.now.texts closed.now.log_full → RunWrites d scripts (K.written out.old) (K.written out.new) result }
    ensures fault { result ≡ Err WriteError.WriteFault → Rose (K.faults out.old) (K.faults out.new) }
    ensures never_falls { K.faults out.old ≤ K.faults out.new }
{
    ended_is_printed();
    let events = closed.core.log();
    match write_report(
        alloc,
        closed.core.head(),
        events,
        closed.texts.as_slice(),
        out,
    ) {
        Ok(()) => {
            if closed.log_full {
                return Ok(RunEnd::LogFull);
            }
            Ok(RunEnd::Whole)
        }
        Err(error) => Err(error),
    }
}

/// Runs scripts beside each other on a design, as `run_scripts` does, and writes the report of the run: the history of the database, the
/// transcripts, and the canonical text of the last version. It answers whether each script ended by its last line, or some met a full
/// log; either way the whole report was written. After `WriteFault` a front of it was written; after `NoMemory` that, or nothing.
pub fn write_run<R: Threads + Wait + Sync, K: Sink, G: Gate + Sync>(
    rt: &R,
    alloc: Global,
    design: Design,
    scripts: &[Script],
    gate: &G,
    out: &mut K,
) -> Result<RunEnd, WriteError>
    requires many { (1 ≤ length scripts.now) × (length scripts.now ≤ MOST_SCRIPTS) }
    requires walks { CanWalk design (all_steps scripts.now) }
    ensures writes { RunWrites design (all_steps scripts.now) (K.written out.old) (K.written out.new) result }
    ensures fault { result ≡ Err WriteError.WriteFault → Rose (K.faults out.old) (K.faults out.new) }
    ensures never_falls { K.faults out.old ≤ K.faults out.new }
{
    match run_scripts(rt, alloc, design, scripts, gate) {
        Ok(closed) => write_closed(alloc, &closed, out),
        Err(_) => Err(WriteError::NoMemory),
    }
}
