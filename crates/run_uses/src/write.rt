//! A run, its report and the uses of its last version.
ghost use Rattle.std.specs.Prelude.{◌≡◌, ◌≤◌, ◌++◌, Err, List, OnErr, OnOk, length};
ghost use Rattle.netlist_schema.specs.Design.{Design as DesignFacts};
ghost use Rattle.netdb_outside.specs.Outside.{Appends, AppendsFront, Rose};
ghost use Rattle.script_spec.specs.Headline.{CanWalk};
ghost use Rattle.script_spec.specs.Report.{head_design};
ghost use Rattle.script_spec.specs.declared.script.Step.{Step};
ghost use Rattle.script_run_spec.specs.Scripts.{all_steps};
ghost use Rattle.script_run_spec.specs.Written.{written_report};
ghost use Rattle.used_spec.specs.HeadUses.{head_uses_text};
ghost use Rattle.script_run_all.specs.Run.{HaveRun};
ghost use Rattle.run_uses.specs.Written.{UsesWrite};
ghost use Rattle.script_spec.specs.declared.limits.TheConstants.{MOST_SCRIPTS};

use head_uses::write_head_uses;
use netdb_outside::{Gate, Sink, WriteError};
use netlist_schema::Design;
use script_report::write_report;
use script_run_all::{Closed, RunEnd, run_scripts};
use script_run_spec::ended_is_printed;
use script_spec::Script;
use std::alloc::Global;
use std::sync::Wait;
use std::thread::Threads;

/// Writes the report of a run that is closed.
fn write_history<K: Sink>(alloc: Global, closed: &Closed, out: &mut K) -> Result<(), WriteError>
    ensures ok { OnOk result (Appends (K.written out.old) (K.written out.new) (written_report (head_design closed.now.core.opening closed.now.core.events) closed.now.core.events closed.now.texts)) }
    ensures err { OnErr result (AppendsFront (K.written out.old) (K.written out.new) (written_report (head_design closed.now.core.opening closed.now.core.events) closed.now.core.events closed.now.texts)) }
    ensures fault { result ≡ Err WriteError.WriteFault → Rose (K.faults out.old) (K.faults out.new) }
    ensures never_falls { K.faults out.old ≤ K.faults out.new }
{
    let events = closed.core.log();
    write_report(
        alloc,
        closed.core.head(),
        events,
        closed.texts.as_slice(),
        out,
    )
}

/// Writes the uses of the last version of a run that is closed.
fn write_head<K: Sink>(alloc: Global, closed: &Closed, out: &mut K) -> Result<(), WriteError>
    ensures ok { OnOk result (Appends (K.written out.old) (K.written out.new) (head_uses_text closed.now.core.opening closed.now.core.events)) }
    ensures err { OnErr result (AppendsFront (K.written out.old) (K.written out.new) (head_uses_text closed.now.core.opening closed.now.core.events)) }
    ensures fault { result ≡ Err WriteError.WriteFault → Rose (K.faults out.old) (K.faults out.new) }
    ensures never_falls { K.faults out.old ≤ K.faults out.new }
{
    write_head_uses(alloc, closed.core.opening(), closed.core.log(), out)
}

/// Writes both.
fn write_both<K: Sink>(alloc: Global, closed: &Closed, out: &mut K) -> Result<(), WriteError>
    ensures ok { OnOk result (Appends (K.written out.old) (K.written out.new) (written_report (head_design closed.now.core.opening closed.now.core.events) closed.now.core.events closed.now.texts
        ++ head_uses_text closed.now.core.opening closed.now.core.events)) }
    ensures err { OnErr result (AppendsFront (K.written out.old) (K.written out.new) (written_report (head_design closed.now.core.opening closed.now.core.events) closed.now.core.events closed.now.texts
        ++ head_uses_text closed.now.core.opening closed.now.core.events)) }
    ensures fault { result ≡ Err WriteError.WriteFault → Rose (K.faults out.old) (K.faults out.new) }
    ensures never_falls { K.faults out.old ≤ K.faults out.new }
{
    write_history(alloc, closed, out)?;
    write_head(alloc, closed, out)
}

/// Writes both, and tells how the run ended.
fn write_closed<K: Sink>(alloc: Global, closed: &Closed, out: &mut K) -> Result<RunEnd, WriteError>
    ensures writes { (d : DesignFacts) (scripts : List (List Step)) → HaveRun d scripts closed.now.core closed.now.texts closed.now.log_full → UsesWrite d scripts (K.written out.old) (K.written out.new) result }
    ensures fault { result ≡ Err WriteError.WriteFault → Rose (K.faults out.old) (K.faults out.new) }
    ensures never_falls { K.faults out.old ≤ K.faults out.new }
{
    ended_is_printed();
    match write_both(alloc, closed, out) {
        Ok(()) => {
            if closed.log_full {
                return Ok(RunEnd::LogFull);
            }
            Ok(RunEnd::Whole)
        }
        Err(error) => Err(error),
    }
}

/// Runs scripts beside each other on a design, as `run_scripts` does, and writes the report of the run, and behind it the uses of the
/// last version: the accepted commits of its history are done again on the design, with an index of the users of each cell that is kept,
/// and its lines are written. It answers whether each script ended by its last line, or some met a full log; either way all was written.
/// After `WriteFault` a front of it was written; after `NoMemory` that, or nothing.
pub fn write_run_uses<R: Threads + Wait + Sync, K: Sink, G: Gate + Sync>(
    rt: &R,
    alloc: Global,
    design: Design,
    scripts: &[Script],
    gate: &G,
    out: &mut K,
) -> Result<RunEnd, WriteError>
    requires many { (1 ≤ length scripts.now) × (length scripts.now ≤ MOST_SCRIPTS) }
    requires walks { CanWalk design (all_steps scripts.now) }
    ensures writes { UsesWrite design (all_steps scripts.now) (K.written out.old) (K.written out.new) result }
    ensures fault { result ≡ Err WriteError.WriteFault → Rose (K.faults out.old) (K.faults out.new) }
    ensures never_falls { K.faults out.old ≤ K.faults out.new }
{
    match run_scripts(rt, alloc, design, scripts, gate) {
        Ok(closed) => write_closed(alloc, &closed, out),
        Err(_) => Err(WriteError::NoMemory),
    }
}
