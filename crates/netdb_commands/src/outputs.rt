//! What is written of a design, of a run and of a generated run.
ghost use Rattle.std.specs.Prelude.{◌≡◌, ◌≤◌, length};
ghost use Rattle.edif_spec.specs.Arranged.{canonical_text};
ghost use Rattle.script_spec.specs.Headline.{CanWalk};
ghost use Rattle.script_run_spec.specs.Scripts.{all_steps};
ghost use Rattle.netdb_spec.specs.Command.{AreWorkers, IsGoodWanted, IsSize};
ghost use Rattle.netdb_spec.specs.Gives.{OutputGives, RunGives, SummaryGives, TextGives, UsesGive};
ghost use Rattle.netdb_spec.specs.Counts.{CountsWriting};
ghost use Rattle.script_spec.specs.declared.limits.TheConstants.{MOST_SCRIPTS};

use edif_writer::write_design;
use erc_report::write_findings;
use flat_writer::{FlatError, write_flat, write_pin_table};
use gen_run::summary;
use netdb_outside::{Gate, Put, Sink, WriteError};
use netdb_spec::{Status, Wanted};
use netlist_schema::Design;
use par_flat::write_par_flat;
use run_uses::write_run_uses;
use script_run_all::{RunEnd, write_run};
use script_spec::Script;
use script_walks::cannot_walk;
use std::alloc::Global;
use std::sync::Wait;
use std::thread::Threads;
use used_keep::{KeepError, keep_used};

/// Writes the canonical text of a design.
fn write_text<K: Sink>(alloc: Global, design: &Design, out: &mut K) -> Status
    ensures gives { TextGives (canonical_text design.now) (K.written out.old) (K.written out.new) result }
    ensures counts { CountsWriting (K.faults out.old) (K.faults out.new) result }
{
    match write_design(alloc, design, out) {
        Ok(()) => Status::Ok,
        Err(WriteError::WriteFault) => Status::WriteFault,
        Err(WriteError::NoMemory) => Status::NoMemory,
    }
}

/// The same limit in 64 bits.
fn wide(limit: Option<u32>) -> Option<u64>
    ensures { result ≡ limit }
{
    match limit {
        Some(limit) => Some(u64::from(limit)),
        None => None,
    }
}

/// Writes the items of the flattening of a design, at most so many where there is a limit.
fn write_items<K: Sink>(alloc: Global, design: &Design, limit: Option<u32>, out: &mut K) -> Status
    ensures gives { OutputGives (Wanted.Items limit) design.now (K.written out.old) (K.written out.new) result }
    ensures counts { CountsWriting (K.faults out.old) (K.faults out.new) result }
{
    match write_flat(alloc, design, wide(limit), out) {
        Ok(()) => Status::Ok,
        Err(FlatError::NoTop) => Status::NoTop,
        Err(FlatError::WriteFault) => Status::WriteFault,
        Err(FlatError::NoMemory) => Status::NoMemory,
    }
}

/// Writes the pin table of a design.
fn write_pins<K: Sink>(alloc: Global, design: &Design, out: &mut K) -> Status
    ensures gives { OutputGives Wanted.Pins design.now (K.written out.old) (K.written out.new) result }
    ensures counts { CountsWriting (K.faults out.old) (K.faults out.new) result }
{
    match write_pin_table(alloc, design, out) {
        Ok(()) => Status::Ok,
        Err(FlatError::NoTop) => Status::NoTop,
        Err(FlatError::WriteFault) => Status::WriteFault,
        Err(FlatError::NoMemory) => Status::NoMemory,
    }
}

/// Writes the canonical text of what is left of a design without the cells that its top does not use.
fn write_used<K: Sink>(alloc: Global, design: &Design, out: &mut K) -> Status
    ensures gives { OutputGives Wanted.Used design.now (K.written out.old) (K.written out.new) result }
    ensures counts { CountsWriting (K.faults out.old) (K.faults out.new) result }
{
    match keep_used(alloc, design) {
        Ok(kept) => write_text(alloc, &kept, out),
        Err(KeepError::NoTop) => Status::NoTop,
        Err(KeepError::NoMemory) => Status::NoMemory,
    }
}

/// Writes the items of the flattening of a design, which so many workers make.
fn write_spread<R: Threads + Sync, G: Gate + Sync, K: Sink>(
    rt: &R,
    alloc: Global,
    design: &Design,
    workers: u32,
    gate: &G,
    out: &mut K,
) -> Status
    requires { AreWorkers workers }
    ensures gives { OutputGives (Wanted.Spread workers) design.now (K.written out.old) (K.written out.new) result }
    ensures counts { CountsWriting (K.faults out.old) (K.faults out.new) result }
{
    match write_par_flat(rt, alloc, design, workers, gate, out) {
        Ok(()) => Status::Ok,
        Err(FlatError::NoTop) => Status::NoTop,
        Err(FlatError::WriteFault) => Status::WriteFault,
        Err(FlatError::NoMemory) => Status::NoMemory,
    }
}

/// Writes what an electrical check finds in a design.
fn write_check<K: Sink>(alloc: Global, design: &Design, out: &mut K) -> Status
    ensures gives { OutputGives Wanted.Findings design.now (K.written out.old) (K.written out.new) result }
    ensures counts { CountsWriting (K.faults out.old) (K.faults out.new) result }
{
    match write_findings(alloc, design, out) {
        Ok(()) => Status::Ok,
        Err(FlatError::NoTop) => Status::NoTop,
        Err(FlatError::WriteFault) => Status::WriteFault,
        Err(FlatError::NoMemory) => Status::NoMemory,
    }
}

/// Writes what is wanted of a design.
pub fn write_output<R: Threads + Sync, G: Gate + Sync, K: Sink>(
    rt: &R,
    alloc: Global,
    design: &Design,
    wanted: Wanted,
    gate: &G,
    out: &mut K,
) -> Status
    requires { IsGoodWanted wanted }
    ensures gives { OutputGives wanted design.now (K.written out.old) (K.written out.new) result }
    ensures counts { CountsWriting (K.faults out.old) (K.faults out.new) result }
{
    match wanted {
        Wanted::Text => write_text(alloc, design, out),
        Wanted::Items { limit } => write_items(alloc, design, limit, out),
        Wanted::Pins => write_pins(alloc, design, out),
        Wanted::Used => write_used(alloc, design, out),
        Wanted::Spread { workers } => write_spread(rt, alloc, design, workers, gate, out),
        Wanted::Findings => write_check(alloc, design, out),
    }
}

/// Runs scripts on a design, and writes the report.
fn report<R: Threads + Wait + Sync, K: Sink, G: Gate + Sync>(
    rt: &R,
    alloc: Global,
    design: Design,
    scripts: &[Script],
    gate: &G,
    out: &mut K,
) -> Status
    requires many { (1 ≤ length scripts.now) × (length scripts.now ≤ MOST_SCRIPTS) }
    requires walks { CanWalk design (all_steps scripts.now) }
    ensures gives { RunGives design (all_steps scripts.now) (K.written out.old) (K.written out.new) result }
    ensures counts { CountsWriting (K.faults out.old) (K.faults out.new) result }
{
    match write_run(rt, alloc, design, scripts, gate, out) {
        Ok(RunEnd::Whole) => Status::Ok,
        Ok(RunEnd::LogFull) => Status::LogFull,
        Err(WriteError::WriteFault) => Status::WriteFault,
        Err(WriteError::NoMemory) => Status::NoMemory,
    }
}

/// Runs scripts on a design and writes the report, unless one of them walks and the design has no top.
pub fn write_report<R: Threads + Wait + Sync, K: Sink, G: Gate + Sync>(
    rt: &R,
    alloc: Global,
    design: Design,
    scripts: &[Script],
    gate: &G,
    out: &mut K,
) -> Status
    requires { (1 ≤ length scripts.now) × (length scripts.now ≤ MOST_SCRIPTS) }
    ensures gives { RunGives design (all_steps scripts.now) (K.written out.old) (K.written out.new) result }
    ensures counts { CountsWriting (K.faults out.old) (K.faults out.new) result }
{
    if cannot_walk(&design, scripts) {
        return Status::NoTop;
    }
    report(rt, alloc, design, scripts, gate, out)
}

/// Runs scripts on a design, and writes the report and the uses of the last version.
fn report_uses<R: Threads + Wait + Sync, K: Sink, G: Gate + Sync>(
    rt: &R,
    alloc: Global,
    design: Design,
    scripts: &[Script],
    gate: &G,
    out: &mut K,
) -> Status
    requires many { (1 ≤ length scripts.now) × (length scripts.now ≤ MOST_SCRIPTS) }
    requires walks { CanWalk design (all_steps scripts.now) }
    ensures gives { UsesGive design (all_steps scripts.now) (K.written out.old) (K.written out.new) result }
    ensures counts { CountsWriting (K.faults out.old) (K.faults out.new) result }
{
    match write_run_uses(rt, alloc, design, scripts, gate, out) {
        Ok(RunEnd::Whole) => Status::Ok,
        Ok(RunEnd::LogFull) => Status::LogFull,
        Err(WriteError::WriteFault) => Status::WriteFault,
        Err(WriteError::NoMemory) => Status::NoMemory,
    }
}

/// Runs scripts on a design and writes the report and the uses of the last version, unless one of them walks and the design has no top.
pub fn write_with_uses<R: Threads + Wait + Sync, K: Sink, G: Gate + Sync>(
    rt: &R,
    alloc: Global,
    design: Design,
    scripts: &[Script],
    gate: &G,
    out: &mut K,
) -> Status
    requires { (1 ≤ length scripts.now) × (length scripts.now ≤ MOST_SCRIPTS) }
    ensures gives { UsesGive design (all_steps scripts.now) (K.written out.old) (K.written out.new) result }
    ensures counts { CountsWriting (K.faults out.old) (K.faults out.new) result }
{
    if cannot_walk(&design, scripts) {
        return Status::NoTop;
    }
    report_uses(rt, alloc, design, scripts, gate, out)
}

/// Writes bytes as they are.
pub fn put_bytes<K: Sink>(bytes: &[u8], out: &mut K) -> Status
    ensures gives { TextGives bytes.now (K.written out.old) (K.written out.new) result }
    ensures counts { CountsWriting (K.faults out.old) (K.faults out.new) result }
{
    match out.put(bytes) {
        Put::Put => Status::Ok,
        Put::Failed => Status::WriteFault,
        Put::NoMemory => Status::NoMemory,
    }
}

/// Writes the summary of a generated run.
pub fn write_summary<K: Sink>(alloc: Global, size: u32, out: &mut K) -> Status
    requires { IsSize size }
    ensures gives { SummaryGives size (K.written out.old) (K.written out.new) result }
    ensures counts { CountsWriting (K.faults out.old) (K.faults out.new) result }
{
    match summary(alloc, size) {
        Ok(text) => put_bytes(text.as_slice(), out),
        Err(_) => Status::NoMemory,
    }
}
