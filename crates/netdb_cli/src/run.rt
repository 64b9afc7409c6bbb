//! The top call.
ghost use Rattle.std.specs.Prelude.{◌≡◌, ◌↔◌, ◌≤◌, List, ◌∷◌, length};
ghost use Rattle.netdb_outside.specs.Outside.{SameFiles};
ghost use Rattle.netdb_outside.specs.Visits.{Visit};
ghost use Rattle.netdb_spec.specs.Command.{Asks, Check, IsCommand, IsGood, IsGoodWanted, Request, Show, Run, Uses, request_of, spelled};
ghost use Rattle.netdb_spec.specs.Due.{IsDue};
ghost use Rattle.netdb_spec.specs.Counts.{CountsReading, CountsWriting};
ghost use Rattle.netdb_spec.specs.Visits.{Adds, CommandReads, report_file, script_files};
ghost use Rattle.netdb_spec.specs.Gives.{OutputGives};
ghost use Rattle.netdb_spec.specs.Outcome.{Gives, ReadChecks, ReadRunGives, ReadUsesGive, ReportGives};
ghost use Rattle.netdb_spec.specs.Reads.{LeavesFiles, files_of};
ghost use Rattle.script_spec.specs.declared.limits.TheConstants.{MOST_SCRIPTS};

use crate::verdict::write_verdict;
use netdb_commands::{
    command_of, read_design, read_report, read_scripts, write_output, write_report, write_summary,
    write_with_uses,
};
use netdb_outside::{Files, Gate, Sink};
use netdb_spec::{Command, Status, Wanted, given_is_due};
use netlist_schema::{Design, Row};
use std::alloc::Global;
use std::mem::forget;
use std::sync::Wait;
use std::thread::Threads;

/// The position of the first script's name among the words of a run.
const RUN_WORD: u32 = 2;

/// The position of the first script's name among the words of a check.
const CHECK_WORD: u32 = 3;

/// What goes along with a command: what starts threads, where memory comes from, and the gate that workers and callers tell.
#[derive(Clone, Copy)]
struct Along<'a, R, G> {
    rt: &'a R,
    alloc: Global,
    gate: &'a G,
}

/// Writes what is wanted of a design, which stays where it is: the program ends behind its one command, and to let a large design go
/// instance by instance would take some hundredths of its time.
fn write_last<R: Threads + Sync, K: Sink, G: Gate + Sync>(
    along: &Along<'_, R, G>,
    design: Design,
    wanted: Wanted,
    out: &mut K,
) -> Status
    requires { IsGoodWanted wanted }
    ensures gives { OutputGives wanted design (K.written out.old) (K.written out.new) result }
    ensures counts { CountsWriting (K.faults out.old) (K.faults out.new) result }
{
    let status = write_output(along.rt, along.alloc, &design, wanted, along.gate, out);
    forget(design);
    status
}

/// Reads a design file, and writes what is wanted of its design.
fn show_file<R: Threads + Sync, F: Files, K: Sink, G: Gate + Sync>(
    along: &Along<'_, R, G>,
    name: &str,
    wanted: Wanted,
    files: &mut F,
    out: &mut K,
) -> Status
    requires { IsGoodWanted wanted }
    ensures gives { Gives (Show name.now wanted) (F.told files.new) (K.written out.old) (K.written out.new) result }
    ensures reading { CountsReading (F.faults files.old) (F.faults files.new) result }
    ensures writing { CountsWriting (K.faults out.old) (K.faults out.new) result }
    ensures files { SameFiles (F.told files.old) (F.told files.new) }
    ensures visited { Adds (F.visits files.old) (F.visits files.new) (CommandReads (files_of (Show name.now wanted)) 1 result) }
{
    match read_design(along.alloc, files, name) {
        Ok(design) => write_last(along, design, wanted, out),
        Err(status) => status,
    }
}

/// Reads the files of scripts, runs them on a design, and writes the report.
fn run_files<R: Threads + Wait + Sync, F: Files, K: Sink, G: Gate + Sync>(
    along: &Along<'_, R, G>,
    design: Design,
    names: &[String],
    files: &mut F,
    out: &mut K,
) -> Status
    requires { (1 ≤ length names.now) × (length names.now ≤ MOST_SCRIPTS) }
    ensures gives { ReadRunGives design (spelled names.now) (F.told files.new) (K.written out.old) (K.written out.new) result }
    ensures reading { CountsReading (F.faults files.old) (F.faults files.new) result }
    ensures writing { CountsWriting (K.faults out.old) (K.faults out.new) result }
    ensures files { SameFiles (F.told files.old) (F.told files.new) }
    ensures visited { Adds (F.visits files.old) (F.visits files.new) (CommandReads (script_files (spelled names.now)) 2 result) }
{
    match read_scripts(along.alloc, files, names, RUN_WORD) {
        Ok(scripts) => write_report(along.rt, along.alloc, design, &scripts, along.gate, out),
        Err(status) => status,
    }
}

/// Reads a design file and the files of scripts, runs these on the design, and writes the report.
fn run_on_file<R: Threads + Wait + Sync, F: Files, K: Sink, G: Gate + Sync>(
    along: &Along<'_, R, G>,
    name: &str,
    names: &[String],
    files: &mut F,
    out: &mut K,
) -> Status
    requires { (1 ≤ length names.now) × (length names.now ≤ MOST_SCRIPTS) }
    ensures gives { Gives (Run name.now (spelled names.now)) (F.told files.new) (K.written out.old) (K.written out.new) result }
    ensures reading { CountsReading (F.faults files.old) (F.faults files.new) result }
    ensures writing { CountsWriting (K.faults out.old) (K.faults out.new) result }
    ensures files { SameFiles (F.told files.old) (F.told files.new) }
    ensures visited { Adds (F.visits files.old) (F.visits files.new) (CommandReads (files_of (Run name.now (spelled names.now))) 1 result) }
{
    match read_design(along.alloc, files, name) {
        Ok(design) => run_files(along, design, names, files, out),
        Err(status) => status,
    }
}

/// Reads the files of scripts, runs them on a design, and writes the report and the uses of the last version.
fn use_files<R: Threads + Wait + Sync, F: Files, K: Sink, G: Gate + Sync>(
    along: &Along<'_, R, G>,
    design: Design,
    names: &[String],
    files: &mut F,
    out: &mut K,
) -> Status
    requires { (1 ≤ length names.now) × (length names.now ≤ MOST_SCRIPTS) }
    ensures gives { ReadUsesGive design (spelled names.now) (F.told files.new) (K.written out.old) (K.written out.new) result }
    ensures reading { CountsReading (F.faults files.old) (F.faults files.new) result }
    ensures writing { CountsWriting (K.faults out.old) (K.faults out.new) result }
    ensures files { SameFiles (F.told files.old) (F.told files.new) }
    ensures visited { Adds (F.visits files.old) (F.visits files.new) (CommandReads (script_files (spelled names.now)) 2 result) }
{
    match read_scripts(along.alloc, files, names, RUN_WORD) {
        Ok(scripts) => write_with_uses(along.rt, along.alloc, design, &scripts, along.gate, out),
        Err(status) => status,
    }
}

/// Reads a design file and the files of scripts, runs these on the design, and writes the report and the uses of the last version.
fn uses_of_file<R: Threads + Wait + Sync, F: Files, K: Sink, G: Gate + Sync>(
    along: &Along<'_, R, G>,
    name: &str,
    names: &[String],
    files: &mut F,
    out: &mut K,
) -> Status
    requires { (1 ≤ length names.now) × (length names.now ≤ MOST_SCRIPTS) }
    ensures gives { Gives (Uses name.now (spelled names.now)) (F.told files.new) (K.written out.old) (K.written out.new) result }
    ensures reading { CountsReading (F.faults files.old) (F.faults files.new) result }
    ensures writing { CountsWriting (K.faults out.old) (K.faults out.new) result }
    ensures files { SameFiles (F.told files.old) (F.told files.new) }
    ensures visited { Adds (F.visits files.old) (F.visits files.new) (CommandReads (files_of (Uses name.now (spelled names.now))) 1 result) }
{
    match read_design(along.alloc, files, name) {
        Ok(design) => use_files(along, design, names, files, out),
        Err(status) => status,
    }
}

/// Reads the files of scripts, and writes whether a text is the report of a run of them on a design.
fn check_text<F: Files, K: Sink>(
    alloc: Global,
    design: Design,
    report: &[u8],
    names: &[String],
    files: &mut F,
    out: &mut K,
) -> Status
    requires { length names.now ≤ MOST_SCRIPTS }
    ensures gives { ReadChecks design report.now (spelled names.now) (F.told files.new) (K.written out.old) (K.written out.new) result }
    ensures reading { CountsReading (F.faults files.old) (F.faults files.new) result }
    ensures writing { CountsWriting (K.faults out.old) (K.faults out.new) result }
    ensures files { SameFiles (F.told files.old) (F.told files.new) }
    ensures visited { Adds (F.visits files.old) (F.visits files.new) (CommandReads (script_files (spelled names.now)) 3 result) }
{
    match read_scripts(alloc, files, names, CHECK_WORD) {
        Ok(scripts) => {
            let scripts = Row::of(scripts);
            write_verdict(alloc, design, &scripts, report, out)
        }
        Err(status) => status,
    }
}

/// Reads a report and the files of scripts, and writes whether it is the report of a run of them on a design.
fn check_report_file<F: Files, K: Sink>(
    alloc: Global,
    design: Design,
    report: &str,
    names: &[String],
    files: &mut F,
    out: &mut K,
) -> Status
    requires { length names.now ≤ MOST_SCRIPTS }
    ensures gives { ReportGives design report.now (spelled names.now) (F.told files.new) (K.written out.old) (K.written out.new) result }
    ensures reading { CountsReading (F.faults files.old) (F.faults files.new) result }
    ensures writing { CountsWriting (K.faults out.old) (K.faults out.new) result }
    ensures files { SameFiles (F.told files.old) (F.told files.new) }
    ensures visited { Adds (F.visits files.old) (F.visits files.new) (CommandReads (report_file report.now ∷ script_files (spelled names.now)) 2 result) }
{
    match read_report(alloc, files, report) {
        Ok(text) => check_text(alloc, design, text.as_slice(), names, files, out),
        Err(status) => status,
    }
}

/// Reads a design file, a report and the files of scripts, and writes whether it is the report of a run of these on the design.
fn check_files<F: Files, K: Sink>(
    alloc: Global,
    name: &str,
    report: &str,
    names: &[String],
    files: &mut F,
    out: &mut K,
) -> Status
    requires { length names.now ≤ MOST_SCRIPTS }
    ensures gives { Gives (Check name.now report.now (spelled names.now)) (F.told files.new) (K.written out.old) (K.written out.new) result }
    ensures reading { CountsReading (F.faults files.old) (F.faults files.new) result }
    ensures writing { CountsWriting (K.faults out.old) (K.faults out.new) result }
    ensures files { SameFiles (F.told files.old) (F.told files.new) }
    ensures visited { Adds (F.visits files.old) (F.visits files.new) (CommandReads (files_of (Check name.now report.now (spelled names.now))) 1 result) }
{
    match read_design(alloc, files, name) {
        Ok(design) => check_report_file(alloc, design, report, names, files, out),
        Err(status) => status,
    }
}

/// Runs a command.
fn run_command<R: Threads + Wait + Sync, F: Files, K: Sink, G: Gate + Sync>(
    along: &Along<'_, R, G>,
    command: Command<'_>,
    files: &mut F,
    out: &mut K,
) -> Status
    requires { IsGood (request_of command) }
    ensures gives { Gives (request_of command.entry) (F.told files.new) (K.written out.old) (K.written out.new) result }
    ensures reading { CountsReading (F.faults files.old) (F.faults files.new) result }
    ensures writing { CountsWriting (K.faults out.old) (K.faults out.new) result }
    ensures files { SameFiles (F.told files.old) (F.told files.new) }
    ensures visited { Adds (F.visits files.old) (F.visits files.new) (CommandReads (files_of (request_of command.entry)) 1 result) }
    ensures untouched { LeavesFiles (request_of command.entry) (F.told files.old) (F.told files.new) (F.faults files.old) (F.faults files.new) }
{
    match command {
        Command::Show { name, wanted } => show_file(along, name, wanted, files, out),
        Command::Run { name, scripts } => run_on_file(along, name, scripts, files, out),
        Command::Generate { size } => write_summary(along.alloc, size, out),
        Command::Uses { name, scripts } => uses_of_file(along, name, scripts, files, out),
        Command::Check {
            name,
            report,
            scripts,
        } => check_files(along.alloc, name, report, scripts, files, out),
    }
}

/// Runs one command of the program. The words are those after the program's name.
///
/// `write F` reads the design file F and writes its canonical text; `write F used` that of what is left of the design without the cells
/// that its top does not use. `flat F` writes the items of its flattening, a line each, and then `end`; `flat F limit N` at most N of
/// them, N from 1 to 4,294,967,295, and then `end`, or `more` where items are left; `flat F workers W` what `flat F` writes, made in rounds
/// by W workers beside each other, W from 1 to 64, each of which tells the gate 1 before its first line of a round and 2 behind its last
/// one. `csv F` writes the pins of the flattening as a table. `erc F` writes the nets without a driver or with several and the inputs that
/// stand open, a line each, and then `end`. `run F S1 .. Sn` reads 1 to 64 scripts of at most 262,144 bytes, runs them beside each other on
/// the design of F, each by a worker of its own, which tells the gate of its lines, and writes the report of the run; `uses F S1 .. Sn`
/// does the same, and writes the users of each cell of the last version behind it. `check F R S1 .. Sn` reads a report of at most
/// 134,217,728 bytes too, and writes `yes` where it is the report of a history of the scripts on the design of F, else `no`. `gen N` makes a
/// design and a run of size N, from 1 to 4,096, and writes a summary. Whatever it answers, it changes no file.
///
/// At `Ok` the whole text was written. What `write` wrote spells a tree that means the design that was read. What `run` wrote is the
/// report of one legal history whose callers are just the scripts: each script fits the events of its caller there in order, each walk is
/// the flattening of its pinned version, a commit was refused for a conflict exactly where a later commit wrote what it had read, and the
/// last part is the canonical text of the last version, which reads back. What `uses` wrote is such a report, and behind it the uses of
/// the last version of that history. `check` wrote `yes` where the bytes are the report of some history, and `no` where they are that of
/// none. At `LogFull`, which says that some script met a full log, the whole report was written as well, and for `uses` the uses. At
/// `WriteFault` and `NoMemory` a front of such a text was written, or nothing; at each other status nothing.
///
/// Of several causes the first of these is answered: the words are no command; of F: a fault in reading, no such file, too many bytes,
/// bytes without a meaning; of the report: a fault in reading, no such file, too many bytes; of each script in the order of the words: a
/// fault in reading, no such file, too many bytes, a bad line; no top where one is needed, by the command or a line of a script that
/// walks; a fault in writing; a full log. `NoMemory` may come at any point. Scripts that want no more places than a history has, whatever
/// comes of them, meet no full log.
///
/// The files of the words are read in their order, each once and to its end, within its limit, up to the one that the status is about, if
/// it is about one: that is not there, or a call on it failed, or it was read to one byte past its limit, or to its end. No other file is
/// asked for; `gen` asks for none.
///
/// The memory of the design that `write`, `flat`, `csv` or `erc` read is kept to the end of the process, since a program ends behind its one
/// command.
pub fn run_netdb<R: Threads + Wait + Sync, F: Files, K: Sink, G: Gate + Sync>(
    rt: &R,
    alloc: Global,
    words: &[String],
    files: &mut F,
    out: &mut K,
    gate: &G,
) -> Status
    // No command, exactly where the words are none; then nothing is read or written.
    ensures usage { (result ≡ Status.Usage) ↔ (IsCommand (spelled words.now) → ⊥) }
    ensures idle { result ≡ Status.Usage → (F.told files.new ≡ F.told files.old) × (F.faults files.new ≡ F.faults files.old) × (K.written out.new ≡ K.written out.old) × ((seen : List Visit) → F.visits files.old seen → F.visits files.new seen) }

    // Each status of a command: its cause, and what was written.
    ensures gives { (request : Request) → Asks (spelled words.now) request → Gives request (F.told files.new) (K.written out.old) (K.written out.new) result }

    // Each status comes where its cause holds, unless a fault or want of memory comes before; scripts that have room meet no full log.
    ensures due { (request : Request) → Asks (spelled words.now) request → IsDue (F.told files.old) request result }

    // A fault is answered only where its count rose, and one in reading comes before the other causes.
    ensures reading { CountsReading (F.faults files.old) (F.faults files.new) result }
    ensures writing { CountsWriting (K.faults out.old) (K.faults out.new) result }

    // No file changes.
    ensures files { SameFiles (F.told files.old) (F.told files.new) }

    // The files of the words are read in their order, each to its end within its limit, up to the one that the status is about; no other
    // is. A generated run reads none.
    ensures visited { (request : Request) → Asks (spelled words.now) request → Adds (F.visits files.old) (F.visits files.new) (CommandReads (files_of request) 1 result) }
    ensures untouched { (request : Request) → Asks (spelled words.now) request → LeavesFiles request (F.told files.old) (F.told files.new) (F.faults files.old) (F.faults files.new) }
{
    given_is_due();
    match command_of(words) {
        Some(command) => run_command(&Along { rt, alloc, gate }, command, files, out),
        None => Status::Usage,
    }
}
