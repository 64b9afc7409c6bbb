//! The files of a command, read in the order of the words.
ghost use Rattle.std.specs.Prelude.{◌≡◌, ◌≤◌, ◌+◌, ◌<◌, ℕ, List, IfErr, IfOk, IfSome, MatchResult, length, vec_len};
ghost use Rattle.netlist_schema.specs.declared.limits.TheConstants.{MOST_FILE_BYTES as MOST_DESIGN_BYTES};
ghost use Rattle.netdb_outside.specs.Contents.{IsReadWhole};
ghost use Rattle.netdb_outside.specs.Outside.{SameFiles};
ghost use Rattle.netdb_outside.specs.Visits.{AddsVisit};
ghost use Rattle.script_run_spec.specs.Scripts.{all_steps};
ghost use Rattle.script_spec.specs.ScriptText.{steps_of};
ghost use Rattle.edif_spec.specs.Files.{IsDesignFile, IsWrong};
ghost use Rattle.edif_file.specs.Reader.{WasFed};
ghost use Rattle.edif_file.specs.Steps.{Says};
ghost use Rattle.netdb_spec.specs.Command.{spelled};
ghost use Rattle.netdb_spec.specs.Counts.{CountsReading};
ghost use Rattle.netdb_spec.specs.Refusals.{RefusesDesign, RefusesFile, RefusesReport, RefusesScript, RefusesScripts};
ghost use Rattle.netdb_spec.specs.Steps.{IsNoDesign, IsNoScript, status_of};
ghost use Rattle.netdb_spec.specs.declared.limits.TheConstants.{MOST_REPORT_BYTES as MOST_REPORT};
ghost use Rattle.netdb_spec.specs.Told.{AreRead, IsFile, IsLastRead, IsRead, IsReadThrough, IsReportFile, IsScriptFile};
ghost use Rattle.netdb_spec.specs.Visits.{Adds, FileReads, StepReads, design_file, report_file, script_file, script_files};
ghost use Rattle.script_spec.specs.declared.limits.TheConstants.{MOST_SCRIPTS};

use edif_file::{DesignReader, NoDesign};
use netdb_outside::{Ended, FileRead, Files, read_file, read_pieces};
use netdb_spec::{MOST_REPORT_BYTES, Status};
use netlist_schema::{Design, MOST_FILE_BYTES, Text};
use script_reader::{ScriptError, parse};
use script_spec::{MOST_SCRIPT_BYTES, Script};
use std::alloc::Global;

/// The position of the design file's name among the words.
const FILE_WORD: u32 = 1;

/// The position of a report's name among the words.
const REPORT_WORD: u32 = 2;

/// Reads a file whole, within a limit, or tells the status that refuses it.
fn read_whole<F: Files>(
    alloc: Global,
    files: &mut F,
    name: &str,
    word: u32,
    limit: u64,
) -> Result<Text, Status>
    ensures read { IfOk result (λ bytes. (length bytes ≤ limit) × IfSome (F.told files.new) (λ folder. IsReadWhole folder name.now bytes)) }
    ensures refused { IfErr result (RefusesFile (F.told files.new) name.now word limit) }
    ensures counts { CountsReading (F.faults files.old) (F.faults files.new) (status_of result) }
    ensures files { SameFiles (F.told files.old) (F.told files.new) }
    ensures visited { AddsVisit (F.visits files.old) (F.visits files.new) (FileReads (record { name = name.now; limit = limit }) word result) }
{
    match read_file(alloc, files, name, limit) {
        FileRead::Bytes(text) => Ok(text),
        FileRead::TooLarge => Err(Status::TooLarge { word }),
        FileRead::Missing => Err(Status::Missing { word }),
        FileRead::Failed => Err(Status::ReadFault { word }),
        FileRead::NoMemory => Err(Status::NoMemory),
    }
}

/// The status of a file of which this is wrong, or of want of memory.
fn refused_by(error: NoDesign) -> Status
    ensures { (bytes : List ℕ) → Says (IsWrong bytes) error → IsNoDesign bytes result }
{
    match error {
        NoDesign::Fault(fault) => Status::BadEdif { fault },
        NoDesign::NoMemory => Status::NoMemory,
    }
}

/// The design of a file whose bytes a reader was fed, or the status that refuses it.
fn design_of(reader: DesignReader) -> Result<Design, Status>
    ensures { (fed : List ℕ) → WasFed reader fed → length fed ≤ MOST_DESIGN_BYTES → MatchResult result (IsDesignFile fed) (IsNoDesign fed) }
{
    match reader.finish() {
        Ok(design) => Ok(design),
        Err(error) => Err(refused_by(error)),
    }
}

/// Reads the design of a file piece by piece, or tells the status that refuses it.
pub fn read_design<F: Files>(alloc: Global, files: &mut F, name: &str) -> Result<Design, Status>
    ensures read { IfOk result (λ d. IsRead (F.told files.new) name.now d × IsReadThrough (F.told files.new) name.now MOST_DESIGN_BYTES) }
    ensures refused { IfErr result (RefusesDesign (F.told files.new) name.now) }
    ensures counts { CountsReading (F.faults files.old) (F.faults files.new) (status_of result) }
    ensures files { SameFiles (F.told files.old) (F.told files.new) }
    ensures visited { AddsVisit (F.visits files.old) (F.visits files.new) (FileReads (design_file name.now) 1 result) }
{
    let word = FILE_WORD;
    let mut reader = DesignReader::new(alloc);
    match read_pieces(alloc, files, name, MOST_FILE_BYTES, &mut reader) {
        Ended::Whole => design_of(reader),
        Ended::TooLarge => Err(Status::TooLarge { word }),
        Ended::Missing => Err(Status::Missing { word }),
        Ended::Failed => Err(Status::ReadFault { word }),
        Ended::NoMemory => Err(Status::NoMemory),
    }
}

/// The script that a text is, or the status that refuses it.
fn script_of(alloc: Global, bytes: &[u8], word: u32) -> Result<Script, Status>
    requires { length bytes.now ≤ MOST_SCRIPT_BYTES }
    ensures { MatchResult result (λ script. IsScriptFile bytes.now (steps_of script.lines)) (IsNoScript bytes.now word) }
{
    match parse(alloc, bytes) {
        Ok(script) => Ok(script),
        Err(ScriptError::BadLine(line)) => Err(Status::BadScript { word, line }),
        Err(ScriptError::NoMemory) => Err(Status::NoMemory),
    }
}

/// Reads the script of a file, or tells the status that refuses it.
fn read_script<F: Files>(
    alloc: Global,
    files: &mut F,
    name: &str,
    word: u32,
) -> Result<Script, Status>
    ensures read { IfOk result (λ script. IsFile (F.told files.new) name.now (λ bytes. IsScriptFile bytes (steps_of script.lines)) × IsReadThrough (F.told files.new) name.now MOST_SCRIPT_BYTES) }
    ensures refused { IfErr result (RefusesScript (F.told files.new) name.now word) }
    ensures counts { CountsReading (F.faults files.old) (F.faults files.new) (status_of result) }
    ensures files { SameFiles (F.told files.old) (F.told files.new) }
    ensures visited { AddsVisit (F.visits files.old) (F.visits files.new) (FileReads (script_file name.now) word result) }
{
    match read_whole(alloc, files, name, word, MOST_SCRIPT_BYTES) {
        Ok(text) => script_of(alloc, text.as_slice(), word),
        Err(status) => Err(status),
    }
}

/// Reads the bytes of a report, once and to its end, or tells the status that refuses it.
pub fn read_report<F: Files>(alloc: Global, files: &mut F, name: &str) -> Result<Text, Status>
    ensures read { IfOk result (λ bytes. IsReportFile (F.told files.new) name.now bytes) }
    ensures through { IfOk result (λ _. IsReadThrough (F.told files.new) name.now MOST_REPORT) }
    ensures refused { IfErr result (RefusesReport (F.told files.new) name.now) }
    ensures counts { CountsReading (F.faults files.old) (F.faults files.new) (status_of result) }
    ensures files { SameFiles (F.told files.old) (F.told files.new) }
    ensures visited { AddsVisit (F.visits files.old) (F.visits files.new) (FileReads (report_file name.now) 2 result) }
{
    read_whole(alloc, files, name, REPORT_WORD, MOST_REPORT_BYTES)
}

/// Reads the scripts of files in their order, the first of which is this word, or tells the status that refuses the first that is none.
pub fn read_scripts<F: Files>(
    alloc: Global,
    files: &mut F,
    names: &[String],
    first: u32,
) -> Result<Vec<Script>, Status>
    requires few { length names.now ≤ MOST_SCRIPTS }
    requires near { first ≤ 3 }
    ensures read { IfOk result (λ scripts. AreRead (F.told files.new) (spelled names.now) (all_steps scripts.items) × IsLastRead (F.told files.new) (spelled names.now)) }
    ensures many { IfOk result (λ scripts. vec_len scripts ≡ length names.now) }
    ensures refused { IfErr result (RefusesScripts (F.told files.new) (spelled names.now) first) }
    ensures counts { CountsReading (F.faults files.old) (F.faults files.new) (status_of result) }
    ensures files { SameFiles (F.told files.old) (F.told files.new) }
    ensures visited { Adds (F.visits files.old) (F.visits files.new) (StepReads (script_files (spelled names.now)) first result) }
{
    let mut scripts = Vec::new(alloc);
    for (place, name) in names.iter().enumerate() {
        let script = match read_script(alloc, files, name.as_str(), place as u32 + first) {
            Ok(script) => script,
            Err(status) => return Err(status),
        };
        if scripts.push(script).is_err() {
            return Err(Status::NoMemory);
        }
    }
    Ok(scripts)
}
