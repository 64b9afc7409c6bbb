//! Reads a script.
ghost use Rattle.std.specs.Prelude.{◌≡◌, ◌≤◌, ◌<◌, ◌+◌, IfOk, IfErr, MatchResult, length, ℕ};
ghost use Rattle.std.specs.Option.{option_map};
ghost use Rattle.script_spec.specs.ScriptText as text;
ghost use Rattle.script_spec.specs.ScriptText.{IsFirstBad, IsScriptText};
ghost use Rattle.script_reader.specs.Line.{AreRead, Goes, IsBadLine, IsFirst, place_of};
ghost use Rattle.script_words.specs.Reading.{lent};
ghost use Rattle.script_words.specs.declared.unread.Unread.TheVariants.{Bad};
ghost use Rattle.script_reader.specs.declared.script.ScriptError.TheVariants.{NoMemory};
ghost use Rattle.script_spec.specs.declared.limits.TheConstants.{MOST_SCRIPT_BYTES};

use crate::cut::cut_lines;
use crate::line::read_line;
use netlist_schema::{NoMemory, Row};
use script_spec::{Script, ScriptLine, Step};
use script_words::Unread;
use std::alloc::Global;

/// Why a text was not read as a script.
#[derive(Clone, Copy, Debug, PartialEq, Eq)]
pub enum ScriptError {
    /// The first line that is neither a comment nor says a step that may stand there. Lines count from 1.
    BadLine(u64),
    /// An allocation was refused.
    NoMemory,
}

impl From<NoMemory> for ScriptError {
    ghost from_gives = { λ _ e. e ≡ NoMemory };

    fn from(_e: NoMemory) -> ScriptError {
        ScriptError::NoMemory
    }
}

/// What is held by the text alone.
#[derive(Clone, Copy)]
pub enum Place {
    /// Nothing.
    Free,
    /// A transaction.
    Block,
    /// A pin, which counts as held whatever its answer will be.
    Holding,
}

/// The lines so far that say a step, and the place behind them.
#[derive(Drop)]
pub struct Progress {
    pub found: Vec<ScriptLine>,
    pub place: Place,
}

/// The place behind a step, or `None` where it may not stand in this one.
fn behind(place: Place, step: &Step) -> Option<Place>
    ensures { option_map place_of result ≡ text.behind (place_of place) step.now }
{
    match (place, step) {
        (Place::Free, Step::Begin { .. }) => Some(Place::Block),
        (Place::Free, Step::Pin | Step::PinAt(_)) => Some(Place::Holding),
        (Place::Free, Step::Collect) => Some(Place::Free),
        (Place::Block, Step::Run(_)) => Some(Place::Block),
        (Place::Block, Step::Commit | Step::Abandon) => Some(Place::Free),
        (Place::Holding, Step::Walk { .. } | Step::Collect) => Some(Place::Holding),
        (Place::Holding, Step::Release) => Some(Place::Free),
        _ => None,
    }
}

impl Progress {
    /// Reads one line more. `Bad` where it is neither a comment nor says a step that may stand here; then nothing changes.
    fn take(&mut self, alloc: Global, number: u32, line: &[u8]) -> Result<(), Unread>
        ensures { MatchResult result
            (λ u. Goes number line.now self.old.found.items (place_of self.old.place) self.new.found.items (place_of self.new.place))
            (λ e. e ≡ Bad → IsBadLine line.now (place_of self.old.place)) }
    {
        let Some(step) = read_line(alloc, line)? else {
            return Ok(());
        };
        let Some(next) = behind(self.place, &step) else {
            return Err(Unread::Bad);
        };
        self.found.push(ScriptLine { number, step })?;
        self.place = next;
        Ok(())
    }
}

/// Reads lines.
fn read_lines(alloc: Global, lines: &[&[u8]]) -> Result<Vec<ScriptLine>, ScriptError>
    requires { length lines.now ≤ MOST_SCRIPT_BYTES }
    ensures ok { IfOk result (λ found. (place : text.Place) × AreRead (lent lines.now) found.items place) }
    ensures bad { IfErr result (λ e. (at : ℕ) → e ≡ ScriptError.BadLine at → IsFirst (lent lines.now) at) }
{
    let mut progress = Progress {
        found: Vec::new(alloc),
        place: Place::Free,
    };
    let mut number = 0;
    for line in lines {
        number += 1;
        match progress.take(alloc, number, line) {
            Ok(()) => {}
            Err(Unread::Bad) => return Err(ScriptError::BadLine(u64::from(number))),
            Err(Unread::NoMemory) => return Err(ScriptError::NoMemory),
        }
    }
    Ok(progress.found)
}

/// The script that a text is: `docs/scripts.md` has the table of lines. `BadLine` exactly where it is none, at the first line that
/// is bad or stands where it may not. It takes time and memory in proportion to the text.
pub fn parse(alloc: Global, bytes: &[u8]) -> Result<Script, ScriptError>
    requires { length bytes.now ≤ MOST_SCRIPT_BYTES }
    ensures ok { IfOk result (λ script. IsScriptText bytes.now script) }
    ensures bad { IfErr result (λ e. (at : ℕ) → e ≡ ScriptError.BadLine at → IsFirstBad bytes.now at) }
{
    let lines = cut_lines(alloc, bytes)?;
    let found = read_lines(alloc, lines.as_slice())?;
    Ok(Script::of(Row::of(found), lines.len() as u32))
}
