//! Whether a report is true.
ghost use Rattle.std.specs.Prelude.{◌≡◌, ◌≤◌, [], List, IfOk, MatchBool, MatchOption, length, vec_len};
ghost use Rattle.db_spec.specs.Answers.{most_events};
ghost use Rattle.script_spec.specs.Headline.{CanWalk};
ghost use Rattle.script_run_spec.specs.Scripts.{all_steps};
ghost use Rattle.std.specs.Prelude.{◌<◌, ℕ, slice_index_or};
ghost use Rattle.db_spec.specs.History.{Legal};
ghost use Rattle.db_core.specs.Story.{Story};
ghost use Rattle.history_check.specs.Follow.{AllEnd, AllStand, IsBehind, SomeNever};
ghost use Rattle.history_turns.specs.Seats.{HasPlace};
ghost use Rattle.history_turns.specs.declared.seats.Seat.{Seat as SeatFacts};
ghost use Rattle.history_check.specs.declared.check.CheckError.TheVariants.{NoMemory as OutOfMemory};
ghost use Rattle.history_check.specs.Verdicts.{Checks};
ghost use Rattle.history_check_spec.specs.Printed.{PrintsNone, PrintsOnly, PrintsSome};
ghost use Rattle.script_spec.specs.declared.limits.TheConstants.{MOST_SCRIPTS};

use crate::ends::finish;
use crate::replay::{open_seats, replay};
use db_core::Core;
use history_turns::Seat;
use netlist_schema::{Design, NoMemory, Row, Text};
use report_parts::{after, is_rest};
use script_spec::{Script, one_report};
use script_walks::cannot_walk;
use std::alloc::Global;

/// Whether a text is the report of some history.
#[derive(Clone, Copy, Debug, PartialEq, Eq)]
pub enum Verdict {
    Yes,
    No,
}

/// Why a report is not checked.
#[derive(Clone, Copy, Debug, PartialEq, Eq)]
pub enum CheckError {
    /// A script has a line that walks, and the design has no top.
    NoTop,
    NoMemory,
}

impl From<NoMemory> for CheckError {
    ghost from_gives = { λ _ e. e ≡ OutOfMemory };

    fn from(_: NoMemory) -> CheckError {
        CheckError::NoMemory
    }
}

/// The transcripts of the scripts, whose callers make no more calls; nothing where some script does not end so, with at most so many
/// bytes.
fn finish_all(
    alloc: Global,
    events: usize,
    scripts: &[Script],
    seats: Vec<Seat>,
    most: usize,
) -> Result<Option<Vec<Text>>, NoMemory>
    requires few { events ≤ most_events }
    requires many { vec_len seats ≡ length scripts.now }
    requires lines { (k : ℕ) (d : SeatFacts) → k < length scripts.now → HasPlace (slice_index_or (all_steps scripts.now) k []) (slice_index_or seats.items k d) }
    ensures { IfOk result (λ texts. (story : Story) → AllStand story (all_steps scripts.now) seats.items → events ≡ length story.events → Legal story.opening story.events
        → MatchOption texts (SomeNever story (all_steps scripts.now) most) (λ texts. AllEnd story 0 (all_steps scripts.now) texts.items)) }
{
    let mut texts = Vec::new(alloc);
    for seat in seats {
        let place = texts.len();
        let lines = scripts[place].lines();
        match finish(alloc, events, lines, seat, most)? {
            Some(text) => texts.push(text)?,
            None => return Ok(None),
        }
    }
    Ok(Some(texts))
}

/// Whether what stands behind the events of a report of at most so many bytes is the transcripts and the last version of a database, which
/// has the only history that can print the report.
fn judge(
    alloc: Global,
    core: &Core,
    scripts: &[Script],
    seats: Vec<Seat>,
    rest: &[u8],
    most: usize,
) -> Result<bool, NoMemory>
    requires stands { AllStand core.now (all_steps scripts.now) seats.items }
    requires top { CanWalk core.now.opening (all_steps scripts.now) }
    ensures { IfOk result (λ yes. (report : List ℕ) → length report ≤ most → IsBehind core.now report rest.now → PrintsOnly core.now.opening (all_steps scripts.now) report core.now.events
        → MatchBool yes (PrintsSome core.now.opening (all_steps scripts.now) report) (PrintsNone core.now.opening (all_steps scripts.now) report)) }
{
    one_report();
    let events = core.log().len();
    match finish_all(alloc, events, scripts, seats, most)? {
        Some(texts) => is_rest(alloc, core.head(), texts.as_slice(), rest),
        None => Ok(false),
    }
}

/// Whether a text is the report of some history of a database before its first event, by a replay of the events that it shows.
fn check(
    alloc: Global,
    core: &mut Core,
    scripts: &[Script],
    report: &[u8],
) -> Result<bool, NoMemory>
    requires few { length scripts.now ≤ MOST_SCRIPTS }
    requires fresh { core.old.events ≡ [] }
    requires top { CanWalk core.old.opening (all_steps scripts.now) }
    ensures { IfOk result (λ yes. MatchBool yes (PrintsSome core.old.opening (all_steps scripts.now) report.now) (PrintsNone core.old.opening (all_steps scripts.now) report.now)) }
{
    let Some(events) = after(report, b"history\n") else {
        return Ok(false);
    };
    let most = report.len();
    let mut seats = open_seats(alloc, scripts.len())?;
    match replay(alloc, core, &mut seats, scripts, events, most)? {
        Some(rest) => judge(alloc, core, scripts, seats, rest, most),
        None => Ok(false),
    }
}

/// Whether a text is the report of a run of these scripts, at most 64, on this design: `Yes` exactly where it is the report of some
/// history, which then is the only one, and legal; `No` exactly where there is none. `NoTop` comes exactly where a script walks and the
/// design has no top.
///
/// Of the report only is taken who calls next and whether the call is a release; all else is made again and compared. A walk stops
/// where its caller has said more than the report has bytes, so a small report of a large flattening is refused without that.
pub fn check_report(
    alloc: Global,
    design: Design,
    scripts: &Row<Script>,
    report: &[u8],
) -> Result<Verdict, CheckError>
    requires { length scripts.now ≤ MOST_SCRIPTS }
    ensures { Checks design (all_steps scripts.now) report.now result }
{
    let rows = scripts.as_slice();
    if cannot_walk(&design, rows) {
        return Err(CheckError::NoTop);
    }
    let mut core = Core::new(alloc, design)?;
    if check(alloc, &mut core, rows, report)? {
        return Ok(Verdict::Yes);
    }
    Ok(Verdict::No)
}
