//! How a script ends whose caller makes no more calls.
ghost use Rattle.std.specs.Prelude.{◌≡◌, ◌+◌, ◌<◌, ◌≤◌, ℕ, IfOk, MatchOption, length};
ghost use Rattle.db_spec.specs.Answers.{most_events};
ghost use Rattle.db_spec.specs.History.{Legal};
ghost use Rattle.db_core.specs.Story.{Story};
ghost use Rattle.script_spec.specs.Headline.{HasWalk};
ghost use Rattle.script_spec.specs.ScriptText.{steps_of};
ghost use Rattle.script_spec.specs.Session.{Nothing, OffPin};
ghost use Rattle.history_check_spec.specs.Left.{AreLoud, Between};
ghost use Rattle.history_check.specs.Follow.{Ends, EndsNever, IsEnd};
ghost use Rattle.history_turns.specs.Seats.{HasPinnedTop, Stands, phase_of};

use history_turns::{At, Seat, pass_quiet};
use netlist_schema::{MOST_EVENTS, NoMemory, Text};
use script_say::say_log_full;
use script_spec::{ScriptLine, Step};
use std::alloc::Global;

/// How a script ends.
#[derive(Clone, Copy, Debug, PartialEq, Eq)]
pub enum End {
    /// By its last line.
    Whole,
    /// Since the log was full for a call that wanted so many places, which is still to be said.
    Full(u32),
    /// So, and it was said.
    Over(u32),
    /// Not without a call.
    Never,
}

/// How a script ends where nothing is held, by the lines that are left.
fn free_end(rest: &[ScriptLine]) -> End
    ensures { IsEnd (Between Nothing) (steps_of rest.now) result }
{
    let Some(line) = rest.first() else {
        return End::Whole;
    };
    match &line.step {
        Step::Begin { .. } => End::Full(2),
        Step::Pin => End::Full(2),
        Step::PinAt(_) => End::Full(2),
        Step::Collect => End::Full(1),
        _ => End::Never,
    }
}

/// How a script ends where the pin that was wanted was refused, by the lines that are left.
fn off_end(rest: &[ScriptLine]) -> End
    requires { AreLoud (Between OffPin) (steps_of rest.now) }
    ensures { IsEnd (Between OffPin) (steps_of rest.now) result }
{
    let Some(line) = rest.first() else {
        return End::Whole;
    };
    match &line.step {
        Step::Collect => End::Full(1),
        _ => End::Never,
    }
}

/// How a script ends, by where its caller stands and the lines that are left.
fn end_of(at: &At, rest: &[ScriptLine]) -> End
    requires { AreLoud (phase_of at.now) (steps_of rest.now) }
    ensures { IsEnd (phase_of at.now) (steps_of rest.now) result }
{
    match at {
        At::Free => free_end(rest),
        At::OffPin => off_end(rest),
        At::Again(_, _) => End::Full(2),
        At::Over(places) => End::Over(*places),
        _ => End::Never,
    }
}

/// The text of a script that met a full log, where the history has not the places that were wanted.
fn filled(events: usize, places: u32, said: Vec<u8>) -> Option<Text>
    requires { events ≤ most_events }
    ensures { MatchOption result (events + places ≤ most_events) (λ text. (most_events < events + places) × (text ≡ said.items)) }
{
    if events as u64 + u64::from(places) > MOST_EVENTS {
        return Some(Text::of(said));
    }
    None
}

/// The transcript of a script whose caller makes no more calls; nothing where it does not end so, with at most so many bytes.
pub fn finish(
    alloc: Global,
    events: usize,
    lines: &[ScriptLine],
    seat: Seat,
    most: usize,
) -> Result<Option<Text>, NoMemory>
    requires few { events ≤ most_events }
    requires line { seat.line ≤ length lines.now }
    requires top { HasWalk (steps_of lines.now) → HasPinnedTop seat.at }
    ensures { IfOk result (λ text. (story : Story) (caller : ℕ) → Stands story caller (steps_of lines.now) seat → events ≡ length story.events → Legal story.opening story.events
        → MatchOption text (EndsNever story caller (steps_of lines.now) most) (Ends story caller (steps_of lines.now))) }
{
    let Seat { at, line, mut said } = seat;
    let Some((at, line)) = pass_quiet(alloc, at, lines, line, most, &mut said)? else {
        return Ok(None);
    };
    match end_of(&at, &lines[line..]) {
        End::Whole => Ok(Some(Text::of(said))),
        End::Full(places) => {
            say_log_full(&mut said)?;
            Ok(filled(events, places, said))
        }
        End::Over(places) => Ok(filled(events, places, said)),
        End::Never => Ok(None),
    }
}
