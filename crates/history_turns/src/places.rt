//! The next call of a caller, by where it stands.
ghost use Rattle.std.specs.Prelude.{◌≡◌, ◌+◌, ◌≤◌, ◌<◌, ◌^◌, ◌∷◌, [], Bool, IfOk, List, ℕ, MatchBool, MatchOption, drop, length};
ghost use Rattle.script_spec.specs.Headline.{HasWalk};
ghost use Rattle.script_spec.specs.ScriptText.{steps_of};
ghost use Rattle.script_spec.specs.Session.{Nothing, OffPin, OnPin};
ghost use Rattle.script_spec.specs.declared.script.Step.{Step as SessionStep};
ghost use Rattle.history_check_spec.specs.Left.{Between, IsLoud};
ghost use Rattle.history_turns.specs.Moves.{Comes, ComesThere, IsHalted, Turned, left_by};
ghost use Rattle.history_turns.specs.Seats.{HasPinnedTop, IsAt, IsBetween, IsOwed, IsPinBy, phase_of};

use crate::blocks::{begin_again, commit_line};
use crate::lines::{
    abandon_line, begin_line, collect_line, cut_off, pin_at_line, pin_line, release_line,
};
use crate::quiet::pass_quiet;
use crate::seats::{Asked, At, Block, Seat};
use db_core::{Core, Pin};
use netlist_schema::NoMemory;
use script_spec::{ScriptLine, Step};
use std::alloc::Global;

/// The call of a line where nothing is held.
fn free_call(
    alloc: Global,
    core: &mut Core,
    caller: u32,
    step: &Step,
    said: &mut Vec<u8>,
) -> Result<Option<At>, NoMemory>
    ensures { (r : Bool) → IfOk result (Comes core.old core.new caller r (Between Nothing) step.now said.old.items said.new.items) }
{
    match step {
        Step::Begin { retries } => begin_line(alloc, core, caller, *retries, said),
        Step::Pin => pin_line(core, caller, said),
        Step::PinAt(version) => pin_at_line(core, caller, *version, said),
        Step::Collect => collect_line(core, caller, At::Free, said),
        _ => Ok(None),
    }
}

/// The call of a line with a pin.
fn pin_call(
    core: &mut Core,
    caller: u32,
    pin: Pin,
    step: &Step,
    release: bool,
    said: &mut Vec<u8>,
) -> Result<Option<At>, NoMemory>
    requires pin { IsPinBy core.old caller pin }
    requires loud { IsLoud (Between (OnPin pin.number pin.version)) step.now }
    ensures { IfOk result (Comes core.old core.new caller release (Between (OnPin pin.number pin.version)) step.now said.old.items said.new.items) }
{
    match step {
        Step::Release => Ok(Some(release_line(core, pin, said)?)),
        Step::Collect => {
            if release {
                return Ok(Some(cut_off(core, pin, said)?));
            }
            collect_line(core, caller, At::OnPin(pin), said)
        }
        _ => Ok(None),
    }
}

/// The call of a line where the pin that was wanted was refused.
fn off_call(
    core: &mut Core,
    caller: u32,
    step: &Step,
    said: &mut Vec<u8>,
) -> Result<Option<At>, NoMemory>
    requires { IsLoud (Between OffPin) step.now }
    ensures { (r : Bool) → IfOk result (Comes core.old core.new caller r (Between OffPin) step.now said.old.items said.new.items) }
{
    match step {
        Step::Collect => collect_line(core, caller, At::OffPin, said),
        _ => Ok(None),
    }
}

/// The call of a line in a transaction.
fn block_call(
    alloc: Global,
    core: &mut Core,
    asked: Asked,
    block: Block,
    step: &Step,
    said: &mut Vec<u8>,
) -> Result<Option<At>, NoMemory>
    requires pin { IsPinBy core.old asked.caller block.tx.pin }
    requires loud { IsLoud (phase_of (At.InBlock block)) step.now }
    ensures { IfOk result (Comes core.old core.new asked.caller asked.release (phase_of (At.InBlock block)) step.now said.old.items said.new.items) }
{
    match step {
        Step::Abandon => Ok(Some(abandon_line(core, block, said)?)),
        Step::Commit => {
            if asked.release {
                return Ok(Some(cut_off(core, block.tx.abandon(), said)?));
            }
            commit_line(alloc, core, block, said)
        }
        _ => Ok(None),
    }
}

/// The call of a line that makes one.
fn step_call(
    alloc: Global,
    core: &mut Core,
    asked: Asked,
    at: At,
    step: &Step,
    said: &mut Vec<u8>,
) -> Result<Option<At>, NoMemory>
    requires at { IsAt core.old asked.caller at }
    requires between { IsBetween at }
    requires loud { IsLoud (phase_of at) step.now }
    ensures { IfOk result (Comes core.old core.new asked.caller asked.release (phase_of at) step.now said.old.items said.new.items) }
{
    match at {
        At::Free => free_call(alloc, core, asked.caller, step, said),
        At::OnPin(pin) => pin_call(core, asked.caller, pin, step, asked.release, said),
        At::OffPin => off_call(core, asked.caller, step, said),
        At::InBlock(block) => block_call(alloc, core, asked, block, step, said),
        _ => Ok(None),
    }
}

/// The release of the pin that is held at the end of the lines.
fn end_call(core: &mut Core, caller: u32, at: At) -> Option<At>
    requires at { IsAt core.old caller at }
    requires between { IsBetween at }
    ensures { (r : Bool) (text : List ℕ) → ComesThere core.old core.new caller r (phase_of at) [] text text result }
{
    match at {
        At::OnPin(pin) => {
            core.release(pin);
            Some(At::Free)
        }
        At::InBlock(block) => {
            core.release(block.tx.abandon());
            Some(At::Free)
        }
        _ => None,
    }
}

/// The call that is owed before the next line.
fn owed_call(
    alloc: Global,
    core: &mut Core,
    caller: u32,
    at: At,
    said: &mut Vec<u8>,
) -> Result<Option<At>, NoMemory>
    requires at { IsAt core.old caller at }
    requires owed { IsOwed at }
    ensures { (r : Bool) (lines : List SessionStep) → IfOk result (ComesThere core.old core.new caller r (phase_of at) lines said.old.items said.new.items) }
{
    match at {
        At::Owes(pin) => {
            core.release(pin);
            Ok(Some(At::Free))
        }
        At::OwesAgain(block) => {
            let Block { tx, retries } = block;
            let (pin, ops, _replies) = tx.into_parts();
            core.release(pin);
            Ok(Some(At::Again(ops, retries)))
        }
        At::Again(ops, retries) => {
            begin_again(alloc, core, caller, ops.as_slice(), retries, said)
        }
        _ => Ok(None),
    }
}

/// Whether the caller stands between two lines.
fn is_between(at: &At) -> bool
    ensures { MatchBool result (IsBetween at.now) (IsOwed at.now) }
{
    match at {
        At::Free => true,
        At::OnPin(_) => true,
        At::OffPin => true,
        At::InBlock(_) => true,
        At::Owes(_) => false,
        At::OwesAgain(_) => false,
        At::Again(_, _) => false,
        At::Over(_) => false,
    }
}

/// The place of the next line behind a call of this one: a transaction that is run again stays at its commit.
fn behind(at: &At, line: usize) -> usize
    requires { line < 2 ^ 63 }
    ensures left { (steps : List SessionStep) (step : SessionStep) → drop line steps ≡ step ∷ drop (line + 1) steps → drop result steps ≡ left_by at.now step (drop (line + 1) steps) }
    ensures within { (count : ℕ) → line < count → result ≤ count }
{
    match at {
        At::OwesAgain(_) => line,
        _ => line + 1,
    }
}

/// Makes the next call of the caller that is asked, and says what its lines say up to it. Nothing comes where there is no such call, or no
/// room for it, or where the caller says more than so many bytes before it.
pub fn take_turn(
    alloc: Global,
    core: &mut Core,
    asked: Asked,
    lines: &[ScriptLine],
    seat: Seat,
    most: usize,
) -> Result<Option<Seat>, NoMemory>
    requires at { IsAt core.old asked.caller seat.at }
    requires line { seat.line ≤ length lines.now }
    requires top { HasWalk (steps_of lines.now) → HasPinnedTop seat.at }
    ensures { IfOk result (λ next. MatchOption next (IsHalted core.old asked.release (phase_of seat.at) (drop seat.line (steps_of lines.now)) seat.said.items most) (Turned core.old core.new asked.caller asked.release (steps_of lines.now) seat)) }
{
    core.history_is_legal();
    let Seat { at, line, mut said } = seat;
    let Some((at, line)) = pass_quiet(alloc, at, lines, line, most, &mut said)? else {
        return Ok(None);
    };
    if !is_between(&at) {
        let Some(at) = owed_call(alloc, core, asked.caller, at, &mut said)? else {
            return Ok(None);
        };
        return Ok(Some(Seat { at, line, said }));
    }
    if line == lines.len() {
        let Some(at) = end_call(core, asked.caller, at) else {
            return Ok(None);
        };
        return Ok(Some(Seat { at, line, said }));
    }
    let step = &lines[line].step;
    let Some(at) = step_call(alloc, core, asked, at, step, &mut said)? else {
        return Ok(None);
    };
    let line = behind(&at, line);
    Ok(Some(Seat { at, line, said }))
}
