//! Lines that make no call.
ghost use Rattle.std.specs.Prelude.{◌≤◌, ℕ, IfOk, MatchOption, length};
ghost use Rattle.script_spec.specs.Headline.{HasWalk, IsWalk};
ghost use Rattle.script_spec.specs.ScriptText.{steps_of};
ghost use Rattle.history_turns.specs.Moves.{HasPassed, PassesTooMuch, QuietBy};
ghost use Rattle.history_turns.specs.Seats.{HasPinnedTop};

use crate::blocks::try_op;
use crate::seats::{At, Block};
use crate::within::show;
use db_core::Pin;
use netlist_schema::NoMemory;
use script_say::say_no_pin;
use script_spec::{ScriptLine, Step};
use std::alloc::Global;

/// What a line came to that may make no call.
#[derive(Drop)]
pub enum Quiet {
    /// It made none, and this is held then.
    Passed(At),
    /// It makes one, and nothing was done.
    Calls(At),
    /// It makes none, and the caller says more than it may by it.
    TooMuch,
}

/// A line with a pin.
fn pin_line(
    alloc: Global,
    pin: Pin,
    step: &Step,
    most: usize,
    said: &mut Vec<u8>,
) -> Result<Quiet, NoMemory>
    requires { IsWalk step.now → HasPinnedTop (At.OnPin pin) }
    ensures { IfOk result (QuietBy (At.OnPin pin) step.now said.old.items most said.new.items) }
{
    match step {
        Step::Walk { limit } => {
            if !show(alloc, &pin, *limit, most, said)? {
                return Ok(Quiet::TooMuch);
            }
            Ok(Quiet::Passed(At::OnPin(pin)))
        }
        _ => Ok(Quiet::Calls(At::OnPin(pin))),
    }
}

/// A line where the pin that was wanted was refused.
fn off_line(step: &Step, said: &mut Vec<u8>) -> Result<Quiet, NoMemory>
    ensures { (most : ℕ) → IfOk result (QuietBy At.OffPin step.now said.old.items most said.new.items) }
{
    match step {
        Step::Walk { .. } => {
            say_no_pin(said)?;
            Ok(Quiet::Passed(At::OffPin))
        }
        Step::Release => {
            say_no_pin(said)?;
            Ok(Quiet::Passed(At::Free))
        }
        _ => Ok(Quiet::Calls(At::OffPin)),
    }
}

/// A line in a transaction.
fn block_line(
    alloc: Global,
    mut block: Block,
    step: &Step,
    said: &mut Vec<u8>,
) -> Result<Quiet, NoMemory>
    ensures { (most : ℕ) → IfOk result (QuietBy (At.InBlock block) step.now said.old.items most said.new.items) }
{
    match step {
        Step::Run(op) => {
            try_op(alloc, &mut block.tx, op, said)?;
            Ok(Quiet::Passed(At::InBlock(block)))
        }
        _ => Ok(Quiet::Calls(At::InBlock(block))),
    }
}

/// Runs a line that makes no call.
fn quiet_line(
    alloc: Global,
    at: At,
    step: &Step,
    most: usize,
    said: &mut Vec<u8>,
) -> Result<Quiet, NoMemory>
    requires { IsWalk step.now → HasPinnedTop at }
    ensures { IfOk result (QuietBy at step.now said.old.items most said.new.items) }
{
    match at {
        At::OnPin(pin) => pin_line(alloc, pin, step, most, said),
        At::OffPin => off_line(step, said),
        At::InBlock(block) => block_line(alloc, block, step, said),
        at => Ok(Quiet::Calls(at)),
    }
}

/// Runs the lines from this one on that make no call: where the caller stands then, and the place of the next line. Nothing comes where
/// the caller says more than so many bytes.
pub fn pass_quiet(
    alloc: Global,
    at: At,
    lines: &[ScriptLine],
    first: usize,
    most: usize,
    said: &mut Vec<u8>,
) -> Result<Option<(At, usize)>, NoMemory>
    requires first { first ≤ length lines.now }
    requires top { HasWalk (steps_of lines.now) → HasPinnedTop at }
    ensures { IfOk result (λ stop. MatchOption stop (PassesTooMuch at (steps_of lines.now) first said.old.items most) (λ stop. HasPassed at (steps_of lines.now) first said.old.items said.new.items stop.0 stop.1)) }
{
    let mut now = at;
    for line in first..lines.len() {
        if said.len() > most {
            return Ok(None);
        }
        match quiet_line(alloc, now, &lines[line].step, most, said)? {
            Quiet::Passed(next) => now = next,
            Quiet::Calls(same) => return Ok(Some((same, line))),
            Quiet::TooMuch => return Ok(None),
        }
    }
    Ok(Some((now, lines.len())))
}
