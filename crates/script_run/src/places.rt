//! What a line does, by what is held.
ghost use Rattle.std.specs.Prelude.{◌≡◌, ◌<◌, None, length};
ghost use Rattle.script_spec.specs.Headline.{IsWalk};
ghost use Rattle.script_spec.specs.ScriptText.{Block as InsideBlock, Free, Holding};
ghost use Rattle.script_spec.specs.Session.{Nothing, OffPin, OnPin};
ghost use Rattle.script_run_spec.specs.Lines.{place_of};
ghost use Rattle.db_share.specs.Calls.{GoesOn};
ghost use Rattle.script_held.specs.Holding.{block_of, held_of};
ghost use Rattle.script_run.specs.Coming.{Comes, MayStand, step_at};
ghost use Rattle.script_run.specs.Holding.{Stands};

use crate::along::Along;
use crate::blocks::{commit_block, try_op};
use crate::lines::{
    abandon_line, collect_line, pin_at_line, pin_line, release_line, show, start_block,
};
use db_share::{Db, Pass, Pin};
use netdb_outside::Gate;
use script_held::{Block, Held, Stop, held_after};
use script_lang::Step;
use script_say::say_no_pin;
use std::alloc::Global;
use std::sync::Wait;

/// A line where nothing is held, at this place among the lines of the script.
fn free_line<G: Gate>(
    rt: &impl Wait,
    along: &Along<'_, G>,
    pass: &mut Pass,
    step: &Step,
    at: usize,
    out: &mut Vec<u8>,
) -> Result<Held, Stop>
    requires stands { Stands along.now.db.now pass.old Held.Nothing }
    requires placed { MayStand Free step.now }
    ensures on { GoesOn along.now.db.now pass.old pass.new }
    ensures comes { Comes along.now.db.now pass.old pass.new out.old.items out.new.items Nothing step.now result }
{
    match step {
        Step::Begin { retries } => match start_block(rt, along, pass, *retries, at, out) {
            Ok(block) => Ok(Held::InBlock(block)),
            Err(stop) => Err(stop),
        },
        Step::Pin => pin_line(rt, along.alloc, along.db, pass, out),
        Step::PinAt(version) => pin_at_line(rt, along.alloc, along.db, pass, *version, out),
        Step::Collect => collect_line(rt, along.alloc, along.db, pass, Held::Nothing, out),
        _ => unreachable!(),
    }
}

/// A line in a transaction.
fn block_line<G: Gate>(
    rt: &impl Wait,
    along: &Along<'_, G>,
    pass: &mut Pass,
    mut block: Block,
    step: &Step,
    out: &mut Vec<u8>,
) -> Result<Held, Stop>
    requires stands { Stands along.now.db.now pass.old (Held.InBlock block) }
    requires placed { MayStand InsideBlock step.now }
    ensures on { GoesOn along.now.db.now pass.old pass.new }
    ensures comes { Comes along.now.db.now pass.old pass.new out.old.items out.new.items (block_of block) step.now result }
{
    match step {
        Step::Run(op) => {
            let said = try_op(along.alloc, &mut block.tx, op, out);
            held_after(said, Held::InBlock(block))
        }
        Step::Commit => commit_block(rt, along, pass, block, out),
        Step::Abandon => abandon_line(rt, along.db, pass, block, out),
        _ => unreachable!(),
    }
}

/// A line where a pin is held.
fn pinned_line<G: Gate>(
    rt: &impl Wait,
    along: &Along<'_, G>,
    pass: &mut Pass,
    pin: Pin,
    step: &Step,
    out: &mut Vec<u8>,
) -> Result<Held, Stop>
    requires stands { Stands along.now.db.now pass.old (Held.OnPin pin) }
    requires placed { MayStand Holding step.now }
    requires top { IsWalk step.now → ¬ (along.now.db.now.base.top ≡ None) }
    ensures on { GoesOn along.now.db.now pass.old pass.new }
    ensures comes { Comes along.now.db.now pass.old pass.new out.old.items out.new.items (OnPin pin.number pin.version) step.now result }
{
    match step {
        Step::Walk { limit } => {
            let said = show(along.alloc, &pin, *limit, out);
            held_after(said, Held::OnPin(pin))
        }
        Step::Release => release_line(rt, along.db, pass, pin, out),
        Step::Collect => collect_line(rt, along.alloc, along.db, pass, Held::OnPin(pin), out),
        _ => unreachable!(),
    }
}

/// A line where the wanted pin was refused.
fn off_line(
    rt: &impl Wait,
    alloc: Global,
    db: &Db,
    pass: &mut Pass,
    step: &Step,
    out: &mut Vec<u8>,
) -> Result<Held, Stop>
    requires stands { Stands db.now pass.old Held.OffPin }
    requires placed { MayStand Holding step.now }
    ensures on { GoesOn db.now pass.old pass.new }
    ensures comes { Comes db.now pass.old pass.new out.old.items out.new.items OffPin step.now result }
{
    match step {
        Step::Walk { .. } => held_after(say_no_pin(out), Held::OffPin),
        Step::Release => held_after(say_no_pin(out), Held::Nothing),
        Step::Collect => collect_line(rt, alloc, db, pass, Held::OffPin, out),
        _ => unreachable!(),
    }
}

/// The line at this place of the script.
pub(crate) fn run_line<G: Gate>(
    rt: &impl Wait,
    along: &Along<'_, G>,
    pass: &mut Pass,
    held: Held,
    at: usize,
    out: &mut Vec<u8>,
) -> Result<Held, Stop>
    requires stands { Stands along.now.db.now pass.old held }
    requires at { at < length along.now.lines.now }
    requires placed { MayStand (place_of (held_of held)) (step_at along.now.lines.now at) }
    requires top { IsWalk (step_at along.now.lines.now at) → ¬ (along.now.db.now.base.top ≡ None) }
    ensures on { GoesOn along.now.db.now pass.old pass.new }
    ensures comes { Comes along.now.db.now pass.old pass.new out.old.items out.new.items (held_of held) (step_at along.now.lines.now at) result }
{
    let step = &along.lines[at].step;
    match held {
        Held::Nothing => free_line(rt, along, pass, step, at, out),
        Held::OnPin(pin) => pinned_line(rt, along, pass, pin, step, out),
        Held::OffPin => off_line(rt, along.alloc, along.db, pass, step, out),
        Held::InBlock(block) => block_line(rt, along, pass, block, step, out),
    }
}
