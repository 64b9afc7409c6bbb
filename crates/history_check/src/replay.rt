//! The events of a report, made again on a database.
ghost use Rattle.std.specs.Prelude.{◌≡◌, ◌++◌, ◌∷◌, ◌<◌, ◌≤◌, ◌-◌, [], List, ℕ, IfOk, IfSome, MatchOption, OnSome, length, set, slice_index_or, vec_len};
ghost use Rattle.std.specs.List.{All};
ghost use Rattle.db_spec.specs.declared.event.Event.{Event};
ghost use Rattle.script_spec.specs.Headline.{CanWalk};
ghost use Rattle.script_spec.specs.Report.{head_design};
ghost use Rattle.script_spec.specs.Texts.{event_text as text_of_event};
ghost use Rattle.script_run_spec.specs.Scripts.{all_steps};
ghost use Rattle.history_check.specs.Follow.{AllStand, CallComes, IsBehind, IsRestOf, said_by};
ghost use Rattle.history_turns.specs.Seats.{IsOpen};
ghost use Rattle.history_check_spec.specs.Printed.{PrintsNone, PrintsOnly};
ghost use Rattle.script_spec.specs.declared.limits.TheConstants.{MOST_SCRIPTS};

use db_core::Core;
use history_turns::{Asked, At, Seat, take_turn};
use netlist_schema::NoMemory;
use report_parts::{Next, after, next_caller};
use script_lang::event_text;
use script_spec::Script;
use std::alloc::Global;
use std::mem;

/// A caller before its first line.
fn first_seat(alloc: Global) -> Seat
    ensures { IsOpen result }
{
    Seat {
        at: At::Free,
        line: 0,
        said: Vec::new(alloc),
    }
}

/// So many callers before their first lines.
pub fn open_seats(alloc: Global, count: usize) -> Result<Vec<Seat>, NoMemory>
    ensures count { IfOk result (λ seats. vec_len seats ≡ count) }
    ensures open { IfOk result (λ seats. All IsOpen seats.items) }
{
    let mut seats = Vec::new(alloc);
    for _made in 0..count {
        seats.push(first_seat(alloc))?;
    }
    Ok(seats)
}

/// Puts a seat in a place, and hands out the one that was there.
fn swap_seat(seats: &mut Vec<Seat>, place: usize, seat: Seat) -> Seat
    requires { place < vec_len seats.old }
    ensures left { result ≡ slice_index_or seats.old.items place seat }
    ensures put { seats.new.items ≡ set seats.old.items place seat }
{
    mem::replace(&mut seats[place], seat)
}

/// How many bytes callers leave of so many.
fn spare(seats: &[Seat], most: usize) -> usize
    ensures { result ≡ most - said_by seats.now }
{
    let mut left = most;
    for place in 0..seats.len() {
        left = left.saturating_sub(seats[place].said.len());
    }
    left
}

/// Makes the next call of a caller: whether there was one, and room for it, and all callers together say at most so many bytes before it.
fn call(
    alloc: Global,
    core: &mut Core,
    seats: &mut Vec<Seat>,
    scripts: &[Script],
    next: Next,
    most: usize,
) -> Result<bool, NoMemory>
    requires stands { AllStand core.old (all_steps scripts.now) seats.old.items }
    requires known { next.caller < length scripts.now }
    requires top { CanWalk core.old.opening (all_steps scripts.now) }
    ensures { IfOk result (CallComes core.old core.new (all_steps scripts.now) next most seats.old.items seats.new.items) }
{
    core.history_is_legal();
    let place = next.caller as usize;
    let seat = swap_seat(seats, place, first_seat(alloc));
    let lines = scripts[place].lines();
    let left = spare(seats.as_slice(), most);
    let Next { caller, release } = next;
    match take_turn(alloc, core, Asked { caller, release }, lines, seat, left)? {
        Some(turned) => {
            swap_seat(seats, place, turned);
            Ok(true)
        }
        None => Ok(false),
    }
}

/// What stands behind the last event of a database, where a text begins with it.
fn behind_event<'a>(
    alloc: Global,
    core: &Core,
    text: &'a [u8],
) -> Result<Option<&'a [u8]>, NoMemory>
    ensures { IfOk result (λ rest. (before : List Event) (event : Event) → core.now.events ≡ before ++ event ∷ []
        → MatchOption rest ((more : List ℕ) → ¬ (text.now ≡ text_of_event (head_design core.now.opening core.now.events) (length before) event ++ more))
        (λ more. text.now ≡ text_of_event (head_design core.now.opening core.now.events) (length before) event ++ more.now)) }
{
    let log = core.log();
    let Some(last) = log.last() else {
        return Ok(None);
    };
    let mut printed = Vec::new(alloc);
    event_text(
        alloc,
        core.head(),
        (log.len() - 1) as u64,
        last,
        &mut printed,
    )?;
    Ok(after(text, printed.as_slice()))
}

/// Makes the events again with which the rest of a report of at most so many bytes begins, and gives what stands behind them. Nothing comes
/// where one of them is not the next one of its caller, or is printed otherwise, or the callers say more bytes than that together.
pub fn replay<'a>(
    alloc: Global,
    core: &mut Core,
    seats: &mut Vec<Seat>,
    scripts: &[Script],
    text: &'a [u8],
    most: usize,
) -> Result<Option<&'a [u8]>, NoMemory>
    requires few { length scripts.now ≤ MOST_SCRIPTS }
    requires stands { AllStand core.old (all_steps scripts.now) seats.old.items }
    requires top { CanWalk core.old.opening (all_steps scripts.now) }
    ensures opening { IfOk result (λ rest. OnSome rest (core.new.opening ≡ core.old.opening)) }
    ensures stands { IfOk result (λ rest. OnSome rest (AllStand core.new (all_steps scripts.now) seats.new.items)) }
    ensures only { IfOk result (λ rest. (report : List ℕ) → length report ≤ most → IsRestOf core.old (all_steps scripts.now) report text.now
        → MatchOption rest (PrintsNone core.old.opening (all_steps scripts.now) report) (λ _. PrintsOnly core.old.opening (all_steps scripts.now) report core.new.events)) }
    ensures behind { IfOk result (λ rest. IfSome rest (λ rest. (report : List ℕ) → IsBehind core.old report text.now → IsBehind core.new report rest.now)) }
{
    let mut rest = text;
    'events: loop {
        let number = core.log().len() as u64;
        let Some(next) = next_caller(rest, number, scripts.len() as u32) else {
            return Ok(Some(rest));
        };
        if !call(alloc, core, seats, scripts, next, most)? {
            return Ok(None);
        }
        match behind_event(alloc, core, rest)? {
            Some(more) => rest = more,
            None => return Ok(None),
        }
    }
}
