//! One value behind a turn, and seats that take turns in threads of their own.
ghost use Rattle.std.specs.Prelude.{◌≡◌, ◌≤◌, ◌<◌, ℕ, All, IfOk, vec_len, slice_index_or};
ghost use Rattle.turn_cell.specs.Seats.{IsAtRest, IsSameSeat};

use netlist_schema::NoMemory;
use std::alloc::Global;
use std::sync::Wait;
use std::test::*;
use std::thread;
use std::thread::Threads;
use turn_cell::{Logged, Turn, TurnSeat};

/// Which seat wrote it, and in which of its turns.
#[derive(Clone, Copy)]
struct Line {
    by: u32,
    round: u32,
}

/// The lines that seats wrote.
#[derive(Drop)]
struct Diary {
    lines: Vec<Line>,
}

impl Logged for Diary {
    type Base = ();

    type Entry = Line;

    ghost base = { λ _. tt };

    ghost entries = { λ d. d.lines.items };

    ghost made_by = { λ l. l.by };
}

/// In every fourth round nothing is written.
fn is_written(round: u32) -> bool {
    round % 4 != 3
}

fn take_turn(rt: &impl Wait, turn: &Turn<Diary>, seat: &mut TurnSeat<Diary>, round: u32)
    requires own { seat.old.turn ≡ turn.now.id }
    requires rest { IsAtRest seat.old }
    ensures { IsAtRest seat.new × IsSameSeat seat.old seat.new }
{
    let by = seat.number();
    let mut diary = turn.enter(rt, seat);
    let added = is_written(round) && diary.lines.push(Line { by, round }).is_ok();
    turn.leave(seat, diary, added);
}

fn take_turns(
    rt: &impl Wait,
    turn: &Turn<Diary>,
    mut seat: TurnSeat<Diary>,
    rounds: u32,
) -> TurnSeat<Diary>
    requires own { seat.turn ≡ turn.now.id }
    requires rest { IsAtRest seat }
    ensures { IsAtRest result × IsSameSeat seat result }
{
    for round in 0..rounds {
        take_turn(rt, turn, &mut seat, round);
    }
    seat
}

/// Each seat in a thread of its own.
fn run_all<R: Threads + Wait + Sync>(
    rt: &R,
    turn: &Turn<Diary>,
    seats: Vec<TurnSeat<Diary>>,
    rounds: u32,
) -> Result<Vec<TurnSeat<Diary>>, NoMemory>
    requires { All (λ s. (s.turn ≡ turn.now.id) × IsAtRest s) seats.items }
    ensures len { IfOk result (λ v. vec_len v ≡ vec_len seats) }
    ensures each { IfOk result (λ v. (k : ℕ) (d : _) → k < vec_len seats → IsAtRest (slice_index_or v.items k d) × IsSameSeat (slice_index_or seats.items k d) (slice_index_or v.items k d)) }
{
    Ok(thread::map_vec(
        rt,
        seats,
        &|seat: TurnSeat<Diary>| -> TurnSeat<Diary>
            requires { (seat.turn ≡ turn.now.id) × IsAtRest seat }
            ensures { IsAtRest result × IsSameSeat seat result }
        { take_turns(rt, turn, seat, rounds) },
    )?)
}

fn diary_of<R: Threads + Wait + Sync>(
    rt: &R,
    alloc: Global,
    threads: u32,
    rounds: u32,
) -> Result<Diary, NoMemory>
    requires { (1 ≤ threads) × (threads ≤ 64) }
{
    let empty = Diary {
        lines: Vec::new(alloc),
    };
    let (turn, seats) = Turn::new(alloc, empty, threads)?;
    let seats = run_all(rt, &turn, seats, rounds)?;
    Ok(turn.close(seats))
}

/// Whether a seat wrote in each of its rounds once, in their order.
fn has_each_round(lines: &[Line], by: u32, rounds: u32) -> bool {
    let mut next = 0;
    for line in lines {
        if line.by == by {
            if line.round != next || next >= rounds {
                return false;
            }
            next += 1;
            if !is_written(next) {
                next = next.saturating_add(1);
            }
        }
    }
    next >= rounds
}

/// Each seat wrote in each of its rounds once, in their order, and nobody else wrote.
fn is_whole(lines: &[Line], threads: u32, rounds: u32) -> bool {
    for line in lines {
        if line.by >= threads {
            return false;
        }
    }
    for by in 0..threads {
        if !has_each_round(lines, by, rounds) {
            return false;
        }
    }
    true
}

/// Whether so many threads keep a whole diary.
fn keep_whole<R: Threads + Wait + Sync>(rt: &R, alloc: Global, threads: u32, rounds: u32) -> bool
    requires { (1 ≤ threads) × (threads ≤ 64) }
{
    match diary_of(rt, alloc, threads, rounds) {
        Ok(diary) => is_whole(diary.lines.as_slice(), threads, rounds),
        Err(_) => false,
    }
}

#[test]
fn each_entry_of_2_8_and_64_threads_stands_once(rt: HostRuntime) {
    let alloc = rt.alloc();
    assert!(rt; keep_whole(&rt, alloc, 2, 400), "2 threads");
    assert!(rt; keep_whole(&rt, alloc, 8, 300), "8 threads");
    assert!(rt; keep_whole(&rt, alloc, 64, 200), "64 threads");
}
