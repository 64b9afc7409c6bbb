//! Workers, and lines that wait to be put.
ghost use Rattle.std.specs.Prelude.{◌≡◌, ◌<◌, ◌≤◌, ◌*◌, ◌^◌, ℕ, List, IfOk, OnOk, get_or, length, take};
ghost use Rattle.netlist_schema.specs.Design.{Design};
ghost use Rattle.flat_spec.specs.Types.{Item};
ghost use Rattle.flat_lines_spec.specs.Lines.{item_lines};
ghost use Rattle.par_flat.specs.Desks.{AreDesks, AreMade, AreParts, IsCrew, text_of, waiting_text};
ghost use Rattle.par_flat.specs.Lines.{IsRound};

use crate::desks::{Desk, Lines, Most, desks_of, no_lines};
use netlist_schema::NoMemory;
use std::alloc::Global;
use std::mem::swap;

/// Workers, and the lines that they made in the round before. Those of the first `ready` workers are to be put, while the next ones are
/// made.
#[derive(Drop)]
pub struct Crew {
    pub desks: Vec<Desk>,
    pub waiting: Vec<Lines>,
    pub ready: usize,
}

/// Of how many workers the lines are to be put, and how many items those are.
#[derive(Clone, Copy)]
struct Front {
    workers: usize,
    items: u64,
}

/// No lines, for so many workers.
fn blank_lines(alloc: Global, workers: u32) -> Result<Vec<Lines>, NoMemory>
    ensures { IfOk result (λ all. length all.items ≡ workers) }
{
    let mut all = Vec::new(alloc);
    for _ in 0..workers {
        all.push(no_lines(alloc))?;
    }
    Ok(all)
}

/// So many workers, who have not begun.
pub fn crew_of(alloc: Global, workers: u32) -> Result<Crew, NoMemory>
    ensures crew { (d : Design) → IfOk result (IsCrew d workers) }
    ensures none { IfOk result (λ crew. crew.ready ≡ 0) }
{
    let desks = desks_of(alloc, workers)?;
    let waiting = blank_lines(alloc, workers)?;
    Ok(Crew {
        desks,
        waiting,
        ready: 0,
    })
}

/// Exchanges the lines that a worker made for others.
fn exchange_one(desk: &mut Desk, lines: &mut Lines)
    ensures worker { desk.new.worker ≡ desk.old.worker }
    ensures seat { desk.new.seat ≡ desk.old.seat }
    ensures lines { lines.new ≡ desk.old.lines }
{
    swap(&mut desk.lines, lines);
}

/// Exchanges the lines that the workers made for others.
fn exchange(desks: &mut Vec<Desk>, waiting: &mut Vec<Lines>)
    requires len { length waiting.old.items ≡ length desks.old.items }
    ensures desks_len { length desks.new.items ≡ length desks.old.items }
    ensures waiting_len { length waiting.new.items ≡ length waiting.old.items }
    ensures desks { (d : Design) → AreDesks d desks.old.items → AreDesks d desks.new.items }
    ensures given { (w : ℕ) (lines : Lines) (desk : Desk) → w < length desks.old.items → get_or waiting.new.items w lines ≡ (get_or desks.old.items w desk).lines }
{
    for worker in 0..desks.len() {
        exchange_one(&mut desks[worker], &mut waiting[worker]);
    }
}

/// How many items a worker's lines are of.
fn made_of(lines: &Lines) -> Result<u64, NoMemory>
    ensures { result ≡ lines.now.made }
{
    lines.made
}

/// Of how many workers lines are to be put, in the order of their numbers up to the first that stopped early, and how many items those
/// are.
fn front_of(waiting: &[Lines], most: Most) -> Result<Front, NoMemory>
    requires few { (w : ℕ) (lines : Lines) → w < length waiting.now → IfOk (get_or waiting.now w lines).made (λ count. count ≤ most.items) }
    requires fits { length waiting.now * most.items < 2 ^ 64 }
    ensures within { IfOk result (λ front. front.workers ≤ length waiting.now) }
    ensures round { (d : Design) (items : List Item) → AreParts d items most waiting.now
        → IfOk result (λ front. IsRound d items most (length waiting.now) front.items) }
    ensures text { (d : Design) (items : List Item) → AreParts d items most waiting.now
        → IfOk result (λ front. text_of (take front.workers waiting.now) ≡ item_lines d (take front.items items)) }
{
    let mut workers = 0;
    let mut items = 0;
    for lines in waiting {
        let count = made_of(lines)?;
        workers += 1;
        items += count;
        if count < most.items {
            return Ok(Front { workers, items });
        }
    }
    Ok(Front { workers, items })
}

/// Has the lines wait that the workers made last, up to those of the first worker that stopped early: how many items those are. The lines
/// that waited before are no more.
pub fn take_lines(crew: &mut Crew, most: Most) -> Result<u64, NoMemory>
    requires len { length crew.old.waiting.items ≡ length crew.old.desks.items }
    requires few { (w : ℕ) (desk : Desk) → w < length crew.old.desks.items → IfOk (get_or crew.old.desks.items w desk).lines.made (λ count. count ≤ most.items) }
    requires fits { length crew.old.desks.items * most.items < 2 ^ 64 }
    ensures crew { (d : Design) → AreDesks d crew.old.desks.items → OnOk result (IsCrew d (length crew.old.desks.items) crew.new) }
    ensures round { (d : Design) (items : List Item) → AreMade d items most crew.old.desks.items
        → IfOk result (IsRound d items most (length crew.old.desks.items)) }
    ensures text { (d : Design) (items : List Item) → AreMade d items most crew.old.desks.items
        → IfOk result (λ made. waiting_text crew.new ≡ item_lines d (take made items)) }
{
    exchange(&mut crew.desks, &mut crew.waiting);
    let front = front_of(crew.waiting.as_slice(), most)?;
    crew.ready = front.workers;
    Ok(front.items)
}

/// The lines that wait.
pub fn ready_of(waiting: &[Lines], ready: usize) -> &[Lines]
    requires { ready ≤ length waiting.now }
    ensures { result.now ≡ take ready waiting.now }
{
    let (front, _) = waiting.split_at(ready);
    front
}
