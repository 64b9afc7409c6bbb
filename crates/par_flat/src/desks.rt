//! What a worker keeps from one round to the next.
ghost use Rattle.std.specs.Prelude.{◌≡◌, IfOk, drop, length};
ghost use Rattle.std.specs.Option.{ForSome};
ghost use Rattle.netlist_schema.specs.Design.{Design};
ghost use Rattle.flat_spec.specs.Flattening.{flattening};
ghost use Rattle.occ_walk.specs.Left.{left};
ghost use Rattle.flat_items.specs.Stand.{MayStand, stand_of};
ghost use Rattle.par_flat.specs.Desks.{AreDesks, IsSeat};

use flat_items::Place;
use netlist_schema::{NoMemory, Shown};
use par_parts::{CountedGround, skip_many, start_at};
use std::alloc::Global;

/// The most items that are made into lines, and how long the text is behind which no line is made any more.
#[derive(Clone, Copy)]
pub struct Most {
    pub items: u64,
    pub bytes: usize,
}

/// A place in the flattening, and how many items stand before it.
#[derive(Drop)]
pub struct Seat {
    pub before: u64,
    pub place: Place,
}

/// The lines that a worker made, and of how many items, where there was memory for them.
#[derive(Drop)]
pub struct Lines {
    pub made: Result<u64, NoMemory>,
    pub text: Vec<u8>,
}

/// A worker: its number, where it stands, and the lines that it made last. It stands nowhere before it begins, and where it had no memory.
#[derive(Drop)]
pub struct Desk {
    pub worker: u32,
    pub seat: Option<Seat>,
    pub lines: Lines,
}

/// No lines.
pub fn no_lines(alloc: Global) -> Lines {
    Lines {
        made: Ok(0),
        text: Vec::new(alloc),
    }
}

/// The desk of a worker who has not begun.
fn new_desk(alloc: Global, worker: u32) -> Desk
    ensures worker { result.worker ≡ worker }
    ensures seat { (d : Design) → ForSome result.seat (IsSeat d) }
{
    Desk {
        worker,
        seat: None,
        lines: no_lines(alloc),
    }
}

/// The desks of so many workers, who have not begun.
pub fn desks_of(alloc: Global, workers: u32) -> Result<Vec<Desk>, NoMemory>
    ensures len { IfOk result (λ desks. length desks.items ≡ workers) }
    ensures each { (d : Design) → IfOk result (λ desks. AreDesks d desks.items) }
{
    let mut desks = Vec::new(alloc);
    for worker in 0..workers {
        let desk = new_desk(alloc, worker);
        desks.push(desk)?;
    }
    Ok(desks)
}

/// The place behind so many items, by going on from there where that is no further on, else from the start.
fn go_on<S: Shown + Drop>(
    ground: &CountedGround<S>,
    seat: Seat,
    first: u64,
) -> Result<Place, NoMemory>
    requires seat { IsSeat ground.now seat }
    ensures stands { IfOk result (λ place. MayStand ground.now (stand_of place)) }
    ensures left { IfOk result (λ place. left ground.now (stand_of place) ≡ drop first (flattening ground.now)) }
{
    let Seat { before, place } = seat;
    if first < before {
        return start_at(ground, first);
    }
    let mut place = place;
    skip_many(ground, &mut place, first - before)?;
    Ok(place)
}

/// The place behind so many items, for a worker who stands there, or nowhere.
pub fn place_at<S: Shown + Drop>(
    ground: &CountedGround<S>,
    seat: Option<Seat>,
    first: u64,
) -> Result<Place, NoMemory>
    requires seat { ForSome seat (IsSeat ground.now) }
    ensures stands { IfOk result (λ place. MayStand ground.now (stand_of place)) }
    ensures left { IfOk result (λ place. left ground.now (stand_of place) ≡ drop first (flattening ground.now)) }
{
    match seat {
        Some(seat) => go_on(ground, seat, first),
        None => start_at(ground, first),
    }
}
