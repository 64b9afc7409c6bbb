//! The seats of a desk.
ghost use Rattle.std.specs.Prelude.{◌≡◌, IfOk, replicate, set, slice_get};
ghost use Rattle.std.specs.Option.{option_copied};
ghost use Rattle.netdb_desk.specs.declared.held.Held.TheVariants.{Nothing};
ghost use Rattle.netdb_desk.specs.declared.limits.TheConstants.{SEATS};

use crate::held::Held;
use crate::limits::SEATS;
use netlist_schema::NoMemory;
use std::alloc::Global;
use std::mem;

/// Seats that hold nothing.
#[tactic(auto, using(std::proofs::lemmas::List::replicate_more))]
pub(crate) fn empty_seats(alloc: Global) -> Result<Vec<Held>, NoMemory>
    ensures { IfOk result (λ seats. seats.items ≡ replicate SEATS Nothing) }
{
    let mut seats = Vec::new(alloc);
    for _seat in 0..SEATS {
        seats.push(Held::Nothing)?;
    }
    Ok(seats)
}

/// Puts what a seat is to hold in its place, and hands out what it held. Where the seat is none, nothing is put and nothing comes.
#[tactic(auto, using(std::proofs::lemmas::List::set_past, crate::proofs::Rows::get_past))]
pub(crate) fn swap(seats: &mut Vec<Held>, seat: u32, held: Held) -> Option<Held>
    ensures was { result ≡ slice_get seats.old.items seat }
    ensures put { seats.new.items ≡ set seats.old.items seat held }
{
    let place = seat as usize;
    if place < seats.len() {
        Some(mem::replace(&mut seats[place], held))
    } else {
        None
    }
}

/// Lends what a seat holds, where it is one.
pub(crate) fn look(seats: &[Held], seat: u32) -> Option<&Held>
    ensures { option_copied result ≡ slice_get seats.now seat }
{
    seats.get(seat as usize)
}
