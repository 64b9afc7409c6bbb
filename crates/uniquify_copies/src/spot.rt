//! `Spot`: an occurrence of a block, in a list in which each names the one that holds it.
ghost use Rattle.std.specs.Prelude.{◌≡◌, ◌≤◌, length, slice_get, option_map, Some};
ghost use Rattle.netlist_schema.specs.Types.{CellId};
ghost use Rattle.uniquify_copies.specs.Seats.{seats, twin_of};

use crate::namer::Twin;
use netlist_schema::CellId;

/// An instance: its place in the contents that hold it, and its cell.
#[derive(Clone, Copy)]
pub struct Step {
    pub place: u32,
    pub of: CellId,
}

/// An occurrence of a block below a top.
#[derive(Drop)]
pub struct Spot {
    /// The occurrence that holds it: 0 is the top's, and k that of the k-th spot of the list, which comes before this one.
    pub above: usize,
    /// The place of its instance there.
    pub place: u32,
    /// Its cell.
    pub cell: CellId,
    /// The copy that it gets; none where it keeps its cell.
    pub twin: Option<Twin>,
}

/// The cell of the occurrence with this number.
#[tactic(auto, using(crate::proofs::SeatLists::cell_first, crate::proofs::SeatLists::cell_later))]
pub(crate) fn cell_of(top: CellId, spots: &[Spot], number: usize) -> CellId
    requires { number ≤ length spots.now }
    ensures { option_map (λ seat. seat.cell) (slice_get (seats top spots.now) number) ≡ Some result }
{
    if number == 0 {
        return top;
    }
    spots[number - 1].cell
}

/// The place of the copy that the occurrence with this number gets.
#[tactic(auto, using(crate::proofs::SeatLists::twin_first, crate::proofs::SeatLists::twin_later))]
pub(crate) fn twin_of(spots: &[Spot], number: usize) -> Option<CellId>
    requires { number ≤ length spots.now }
    ensures { (top : CellId) → option_map twin_of (slice_get (seats top spots.now) number) ≡ Some result }
{
    if number == 0 {
        return None;
    }
    match &spots[number - 1].twin {
        Some(twin) => Some(twin.id),
        None => None,
    }
}
