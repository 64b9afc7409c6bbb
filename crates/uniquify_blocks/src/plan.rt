//! What is planned for the cells, and how it is put in place.
ghost use Rattle.std.specs.Prelude.{◌≡◌, IfOk, IfSome, MatchResult, is_some, false};
ghost use Rattle.std.specs.List.{count_by};
ghost use Rattle.netlist_schema.specs.Valid.{IsValid};
ghost use Rattle.edit_cells.specs.State.{HasReadSome};
ghost use Rattle.uniquify_copies.specs.Changes.{AreSeats};
ghost use Rattle.uniquify_copies.specs.Drafts.{has_no_room};
ghost use Rattle.uniquify_copies.specs.Seats.{copies_of, seats, split_of};
ghost use Rattle.eco_reads.specs.Plan.{IsGood};
ghost use Rattle.uniquify_blocks.specs.Plans.{IsPlan, IsPut};

use edit_cells::{Cells, Change};
use edit_spec::Reply;
use netlist_schema::{CellId, MOST_CELLS, NoMemory};
use std::alloc::Global;
use uniquify_copies::{Spot, split_change};

/// A change, and the number of cells that it copies.
#[derive(Drop)]
pub struct SplitPlan {
    pub change: Change,
    pub copies: u32,
}

/// The number of spots that get copies.
fn count_copies(spots: &[Spot]) -> usize
    ensures { result ≡ count_by (λ spot. is_some spot.twin) spots.now }
{
    let mut count = 0usize;
    for spot in spots {
        if spot.twin.is_some() {
            count += 1;
        }
    }
    count
}

/// The plan for a list of spots.
pub fn plan_of<C: Cells>(
    alloc: Global,
    cells: &mut C,
    top: CellId,
    spots: &[Spot],
) -> Result<SplitPlan, NoMemory>
    requires valid { IsValid (C.state cells.old).design }
    requires seats { AreSeats (C.state cells.old).design top spots.now }
    requires room { has_no_room (copies_of (seats top spots.now)) ≡ false }
    ensures plan { IfOk result (IsPlan (C.state cells.old).design (split_of (seats top spots.now))) }
    ensures some { HasReadSome (C.state cells.old) (C.state cells.new) }
{
    let change = split_change(alloc, cells, top, spots)?;
    let copies = count_copies(spots);
    Ok(SplitPlan {
        change,
        copies: copies as u32,
    })
}

/// Puts a plan in place, or replies that a library has no room.
pub fn put_plan<C: Cells>(cells: &mut C, planned: Option<SplitPlan>) -> Result<Reply, NoMemory>
    requires { IfSome planned (λ plan. IsGood (C.state cells.old).design plan.change) }
    ensures { MatchResult result (IsPut (C.state cells.old) (C.state cells.new) planned) (λ _. C.state cells.new ≡ C.state cells.old) }
{
    match planned {
        Some(plan) => {
            cells.write(plan.change)?;
            Ok(Reply::Copies(plan.copies))
        }
        None => Ok(Reply::TooMany {
            limit: MOST_CELLS as u64,
        }),
    }
}
