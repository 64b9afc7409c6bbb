//! Instances that are turned to copies.
ghost use Rattle.std.specs.Prelude.{◌≡◌, ◌≤◌, ◌<◌, ◌+◌, IfOk, OnOk, None, Option, Some, length, map, option_map, slice_get};
ghost use Rattle.std.specs.Option.{option_or};
ghost use Rattle.std.specs.List.{All};
ghost use Rattle.netlist_schema.specs.Types.{Contents};
ghost use Rattle.edit_rules_spec.specs.Edit.{changed_at};
ghost use Rattle.edit_rules_spec.specs.Seen.{contents_at};
ghost use Rattle.edit_cells.specs.State.{HasReadSome};
ghost use Rattle.uniquify_copies.specs.Changes.{AreSeats, IsTurnedFor, turned_at, turned_in, turned_to};
ghost use Rattle.uniquify_copies.specs.Seats.{copies_of, seats};

use crate::look::contents_of;
use crate::spot::{Spot, cell_of};
use edit_cells::Cells;
use netlist_schema::{CellId, Contents, Copied, Inst, Listed, NoMemory, Parts, Row};
use std::alloc::Global;

/// Turns the instance at a place to a cell, where there is one.
#[tactic(auto, using(edit_cells::proofs::Patches::changed_at_end, edit_cells::proofs::Patches::changed_at_place))]
fn turn_inst(
    alloc: Global,
    insts: &mut Parts<Listed<Inst>>,
    place: usize,
    id: CellId,
) -> Result<(), NoMemory>
    ensures { OnOk result (insts.new ≡ changed_at (λ inst. record inst { of = id }) place insts.old) }
{
    if place >= insts.len() {
        return Ok(());
    }
    let turned = inst_of(alloc, insts.at(place), id)?;
    insts.put(alloc, place, turned)?;
    Ok(())
}

/// The instance, of another cell.
fn inst_of(alloc: Global, inst: &Listed<Inst>, id: CellId) -> Result<Listed<Inst>, NoMemory>
    ensures { IfOk result (λ made. made ≡ record inst.now { of = id }) }
{
    let inst = inst.get();
    let made = Inst {
        name: inst.name.copy(alloc)?,
        of: id,
        designator: inst.designator.copy(alloc)?,
        properties: inst.properties.copy(alloc)?,
    };
    Listed::of(alloc, made)
}

/// The contents with the instance at a place turned to a cell.
fn turned_to(
    alloc: Global,
    contents: Contents,
    place: u32,
    id: CellId,
) -> Result<Contents, NoMemory>
    ensures { IfOk result (λ made. made ≡ turned_to place id contents) }
{
    let Contents { insts, nets } = contents;
    let mut insts = insts;
    turn_inst(alloc, &mut insts, place as usize, id)?;
    Ok(Contents { insts, nets })
}

/// No contents, so many times.
fn nothing_turned(alloc: Global, count: usize) -> Result<Row<Option<Contents>>, NoMemory>
    ensures length { IfOk result (λ made. length made ≡ count) }
    ensures nothing { IfOk result (λ made. All (λ contents. contents ≡ None) made) }
{
    let mut made = Vec::new(alloc);
    for _ in 0..count {
        made.push(None)?;
    }
    Ok(Row::of(made))
}

/// The same, where there are contents.
fn turned(
    alloc: Global,
    contents: Option<Contents>,
    place: u32,
    id: CellId,
) -> Result<Option<Contents>, NoMemory>
    ensures { IfOk result (λ made. made ≡ option_map (turned_to place id) contents) }
{
    match contents {
        Some(contents) => Ok(Some(turned_to(alloc, contents, place, id)?)),
        None => Ok(None),
    }
}

/// The contents that were made, or else those of a cell.
fn made_or_old<C: Cells>(
    alloc: Global,
    cells: &mut C,
    made: Option<Contents>,
    cell: CellId,
) -> Result<Option<Contents>, NoMemory>
    ensures value { IfOk result (λ contents. contents ≡ option_or made (contents_at (C.state cells.old).design cell)) }
    ensures some { HasReadSome (C.state cells.old) (C.state cells.new) }
{
    match made {
        Some(contents) => Ok(Some(contents)),
        None => contents_of(alloc, cells, cell),
    }
}

/// Turns the instance of a spot to a cell, in the own cell of the occurrence above: in the contents that were made for it, or else in
/// those of its cell.
fn turn<C: Cells>(
    alloc: Global,
    cells: &mut C,
    made: &mut Row<Option<Contents>>,
    cell: CellId,
    spot: &Spot,
    id: CellId,
) -> Result<(), NoMemory>
    requires { spot.now.above < length made.old }
    ensures turned { OnOk result ((was : Option Contents) → slice_get made.old spot.now.above ≡ Some was → made.new ≡ turned_in (C.state cells.old).design made.old spot.now.above cell spot.now.place id was) }
    ensures some { HasReadSome (C.state cells.old) (C.state cells.new) }
{
    let was = made.replace(spot.above, None);
    let contents = made_or_old(alloc, cells, was, cell)?;
    made.set(spot.above, turned(alloc, contents, spot.place, id)?);
    Ok(())
}

/// Turns the instance of a spot, where the spot gets a copy.
fn turn_for<C: Cells>(
    alloc: Global,
    cells: &mut C,
    top: CellId,
    spots: &[Spot],
    spot: &Spot,
    made: &mut Row<Option<Contents>>,
) -> Result<(), NoMemory>
    requires within { spot.now.above ≤ length spots.now }
    requires long { length made.old ≡ length spots.now + 1 }
    ensures turned { OnOk result (IsTurnedFor (C.state cells.old).design top spots.now spot.now made.old made.new) }
    ensures some { HasReadSome (C.state cells.old) (C.state cells.new) }
{
    if let Some(twin) = &spot.twin {
        let cell = cell_of(top, spots, spot.above);
        turn(alloc, cells, made, cell, spot, twin.id)?;
    }
    Ok(())
}

/// For the top and each spot in order the contents of its own cell, where an instance in it is turned to a copy.
pub(crate) fn turn_all<C: Cells>(
    alloc: Global,
    cells: &mut C,
    top: CellId,
    spots: &[Spot],
) -> Result<Row<Option<Contents>>, NoMemory>
    requires { AreSeats (C.state cells.old).design top spots.now }
    ensures turned { IfOk result (λ made. made ≡ map (turned_at (C.state cells.old).design (copies_of (seats top spots.now))) (seats top spots.now)) }
    ensures some { HasReadSome (C.state cells.old) (C.state cells.new) }
{
    let mut made = nothing_turned(alloc, spots.len() + 1)?;
    for spot in spots {
        let Ok(()) = turn_for(alloc, cells, top, spots, spot, &mut made) else {
            return Err(NoMemory);
        };
    }
    Ok(made)
}
