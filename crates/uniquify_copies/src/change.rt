//! The change that gives occurrences cells of their own.
ghost use Rattle.std.specs.Prelude.{◌≡◌, ◌++◌, [], IfOk, OnOk, Option, length, map};
ghost use Rattle.std.specs.List.{flat_map};
ghost use Rattle.netlist_schema.specs.Types.{Contents};
ghost use Rattle.edit_cells.specs.Change.{CanAllBeMade, edits_of};
ghost use Rattle.edit_cells.specs.State.{HasReadSome};
ghost use Rattle.uniquify_copies.specs.Known.{copy_at};
ghost use Rattle.uniquify_spec.specs.Split.{split_edits};
ghost use Rattle.uniquify_copies.specs.Changes.{AreSeats, copied_to, fresh_for, fresh_of, inners, kept_to};
ghost use Rattle.uniquify_copies.specs.Seats.{Seat, seats, split_of};

use crate::look::body_of;
use crate::namer::Twin;
use crate::spot::{Spot, cell_of, twin_of};
use crate::turn::turn_all;
use edit_cells::{CellChange, Cells, Change};
use netlist_schema::{CellId, Contents, Copied, NoMemory, Row};
use std::alloc::Global;

/// Adds a copy of a cell, where the cell is there.
fn add_fresh<C: Cells>(
    alloc: Global,
    cells: &mut C,
    of: CellId,
    twin: &Twin,
    changes: &mut Vec<CellChange>,
) -> Result<(), NoMemory>
    ensures added { OnOk result (changes.new.items ≡ changes.old.items ++ fresh_of (C.state cells.old).design (copy_at [] of twin.now)) }
    ensures some { HasReadSome (C.state cells.old) (C.state cells.new) }
{
    if let Some(body) = body_of(alloc, cells, of)? {
        let mut body = body;
        body.name = twin.name.copy(alloc)?;
        changes.push(CellChange::Fresh { id: twin.id, body })?;
    }
    Ok(())
}

/// Adds the copy that a spot gets, if it gets one.
fn add_copy<C: Cells>(
    alloc: Global,
    cells: &mut C,
    spot: &Spot,
    changes: &mut Vec<CellChange>,
) -> Result<(), NoMemory>
    ensures added { OnOk result (changes.new.items ≡ changes.old.items ++ fresh_for (C.state cells.old).design spot.now) }
    ensures some { HasReadSome (C.state cells.old) (C.state cells.new) }
{
    match &spot.twin {
        Some(twin) => add_fresh(alloc, cells, spot.cell, twin, changes),
        None => Ok(()),
    }
}

/// The copies that the spots get, in order.
fn copies<C: Cells>(
    alloc: Global,
    cells: &mut C,
    spots: &[Spot],
) -> Result<Vec<CellChange>, NoMemory>
    ensures made { IfOk result (λ made. made.items ≡ flat_map (fresh_for (C.state cells.old).design) spots.now) }
    ensures some { HasReadSome (C.state cells.old) (C.state cells.new) }
{
    let mut changes = Vec::new(alloc);
    for spot in spots {
        let Ok(()) = add_copy(alloc, cells, spot, &mut changes) else {
            return Err(NoMemory);
        };
    }
    Ok(changes)
}

/// Adds other contents of an own cell, where there are any: of a copy to the one list, and of a cell that is kept to the other.
fn add_inner(
    twin: Option<CellId>,
    cell: CellId,
    contents: Option<Contents>,
    copied: &mut Vec<CellChange>,
    kept: &mut Vec<CellChange>,
) -> Result<(), NoMemory>
    ensures copied { OnOk result (copied.new.items ≡ copied.old.items ++ copied_to twin contents) }
    ensures kept { OnOk result (kept.new.items ≡ kept.old.items ++ kept_to twin cell contents) }
{
    let Some(contents) = contents else {
        return Ok(());
    };
    match twin {
        Some(id) => copied.push(CellChange::Inner { id, contents })?,
        None => kept.push(CellChange::Inner { id: cell, contents })?,
    }
    Ok(())
}

/// Adds to a list the other contents of the own cells of the top and of the spots: of the copies, and then of the cells that
/// are kept.
fn add_inners(
    alloc: Global,
    top: CellId,
    spots: &[Spot],
    contents: Row<Option<Contents>>,
    changes: &mut Vec<CellChange>,
) -> Result<(), NoMemory>
    requires { length contents ≡ length (seats top spots.now) }
    ensures { OnOk result ((f : Seat → Option Contents) → contents ≡ map f (seats top spots.now) → changes.new.items ≡ changes.old.items ++ inners f (seats top spots.now)) }
{
    let mut contents = contents;
    let mut kept = Vec::new(alloc);
    for number in 0..spots.len() + 1 {
        let twin = twin_of(spots, number);
        let cell = cell_of(top, spots, number);
        let made = contents.replace(number, None);
        add_inner(twin, cell, made, changes, &mut kept)?;
    }
    changes.append(&mut kept)?;
    Ok(())
}

/// The change that gives the spots cells of their own: the copies in order, and then the contents of each own cell in which an
/// instance is turned to a copy. It takes time in proportion to the spots and to the cells that are copied or changed.
/// Nothing is written; the one error is that an allocation was refused.
pub fn split_change<C: Cells>(
    alloc: Global,
    cells: &mut C,
    top: CellId,
    spots: &[Spot],
) -> Result<Change, NoMemory>
    requires { AreSeats (C.state cells.old).design top spots.now }
    ensures edits { IfOk result (λ change. edits_of (C.state cells.old).design change ≡ split_edits (C.state cells.old).design (split_of (seats top spots.now))) }
    ensures can { IfOk result (λ change. CanAllBeMade (C.state cells.old).design change.cells) }
    ensures some { HasReadSome (C.state cells.old) (C.state cells.new) }
{
    let mut changes = copies(alloc, cells, spots)?;
    let contents = turn_all(alloc, cells, top, spots)?;
    add_inners(alloc, top, spots, contents, &mut changes)?;
    Ok(Change {
        cells: Row::of(changes),
        notes: None,
    })
}
