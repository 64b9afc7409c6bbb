//! Items from one place of the flattening on.
ghost use Rattle.std.specs.Prelude.{◌≡◌, ◌++◌, IfOk, OnOk, Some, drop, option_map, ◌-◌, IsTrue, ◌↔◌};
ghost use Rattle.flat_spec.specs.Flattening.{flattening};
ghost use Rattle.occ_walk.specs.Left.{left};
ghost use Rattle.flat_lines_spec.specs.Lines.{shown_items};
ghost use Rattle.flat_items.specs.Stand.{MayStand, stand_of};
ghost use Rattle.par_flat.specs.Parts.{GivesMore};

use flat_items::Place;
use flat_spec::Item;
use netlist_schema::{NoMemory, Shown};
use par_parts::{CountedGround, start_at};

/// The room behind an item.
fn one_less(room: Option<u64>) -> Option<u64>
    ensures { result ≡ option_map (λ n. n - 1) room }
{
    room.map(|n| n.saturating_sub(1))
}

/// Whether there is no room for an item.
fn is_full(room: Option<u64>) -> bool
    ensures { IsTrue result ↔ (room ≡ Some 0) }
{
    match room {
        Some(left) => left == 0,
        None => false,
    }
}

/// Adds the next item, where one is left: whether one was.
fn add_next<S: Shown + Drop>(
    ground: &CountedGround<S>,
    place: &mut Place,
    items: &mut Vec<Item>,
) -> Result<bool, NoMemory>
    requires stands { MayStand ground.now (stand_of place.old) }
    ensures stands { MayStand ground.now (stand_of place.new) }
    ensures given { IfOk result (GivesMore (left ground.now (stand_of place.old)) items.old.items
        (left ground.now (stand_of place.new)) items.new.items) }
{
    match ground.next_item(place)? {
        Some(item) => {
            items.push(item)?;
            Ok(true)
        }
        None => Ok(false),
    }
}

/// Adds the items that are left, no more than so many where there is a limit.
fn add_left<S: Shown + Drop>(
    ground: &CountedGround<S>,
    place: &mut Place,
    most: Option<u64>,
    items: &mut Vec<Item>,
) -> Result<(), NoMemory>
    requires stands { MayStand ground.now (stand_of place.old) }
    ensures { OnOk result (items.new.items ≡ items.old.items ++ shown_items most (left ground.now (stand_of place.old))) }
{
    let mut room = most;
    'items: loop {
        if is_full(room) {
            return Ok(());
        }
        if !add_next(ground, place, items)? {
            return Ok(());
        }
        room = one_less(room);
    }
}

/// The items behind the first so many, no more than so many where there is a limit.
pub fn items_from<S: Shown + Drop>(
    ground: &CountedGround<S>,
    first: u64,
    most: Option<u64>,
) -> Result<Vec<Item>, NoMemory>
    ensures { IfOk result (λ items. items.items ≡ shown_items most (drop first (flattening ground.now))) }
{
    let mut place = start_at(ground, first)?;
    let mut items = Vec::new(ground.alloc());
    add_left(ground, &mut place, most, &mut items)?;
    Ok(items)
}
