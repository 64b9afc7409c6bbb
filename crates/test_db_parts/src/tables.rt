//! Tables of a few slots, asked after each change.
ghost use Rattle.std.specs.Prelude.{◌≤◌};

use std::alloc::Global;
use std::process::Abort;
use std::sync::Arc;
use std::test::Fail;
use ver_table::{Entry, Table};

/// Slots in rising order.
static SLOTS: [u32; 8] = [0, 1, 2, 63, 64, 1023, 1024, 65_535];

/// Asks the tables before and after the put of a slot for all slots: those that were put are there, each with its number.
fn ask_all<const P: usize>(rt: &impl Abort, old: &Table<u32, P>, new: &Table<u32, P>, slot: u32) {
    for asked in &SLOTS {
        let asked = *asked;
        let before = (asked < slot).then_some(asked);
        let behind = (asked <= slot).then_some(asked);
        let items = (old.get(asked).copied(), new.get(asked).copied());
        assert_eq!(rt; items, (before, behind), "{P}: {slot}, {asked}");
    }
}

/// Sets a slot, and asks the new and the old table for all slots.
fn set<const P: usize>(
    rt: &impl Abort,
    alloc: Global,
    table: &Table<u32, P>,
    slot: u32,
) -> Result<Table<u32, P>, Fail> {
    let item = Arc::new(alloc, slot)?;
    let next = table.put(slot, item)?;
    ask_all(rt, table, &next, slot);
    Ok(next)
}

/// The number of pages of a table in which the slots were set in turn.
fn set_in_turn<const P: usize>(rt: &impl Abort, alloc: Global) -> Result<u64, Fail>
    requires some { 1 ≤ P }
    requires few { P ≤ 1024 }
{
    let mut table: Table<u32, P> = Table::new(alloc);
    for slot in &SLOTS {
        table = set(rt, alloc, &table, *slot)?;
    }
    Ok(table.pages())
}

/// Sets the slots of a table in turn, and compares the number of its pages.
fn has_pages<const P: usize>(rt: &impl Abort, alloc: Global, pages: u64) -> Result<(), Fail>
    requires some { 1 ≤ P }
    requires few { P ≤ 1024 }
{
    let found = set_in_turn::<P>(rt, alloc)?;
    assert_eq!(rt; found, pages, "{P}");
    Ok(())
}

#[test]
fn a_put_keeps_every_other_slot_and_the_old_table_at_each_page_size(
    rt: HostRuntime,
) -> Result<(), Fail> {
    macro_rules! cases {
        ($($size:literal: $pages:literal),*) => {
            $(has_pages::<$size>(&rt, rt.alloc(), $pages)?;)*
        };
    }
    cases!(1: 8, 3: 4, 64: 5, 1024: 3);
    Ok(())
}

/// Asks a table for slots.
fn ask<const P: usize>(rt: &impl Abort, table: &Table<u64, P>, slots: &[(u32, Option<u64>)]) {
    for (slot, item) in slots {
        assert_eq!(rt; table.get(*slot).copied(), *item, "{slot}");
    }
}

/// A slot of an empty table is set, and both tables are asked for it and for another slot.
fn set_alone<const P: usize>(
    rt: &impl Abort,
    alloc: Global,
    slot: u32,
    other: u32,
) -> Result<u64, Fail>
    requires some { 1 ≤ P }
    requires few { P ≤ 1024 }
{
    let item = Arc::new(alloc, 17)?;
    let old: Table<u64, P> = Table::new(alloc);
    let new = old.put(slot, item)?;
    ask(rt, &new, &[(slot, Some(17)), (other, None)]);
    ask(rt, &old, &[(slot, None)]);
    Ok(new.pages())
}

#[test]
fn a_put_leaves_the_neighbour_and_the_old_table(rt: HostRuntime) -> Result<(), Fail> {
    set_alone::<4>(&rt, rt.alloc(), 5, 4)?;
    Ok(())
}

#[test]
fn the_greatest_slot_has_a_page_of_its_own(rt: HostRuntime) -> Result<(), Fail> {
    assert_eq!(rt; set_alone::<1>(&rt, rt.alloc(), 4_294_967_295, 0)?, 1);
    Ok(())
}

/// A table with ten items in order.
fn in_order(alloc: Global) -> Result<Table<u64, 4>, Fail> {
    let mut items = Vec::new(alloc);
    for item in 0..10 {
        items.push(Arc::new(alloc, item)?)?;
    }
    Ok(Table::of(alloc, items)?)
}

/// The table with three slots set at once.
fn with_three(alloc: Global, table: &Table<u64, 4>) -> Result<Table<u64, 4>, Fail> {
    let changes = [
        Entry {
            slot: 3,
            item: Arc::new(alloc, 30)?,
        },
        Entry {
            slot: 4,
            item: Arc::new(alloc, 40)?,
        },
        Entry {
            slot: 20,
            item: Arc::new(alloc, 200)?,
        },
    ];
    Ok(table.put_all(&changes)?)
}

static ITEMS: [(u32, Option<u64>); 2] = [(3, Some(3)), (20, None)];

static CHANGED: [(u32, Option<u64>); 7] = [
    (2, Some(2)),
    (3, Some(30)),
    (4, Some(40)),
    (5, Some(5)),
    (9, Some(9)),
    (20, Some(200)),
    (10, None),
];

#[test]
fn items_in_order_and_several_slots_at_once(rt: HostRuntime) -> Result<(), Fail> {
    let table = in_order(rt.alloc())?;
    let next = with_three(rt.alloc(), &table)?;
    ask(&rt, &next, &CHANGED);
    ask(&rt, &table, &ITEMS);
    let pages = (table.pages(), next.pages());
    assert_eq!(rt; pages, (3, 4));
    Ok(())
}
