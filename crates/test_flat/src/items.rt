//! Paths and items, made and copied.
use flat_spec::{Item, NetAt, Path};
use netlist_schema::{CellId, Copied, LibId, NoMemory, Row};
use std::alloc::Global;
use std::test::Fail;

/// Whether a path and its copy lend these steps.
fn lends(alloc: Global, path: &Path, steps: &[u32]) -> Result<bool, NoMemory> {
    let copy = path.copy(alloc)?;
    Ok(path.as_slice() == steps && copy.as_slice() == steps)
}

/// Whether the path of these steps, and its copy, lend them.
fn path_keeps(alloc: Global, steps: &[u32]) -> Result<bool, NoMemory> {
    let path = Path::of(alloc, steps)?;
    lends(alloc, &path, steps)
}

/// Whether the item is equal to its copy.
fn equals_copy(alloc: Global, item: &Item) -> Result<bool, NoMemory> {
    let copy = item.copy(alloc)?;
    Ok(copy == *item)
}

fn is_copied(alloc: Global, item: Item) -> Result<bool, NoMemory> {
    equals_copy(alloc, &item)
}

fn enter(alloc: Global) -> Result<Item, NoMemory> {
    Ok(Item::Enter {
        path: Path::of(alloc, &[2, 0])?,
        cell: CellId {
            lib: LibId(1),
            slot: 3,
        },
        properties: Row::of(Vec::new(alloc)),
    })
}

fn pin(alloc: Global) -> Result<Item, NoMemory> {
    let first = NetAt {
        path: Path::of(alloc, &[2])?,
        net: 7,
    };
    Ok(Item::Pin {
        path: Path::of(alloc, &[2, 0])?,
        port: 1,
        bit: 4,
        first: Some(first),
    })
}

static STEPS: [u32; 12] = [0, 1, 2, 3, 4, 5, 6, 7, 8, 9, 10, u32::MAX];

#[test]
fn paths_and_items_are_copied(rt: HostRuntime) -> Result<(), Fail> {
    let alloc = rt.alloc();
    let short = path_keeps(alloc, &[])? && path_keeps(alloc, &STEPS[1..4])?;
    assert!(rt; short && path_keeps(alloc, &STEPS)?);
    let copied = is_copied(alloc, enter(alloc)?)? && is_copied(alloc, pin(alloc)?)?;
    assert!(rt; copied);
    Ok(())
}
