//! Which versions are kept, and what they are.
ghost use Rattle.test_core.specs.Keeps.{IsPinBy, KeepsOthers, KeepsPins};

use crate::calls::{accepted, collect, end_pin, look_at, opened, pin_head, try_on_head};
use crate::designs::{Edit, FIRST, ident, one};
use db_core::{CollectError, Core, Pin, PinAtError, Snapshot};
use edit_spec::Reply;
use netlist_schema::{CellId, Shown};
use std::alloc::Global;
use std::process::Abort;
use std::test::Fail;

/// The second caller pins the last version, commits a net of the block there as the next version, and ends its pin.
fn commit_net(rt: &impl Abort, alloc: Global, core: &mut Core)
    ensures { KeepsOthers 1 core.old core.new }
{
    let tx = try_on_head(rt, alloc, core, 1, Edit::Net("A", "n"), &Reply::Done);
    let pin = accepted(rt, core, 1, tx, 1);
    end_pin(core, 1, pin);
}

/// The number of nets of a version's block.
fn nets(shown: &Snapshot) -> Option<usize> {
    let body = shown.cell(FIRST)?;
    let contents = body.contents.as_ref()?;
    Some(contents.nets.len())
}

/// The number of nets of the block of a version, where it is kept.
fn kept(core: &Core, version: u64) -> Option<usize> {
    nets(core.version(version)?)
}

/// The first three versions have these numbers of nets.
fn have(rt: &impl Abort, core: &Core, wanted: [Option<usize>; 3]) {
    assert!(rt; [kept(core, 0), kept(core, 1), kept(core, 2)] == wanted);
}

/// The second caller drops so many versions, and so many are kept then.
fn drops(rt: &impl Abort, core: &mut Core, dropped: u32, left: u32)
    ensures { KeepsPins core.old core.new }
{
    let collected = collect(core, 1);
    is_number(rt, collected, dropped);
    is_kept(rt, core, left);
}

fn is_number(rt: &impl Abort, collected: Result<u32, CollectError>, wanted: u32) {
    assert!(rt; collected == Ok(wanted));
}

fn is_kept(rt: &impl Abort, core: &Core, count: u32) {
    assert!(rt; core.kept() == count);
}

/// The second caller looks for a version, with this answer.
fn looks(rt: &impl Abort, core: &mut Core, version: u64, wanted: Result<u64, PinAtError>)
    ensures { KeepsOthers 1 core.old core.new }
{
    let found = look_at(core, 1, version);
    assert!(rt; found == wanted);
}

/// The first caller holds the first version, while the second adds a net; then the pin ends.
fn while_held(rt: &impl Abort, alloc: Global, core: &mut Core, held: Pin)
    requires { IsPinBy core.old 0 held }
{
    commit_net(rt, alloc, core);
    have(rt, core, [Some(0), Some(1), None]);
    drops(rt, core, 0, 2);
    have(rt, core, [Some(0), Some(1), None]);
    looks(rt, core, 0, Ok(0));
    end_pin(core, 0, held);
}

/// Nobody holds the first version any more.
fn when_free(rt: &impl Abort, core: &mut Core) {
    drops(rt, core, 1, 1);
    have(rt, core, [None, Some(1), None]);
    looks(rt, core, 0, Err(PinAtError::Gone { least: 1 }));
    looks(rt, core, 2, Err(PinAtError::NoVersion { head: 1 }));
    looks(rt, core, 1, Ok(1));
}

/// The nets of the version that was held, of the opening design and of the last version.
fn have_nets(rt: &impl Abort, core: &Core, shown: &Snapshot) {
    let nets = [nets(shown), nets(core.opening()), nets(core.head())];
    assert!(rt; nets == [Some(0), Some(0), Some(1)]);
}

fn watched(rt: &impl Abort, alloc: Global, core: &mut Core) {
    let held = pin_head(rt, core, 0);
    let shown = held.snapshot().expect(rt, "memory for a version");
    while_held(rt, alloc, core, held);
    when_free(rt, core);
    have_nets(rt, core, &shown);
}

#[test]
fn a_version_is_kept_as_long_as_it_is_pinned(rt: HostRuntime) -> Result<(), Fail> {
    let alloc = rt.alloc();
    let mut core = opened(&rt, alloc, one(alloc)?);
    watched(&rt, alloc, &mut core);
    Ok(())
}

/// The cell of these names in the last version.
fn found(rt: &impl Abort, alloc: Global, core: &Core, lib: &str, cell: &str) -> Option<CellId> {
    core.head()
        .find(&ident(rt, alloc, lib), &ident(rt, alloc, cell))
}

/// The names of a library and of a cell, and the cell.
static FOUND: [(&str, &str, Option<CellId>); 4] = [
    ("w", "A", Some(FIRST)),
    ("w", "a", None),
    ("w", "B", None),
    ("v", "A", None),
];

#[test]
fn a_cell_is_found_by_equal_names(rt: HostRuntime) -> Result<(), Fail> {
    let alloc = rt.alloc();
    let core = opened(&rt, alloc, one(alloc)?);
    for (lib, cell, wanted) in &FOUND {
        let found = found(&rt, alloc, &core, *lib, *cell);
        assert!(rt; found == *wanted, "{lib} {cell}");
    }
    Ok(())
}
