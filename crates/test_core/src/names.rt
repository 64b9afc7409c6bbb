//! Names of cells that are added by one commit each.
use crate::calls::{accepted, end_pin, opened, try_on_head};
use crate::designs::{Edit, one};
use db_core::Core;
use edit_spec::Reply;
use std::alloc::Global;
use std::process::Abort;
use std::test::Fail;

const NAMES: [&str; 9] = [
    "c0",
    "C1",
    "a_name_of_more_than_sixteen_letters",
    "c3",
    "c4",
    "Z5",
    "c6",
    "c7",
    "c8",
];

/// Adds a cell as this version.
fn add(rt: &impl Abort, alloc: Global, core: &mut Core, name: &'static str, version: u64) {
    let tx = try_on_head(rt, alloc, core, 0, Edit::Cell(name), &Reply::Done);
    let pin = accepted(rt, core, 0, tx, version);
    end_pin(core, 0, pin);
}

/// An edit of the last version gets this reply.
fn replies(rt: &impl Abort, alloc: Global, core: &mut Core, edit: Edit, reply: &Reply) {
    let tx = try_on_head(rt, alloc, core, 0, edit, reply);
    let _pin = tx.abandon();
}

fn add_all(rt: &impl Abort, alloc: Global, core: &mut Core) {
    for (before, name) in NAMES.iter().enumerate() {
        add(rt, alloc, core, *name, before as u64 + 1);
    }
}

/// A name is taken where one is the same ignoring case, and a cell is found by its own name alone.
fn look(rt: &impl Abort, alloc: Global, core: &mut Core) {
    for taken in [
        "C0",
        "c1",
        "A_Name_Of_More_Than_Sixteen_Letters",
        "c8",
        "a",
        "z5",
    ] {
        replies(rt, alloc, core, Edit::Cell(taken), &Reply::Taken);
    }
    for free in ["c", "c9", "a_name_of_more_than_sixteen_letter"] {
        replies(rt, alloc, core, Edit::Cell(free), &Reply::Done);
    }
    for name in NAMES.iter() {
        replies(rt, alloc, core, Edit::Own(*name, "K"), &Reply::Done);
    }
    for other in ["C0", "c1", "z5", "C8"] {
        replies(rt, alloc, core, Edit::Own(other, "K"), &Reply::NoCell);
    }
}

#[test]
fn cells_are_found_that_were_added_one_by_one(rt: HostRuntime) -> Result<(), Fail> {
    let alloc = rt.alloc();
    let mut core = opened(&rt, alloc, one(alloc)?);
    add_all(&rt, alloc, &mut core);
    look(&rt, alloc, &mut core);
    Ok(())
}
