//! Edits of a design that is watched: after each the index is that of the design.
use crate::used_said::{uses_after, uses_of};
use crate::used_texts::{LARGE, SMALL};
use netdb_outside::{MemSink, WriteError};
use netlist_schema::{CellId, LibId};
use std::test::Fail;
use test_text_designs::design_of;
use used_lines::write_uses;
use where_used::{Used, UsedAt, Watched};

#[test]
fn an_instance_is_added_and_another_dropped(rt: HostRuntime) -> Result<(), Fail> {
    let found = uses_after(
        rt.alloc(),
        SMALL,
        "begin\nadd-inst w T b w P\ndrop-inst w T a\ncommit\n",
    )?;
    assert!(rt;
        found.as_slice()
            == "uses\ncell w Q uses 0\ncell w P uses 1\n use w T b\ncell w T uses 0\n".as_bytes()
    );
    Ok(())
}

#[test]
fn uses_of_several_libraries_are_told_in_order(rt: HostRuntime) -> Result<(), Fail> {
    let found = uses_after(rt.alloc(), LARGE, "begin\ncommit\n")?;
    assert!(rt;
        found.as_slice()
            == "uses\ncell p BUF uses 1\n use w B b\ncell p INV uses 3\n use w A i\n use w A j\n use w T k\ncell w A uses 3\n use w B a\n use w T x\n use w T y\ncell w B uses 1\n use z Z b\ncell w T uses 0\ncell z Z uses 0\n".as_bytes()
    );
    Ok(())
}

#[test]
fn a_path_of_its_own_turns_an_instance_to_a_copy(rt: HostRuntime) -> Result<(), Fail> {
    let found = uses_after(rt.alloc(), LARGE, "begin\nunique-path x\ncommit\n")?;
    assert!(rt;
        found.as_slice()
            == "uses\ncell p BUF uses 1\n use w B b\ncell p INV uses 5\n use w A i\n use w A j\n use w T k\n use w A_u1 i\n use w A_u1 j\ncell w A uses 2\n use w B a\n use w T y\ncell w B uses 1\n use z Z b\ncell w T uses 0\ncell w A_u1 uses 1\n use w T x\ncell z Z uses 0\n".as_bytes()
    );
    Ok(())
}

#[test]
fn each_block_gets_a_cell_of_its_own(rt: HostRuntime) -> Result<(), Fail> {
    let found = uses_after(rt.alloc(), LARGE, "begin\nuniquify\ncommit\n")?;
    assert!(rt;
        found.as_slice()
            == "uses\ncell p BUF uses 1\n use w B b\ncell p INV uses 5\n use w A i\n use w A j\n use w T k\n use w A_u1 i\n use w A_u1 j\ncell w A uses 2\n use w B a\n use w T x\ncell w B uses 1\n use z Z b\ncell w T uses 0\ncell w A_u1 uses 1\n use w T y\ncell z Z uses 0\n".as_bytes()
    );
    Ok(())
}

#[test]
fn an_instance_is_dissolved(rt: HostRuntime) -> Result<(), Fail> {
    let found = uses_after(rt.alloc(), LARGE, "begin\nungroup w T x\ncommit\n")?;
    assert!(rt;
        found.as_slice()
            == "uses\ncell p BUF uses 1\n use w B b\ncell p INV uses 5\n use w A i\n use w A j\n use w T x_i\n use w T x_j\n use w T k\ncell w A uses 2\n use w B a\n use w T y\ncell w B uses 1\n use z Z b\ncell w T uses 0\ncell z Z uses 0\n".as_bytes()
    );
    Ok(())
}

#[test]
fn properties_nets_and_refusals_leave_the_uses(rt: HostRuntime) -> Result<(), Fail> {
    let alloc = rt.alloc();
    let found = uses_after(
        alloc,
        LARGE,
        "begin\nset-prop w T inst x K int 1\nset-prop w T cell K int 1\nset-prop w T net m K int 1\nadd-net w T q\nadd-inst w T x w A\nadd-inst w A t w T\ndrop-inst w T none\ndrop-note none K\ncommit\n",
    )?;
    let before = uses_of(alloc, &design_of(alloc, LARGE.as_bytes())?)?;
    assert!(rt; found.as_slice() == before.as_slice());
    Ok(())
}

#[test]
fn a_new_cell_has_a_list(rt: HostRuntime) -> Result<(), Fail> {
    let found = uses_after(
        rt.alloc(),
        SMALL,
        "begin\nadd-cell w N empty\nadd-inst w N q w Q\nadd-inst w T n w N\nadd-inst w T p w P\ncommit\n",
    )?;
    assert!(rt;
        found.as_slice()
            == "uses\ncell w Q uses 1\n use w N q\ncell w P uses 2\n use w T a\n use w T p\ncell w T uses 0\ncell w N uses 1\n use w T n\n".as_bytes()
    );
    Ok(())
}

#[test]
fn instances_behind_one_that_is_dropped_move_up(rt: HostRuntime) -> Result<(), Fail> {
    let found = uses_after(
        rt.alloc(),
        LARGE,
        "begin\nadd-inst w T l w A\nadd-inst w T o p INV\nadd-inst w T q p BUF\ndrop-inst w T x\ndrop-inst w T l\ndrop-inst w T q\ncommit\n",
    )?;
    assert!(rt;
        found.as_slice()
            == "uses\ncell p BUF uses 1\n use w B b\ncell p INV uses 4\n use w A i\n use w A j\n use w T k\n use w T o\ncell w A uses 2\n use w B a\n use w T y\ncell w B uses 1\n use z Z b\ncell w T uses 0\ncell z Z uses 0\n".as_bytes()
    );
    Ok(())
}

#[test]
fn an_instance_is_dropped_with_its_notes(rt: HostRuntime) -> Result<(), Fail> {
    let found = uses_after(
        rt.alloc(),
        LARGE,
        "begin\nset-note x/i K int 1\ndrop-inst w T y\ndrop-note x/i K\nadd-cell p E leaf\ndrop-inst w A i\ncommit\n",
    )?;
    assert!(rt;
        found.as_slice()
            == "uses\ncell p BUF uses 1\n use w B b\ncell p INV uses 2\n use w A j\n use w T k\ncell p E uses 0\ncell w A uses 2\n use w B a\n use w T x\ncell w B uses 1\n use z Z b\ncell w T uses 0\ncell z Z uses 0\n".as_bytes()
    );
    Ok(())
}

#[test]
fn users_are_lent(rt: HostRuntime) -> Result<(), Fail> {
    let alloc = rt.alloc();
    let watched = Watched::new(alloc, design_of(alloc, SMALL.as_bytes())?)?;
    let used = Used::of(alloc, watched.design())?;
    let top = CellId {
        lib: LibId(0),
        slot: 2,
    };
    let leaf = CellId {
        lib: LibId(0),
        slot: 1,
    };
    let none = CellId {
        lib: LibId(1),
        slot: 0,
    };
    match used.users(leaf) {
        Some(users) => {
            assert!(rt; users.as_slice() == [UsedAt { cell: top, inst: 0 }].as_slice());
        }
        None => {
            assert!(rt; false);
        }
    }
    assert!(rt; used.users(none).is_none());
    Ok(())
}

#[test]
fn a_sink_that_is_full_has_a_front(rt: HostRuntime) -> Result<(), Fail> {
    let alloc = rt.alloc();
    let design = design_of(alloc, SMALL.as_bytes())?;
    let used = Used::of(alloc, &design)?;
    let mut sink = MemSink::new(alloc, Some(7));
    let told = write_uses(alloc, &design, &used, &mut sink);
    assert!(rt; told == Err(WriteError::WriteFault));
    assert!(rt; sink.written() == "uses\nce".as_bytes());
    Ok(())
}
