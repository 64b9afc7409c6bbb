//! Operations on designs with many cells.
use crate::said::replies;
use std::alloc::Global;
use std::test::Fail;

const HEAD: &[u8] =
    b"(edif f (edifVersion 2 0 0) (edifLevel 0) (keywordMap (keywordLevel 0)) (library w (edifLevel 0) (technology (numberDefinition))";

/// A library of this many leaves.
fn leaves(alloc: Global, count: u32) -> Result<Vec<u8>, Fail> {
    let mut text = HEAD.to_vec(alloc)?;
    for k in 0..count {
        let cell = format!(in alloc;
            " (cell c{k} (cellType GENERIC) (view v (viewType NETLIST) (interface)))"
        )?;
        text.extend_from_slice(cell.as_bytes())?;
    }
    text.extend_from_slice(b"))")?;
    Ok(text)
}

/// A leaf, and a chain of this many blocks above it, each with an instance of the one before it.
fn chain(alloc: Global, count: u32) -> Result<Vec<u8>, Fail> {
    let mut text = HEAD.to_vec(alloc)?;
    text.extend_from_slice(
        b" (cell c0 (cellType GENERIC) (view v (viewType NETLIST) (interface)))",
    )?;
    for k in 0..count {
        let next = u64::from(k) + 1;
        let cell = format!(in alloc;
            " (cell c{next} (cellType GENERIC) (view v (viewType NETLIST) (interface) (contents (instance a (viewRef v (cellRef c{k}))))))"
        )?;
        text.extend_from_slice(cell.as_bytes())?;
    }
    text.extend_from_slice(b"))")?;
    Ok(text)
}

#[test]
fn a_full_library_takes_no_cell(rt: HostRuntime) -> Result<(), Fail> {
    let text = leaves(rt.alloc(), 65_536)?;
    let found = replies(
        rt.alloc(),
        text.as_slice(),
        "begin\nadd-cell w d leaf\ncommit\n",
    )?;
    assert!(rt; found.as_slice() == "too-many 65536\n".as_bytes());
    Ok(())
}

#[test]
fn a_long_chain_is_gone_through(rt: HostRuntime) -> Result<(), Fail> {
    let text = chain(rt.alloc(), 20_000)?;
    let found = replies(
        rt.alloc(),
        text.as_slice(),
        "begin\nadd-inst w c1 x w c20000\ncommit\n",
    )?;
    assert!(rt; found.as_slice() == "is-cyclic\n".as_bytes());
    Ok(())
}
