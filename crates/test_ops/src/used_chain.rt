//! A long chain of cells.
use netlist_schema::{LibId, Shown};
use std::alloc::Global;
use std::test::Fail;
use test_text_designs::design_of;
use used_keep::keep_used;
use where_used::Used;

const HEAD: &[u8] =
    b"(edif f (edifVersion 2 0 0) (edifLevel 0) (keywordMap (keywordLevel 0)) (library w (edifLevel 0) (technology (numberDefinition))";

/// Two leaves, and a chain of this many blocks above the second one, each with an instance of the cell before it.
fn chain(alloc: Global, count: u32) -> Result<Vec<u8>, Fail> {
    let mut text = HEAD.to_vec(alloc)?;
    text.extend_from_slice(
        b" (cell u (cellType GENERIC) (view v (viewType NETLIST) (interface))) (cell c0 (cellType GENERIC) (view v (viewType NETLIST) (interface)))",
    )?;
    for k in 0..count {
        let next = u64::from(k) + 1;
        let cell = format!(in alloc;
            " (cell c{next} (cellType GENERIC) (view v (viewType NETLIST) (interface) (contents (instance a (viewRef v (cellRef c{k}))))))"
        )?;
        text.extend_from_slice(cell.as_bytes())?;
    }
    let end = format!(in alloc; ") (design t (cellRef c{count} (libraryRef w))))")?;
    text.extend_from_slice(end.as_bytes())?;
    Ok(text)
}

#[test]
fn a_library_that_is_one_chain_is_kept(rt: HostRuntime) -> Result<(), Fail> {
    let alloc = rt.alloc();
    let design = design_of(alloc, chain(alloc, 500)?.as_slice())?;
    let _used = Used::of(alloc, &design)?;
    let kept = keep_used(alloc, &design)?;
    assert!(rt; design.cell_count(LibId(0)) == 502);
    assert!(rt; kept.cell_count(LibId(0)) == 501);
    Ok(())
}
