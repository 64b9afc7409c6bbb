//! In which order the cells of the design are written, and what is written.
use crate::designs::out_of_order;
use edif_writer::{WriteError, write_design};
use netdb_outside::MemSink;
use netlist_order::cell_order;
use netlist_schema::{Design, LibId};
use std::alloc::Global;
use std::process::Abort;
use std::test::Fail;
use test_texts::OUT_OF_ORDER;

/// Whether the cells of the library are written in this order.
fn has_order(alloc: Global, design: &Design, want: &[u32]) -> Result<bool, Fail> {
    let order = cell_order(alloc, design, LibId(0))?;
    Ok(order.as_slice() == want)
}

/// Whether this is answered when a design is written into a sink of a length, and this is written.
fn is_written(
    alloc: Global,
    design: &Design,
    length: Option<u64>,
    want: Result<(), WriteError>,
    text: &str,
) -> bool {
    let mut out = MemSink::new(alloc, length);
    write_design(alloc, design, &mut out) == want && out.written() == text.as_bytes()
}

/// Checks the order of the cells, and what is written.
fn check(rt: &impl Abort, alloc: Global, design: &Design) -> Result<(), Fail> {
    assert!(rt; has_order(alloc, design, &[0, 1, 3, 2])?);
    assert!(rt; is_written(alloc, design, None, Ok(()), OUT_OF_ORDER));
    let fault = Err(WriteError::WriteFault);
    assert!(rt; is_written(alloc, design, Some(10), fault, "(edif e\n ("));
    Ok(())
}

#[test]
fn a_design_out_of_order_is_written_in_order(rt: HostRuntime) -> Result<(), Fail> {
    let design = out_of_order(rt.alloc())?;
    check(&rt, rt.alloc(), &design)
}
