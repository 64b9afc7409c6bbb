//! The check and its lines on one design.
use crate::finding_designs::Case;
use erc_check::erc_check;
use erc_report::write_findings;
use flat_writer::FlatError;
use netdb_outside::MemSink;
use netlist_schema::Design;
use occ_walk::WalkError;
use std::alloc::Global;
use std::process::Abort;
use std::test::Fail;
use test_text_designs::design_of;

fn is_text(rt: &impl Abort, text: &[u8], want: &str) {
    assert_eq!(rt; text, want.as_bytes());
}

/// What is written of a design that has a top.
fn has_lines(rt: &impl Abort, alloc: Global, design: &Design, want: &str) -> Result<(), Fail> {
    let mut sink = MemSink::new(alloc, None);
    write_findings(alloc, design, &mut sink)?;
    is_text(rt, sink.written(), want);
    Ok(())
}

/// How many findings a design has that has a top.
fn count(alloc: Global, design: &Design) -> Result<usize, Fail> {
    let found = erc_check(alloc, design)?;
    Ok(found.as_slice().len())
}

/// Of a design without a top nothing is found or written.
fn has_no_top(rt: &impl Abort, alloc: Global, design: &Design) {
    let mut sink = MemSink::new(alloc, None);
    let written = write_findings(alloc, design, &mut sink);
    assert!(rt; written == Err(FlatError::NoTop));
    assert!(rt; sink.written().is_empty());
    assert!(rt; erc_check(alloc, design).err() == Some(WalkError::NoTop));
}

/// Checks a design by its findings and their lines.
fn check(rt: &impl Abort, alloc: Global, design: &Design, want: Option<&str>) -> Result<(), Fail> {
    let Some(want) = want else {
        has_no_top(rt, alloc, design);
        return Ok(());
    };
    has_lines(rt, alloc, design, want)?;
    let lines = want.lines().count();
    assert_eq!(rt; count(alloc, design)?, lines.saturating_sub(1));
    Ok(())
}

pub fn check_row(rt: &impl Abort, alloc: Global, row: &Case) -> Result<(), Fail> {
    let design = design_of(alloc, row.design.as_bytes())?;
    check(rt, alloc, &design, row.lines)
}

/// Where the sink is full, a front is written.
pub fn check_full(rt: &impl Abort, alloc: Global, row: &Case) -> Result<(), Fail> {
    let design = design_of(alloc, row.design.as_bytes())?;
    let mut sink = MemSink::new(alloc, Some(6));
    let written = write_findings(alloc, &design, &mut sink);
    assert!(rt; written == Err(FlatError::WriteFault));
    is_text(rt, sink.written(), "many /");
    Ok(())
}
