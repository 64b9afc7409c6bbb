//! Copies of designs.
use crate::used_said::text_of;
use crate::used_texts::{LARGE, TOPLESS};
use design_copy::copy_of;
use netlist_schema::Design;
use std::alloc::Global;
use std::test::Fail;
use test_text_designs::design_of;

/// A copy of a design that is dropped.
fn copied(alloc: Global, text: &str) -> Result<Design, Fail> {
    let design = design_of(alloc, text.as_bytes())?;
    Ok(copy_of(alloc, &design)?)
}

#[test]
fn a_copy_is_the_design(rt: HostRuntime) -> Result<(), Fail> {
    let alloc = rt.alloc();
    let large = design_of(alloc, LARGE.as_bytes())?;
    assert!(rt;
        text_of(alloc, &copied(alloc, LARGE)?)?.as_slice() == text_of(alloc, &large)?.as_slice()
    );
    let topless = design_of(alloc, TOPLESS.as_bytes())?;
    assert!(rt;
        text_of(alloc, &copied(alloc, TOPLESS)?)?.as_slice() == text_of(alloc, &topless)?.as_slice()
    );
    Ok(())
}
