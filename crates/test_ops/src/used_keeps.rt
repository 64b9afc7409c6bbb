//! What is kept of a design.
use crate::used_said::{text_of, uses_of};
use crate::used_texts::{LARGE, SMALL, TOPLESS};
use std::alloc::Global;
use std::test::Fail;
use test_text_designs::design_of;
use test_texts::SPARE_USED;
use used_keep::{KeepError, keep_used};

/// The text of what is kept of a design.
fn kept_text(alloc: Global, text: &str) -> Result<Vec<u8>, Fail> {
    let design = design_of(alloc, text.as_bytes())?;
    let kept = keep_used(alloc, &design)?;
    text_of(alloc, &kept)
}

#[test]
fn a_leaf_that_nothing_uses_is_left_out(rt: HostRuntime) -> Result<(), Fail> {
    let found = kept_text(rt.alloc(), SMALL)?;
    assert!(rt; found.as_slice() == SPARE_USED.as_bytes());
    Ok(())
}

#[test]
fn what_only_an_unused_block_uses_is_left_out(rt: HostRuntime) -> Result<(), Fail> {
    let alloc = rt.alloc();
    let kept = keep_used(alloc, &design_of(alloc, LARGE.as_bytes())?)?;
    let found = uses_of(alloc, &kept)?;
    assert!(rt;
        found.as_slice()
            == "uses\ncell p INV uses 3\n use w A i\n use w A j\n use w T k\ncell w A uses 2\n use w T x\n use w T y\ncell w T uses 0\n".as_bytes()
    );
    let again = keep_used(alloc, &kept)?;
    assert!(rt; text_of(alloc, &again)?.as_slice() == text_of(alloc, &kept)?.as_slice());
    Ok(())
}

#[test]
fn nothing_is_kept_without_a_top(rt: HostRuntime) -> Result<(), Fail> {
    let alloc = rt.alloc();
    let design = design_of(alloc, TOPLESS.as_bytes())?;
    assert!(rt; matches!(keep_used(alloc, &design), Err(KeepError::NoTop)));
    Ok(())
}
