//! Scripts that edit a design, and what is reported of them.
use crate::calls::{OK, WRITE_F, Writes, check_file, check_run};
use crate::eco_texts::{
    BOARD_DISSOLVED, BOARD_DISSOLVED_TEXT, BOARD_EDITED, BOARD_EDITED_TEXT, NOTED_COPIED,
    NOTED_DISSOLVED, NOTED_DISSOLVED_TEXT, OPERATIONS, REFUSED, THRICE, THRICE_COPIED,
    THRICE_COPIED_TEXT, TOPLESS, TOPLESS_REFUSED, TOPLESS_TEXT, UNGROUP_BOARD, UNGROUP_NOTED,
    UNIQUIFY,
};
use crate::texts::NOTED;
use std::alloc::Global;
use std::process::Abort;
use std::sync::Wait;
use std::test::Fail;
use std::thread::Threads;
use test_texts::{BOARD, OUT_OF_ORDER};

/// A design, a script that is run on it, the history and the transcript, and the last version as it is written.
type Edited<'a> = (&'a str, &'a str, &'a str, &'a str);

/// Checks the report of a script.
fn is_reported<R: Abort + Threads + Wait + Sync>(
    rt: &R,
    alloc: Global,
    edited: &Edited,
) -> Result<(), Fail> {
    let (design, script, told, after) = *edited;
    let report = [told, "design\n", after];
    check_run(rt, alloc, &[design], &[script], OK, Writes::All(&report))
}

/// Checks that a version which was reported is read, and written as it was.
fn is_written_again<R: Abort + Threads + Wait + Sync>(
    rt: &R,
    alloc: Global,
    after: &str,
) -> Result<(), Fail> {
    let text = [after];
    check_file(rt, alloc, &text, &WRITE_F, OK, Writes::All(&text))
}

/// Each with its history, its transcript and its last version. In the first three, occurrences of blocks get cells of their own, where
/// there is a top. In the others an instance is dissolved into the cell that holds it, alone and behind each other operation.
static EDITED: [Edited; 6] = [
    (NOTED, UNIQUIFY, NOTED_COPIED, OUT_OF_ORDER),
    (THRICE, UNIQUIFY, THRICE_COPIED, THRICE_COPIED_TEXT),
    (TOPLESS, REFUSED, TOPLESS_REFUSED, TOPLESS_TEXT),
    (NOTED, UNGROUP_NOTED, NOTED_DISSOLVED, NOTED_DISSOLVED_TEXT),
    (BOARD, UNGROUP_BOARD, BOARD_DISSOLVED, BOARD_DISSOLVED_TEXT),
    (BOARD, OPERATIONS, BOARD_EDITED, BOARD_EDITED_TEXT),
];

#[test]
fn edits_are_reported(rt: HostRuntime) -> Result<(), Fail> {
    for edited in &EDITED {
        is_reported(&rt, rt.alloc(), edited)?;
    }
    Ok(())
}

#[test]
fn edited_designs_are_written_again(rt: HostRuntime) -> Result<(), Fail> {
    for edited in &EDITED {
        is_written_again(&rt, rt.alloc(), edited.3)?;
    }
    Ok(())
}
