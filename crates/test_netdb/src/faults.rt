//! Calls of the files that fail, where several files are read.
use crate::calls::{Case, File, NOTHING, WRITE, check};
use crate::texts::HEAD;
use std::alloc::Global;
use std::process::Abort;
use std::sync::Wait;
use std::test::Fail;
use std::thread::Threads;
use test_texts::PAIR;

const FIRST_FILE: &[&str] = &["4 ReadFault { word: 1 }"];

const FIRST_SCRIPT: &[&str] = &["4 ReadFault { word: 2 }"];

const SECOND_SCRIPT: &[&str] = &["4 ReadFault { word: 3 }"];

/// The words that run two scripts on F.
const RUN_TWO: [&str; 4] = ["run", "F", "S", "T"];

/// A design file without an end.
const UNENDED: &[&str] = &["6 Unended at 71"];

/// A design and two scripts. Three calls read each of them: the file is opened, its bytes are read, and then its end.
const GOOD: &[File<'static>] = &[("F", &[PAIR]), ("S", &["pin\n"]), ("T", &["pin\nwalk\n"])];

/// A design file of which something is wrong, and two scripts.
const BAD: &[File<'static>] = &[("F", &[HEAD]), ("S", &["pin\n"]), ("T", &["pin\nwalk\n"])];

/// A design, and two scripts of which the first one is bad.
const BAD_FIRST: &[File<'static>] = &[("F", &[PAIR]), ("S", &["frob\n"]), ("T", &["pin\n"])];

/// The files, the calls of them that fail, and how a run of the two scripts ends.
type Failing = (
    &'static [File<'static>],
    &'static [u64],
    &'static [&'static str],
);

static FAILING: [Failing; 16] = [
    (GOOD, &[1], FIRST_FILE),
    (GOOD, &[2], FIRST_FILE),
    (GOOD, &[3], FIRST_FILE),
    (GOOD, &[4], FIRST_SCRIPT),
    (GOOD, &[5], FIRST_SCRIPT),
    (GOOD, &[6], FIRST_SCRIPT),
    (GOOD, &[7], SECOND_SCRIPT),
    (GOOD, &[8], SECOND_SCRIPT),
    (GOOD, &[9], SECOND_SCRIPT),
    (GOOD, &[5, 8], FIRST_SCRIPT),
    (BAD, &[3], FIRST_FILE),
    (BAD, &[4], UNENDED),
    (BAD, &[7], UNENDED),
    (BAD, &[4, 5, 6, 7, 8, 9], UNENDED),
    (BAD_FIRST, &[6], FIRST_SCRIPT),
    (BAD_FIRST, &[7], &["7 BadScript { word: 2, line: 1 }"]),
];

/// Checks how a run of two scripts ends, of whose files these calls fail.
fn fails<R: Abort + Threads + Wait + Sync>(
    rt: &R,
    alloc: Global,
    failing: &Failing,
) -> Result<(), Fail> {
    let (files, failing, ends) = *failing;
    let case = Case {
        files,
        words: &RUN_TWO,
        failing,
        ends,
        writes: NOTHING,
        ..WRITE
    };
    check(rt, alloc, &case)
}

#[test]
fn a_fault_is_told_of_the_file_whose_call_failed(rt: HostRuntime) -> Result<(), Fail> {
    for failing in &FAILING {
        fails(&rt, rt.alloc(), failing)?;
    }
    Ok(())
}
