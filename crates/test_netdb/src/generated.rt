//! Runs of a number, and what is told of them.
use crate::calls::{Case, OK, USAGE, WRITE, Writes, check};
use std::alloc::Global;
use std::process::Abort;
use std::sync::Wait;
use std::test::Fail;
use std::thread::Threads;

const ONE: &str = "gen 1
commits 1
collected 0
events 7
version 0 instances 5 nets 7 pins 6 properties 0
version 1 instances 5 nets 7 pins 6 properties 2
";

const SIXTEEN: &str = "gen 16
commits 16
collected 15
events 53
version 0 instances 35 nets 37 pins 66 properties 0
version 16 instances 35 nets 37 pins 66 properties 32
";

/// A number, how many bytes the sink takes, how the run ends, and what is written. A sink that takes ten bytes has the first ten, and
/// words that name no run write nothing.
static RUNS: [(&str, Option<u64>, &[&str], &str); 6] = [
    ("1", None, OK, ONE),
    ("16", None, OK, SIXTEEN),
    ("1", Some(10), &["5 WriteFault"], "gen 1\ncomm"),
    ("0", None, USAGE, ""),
    ("4097", None, USAGE, ""),
    ("01", None, USAGE, ""),
];

/// Checks how such a run ends.
fn is_generated<'a, R: Abort + Threads + Wait + Sync>(
    rt: &R,
    alloc: Global,
    words: &'a [&'a str],
    length: Option<u64>,
    ends: &'a [&'a str],
    pieces: &'a [&'a str],
) -> Result<(), Fail> {
    let case = Case {
        words,
        length,
        ends,
        writes: Writes::All(pieces),
        ..WRITE
    };
    check(rt, alloc, &case)
}

#[test]
fn runs_of_a_number_are_told(rt: HostRuntime) -> Result<(), Fail> {
    for (number, length, ends, text) in &RUNS {
        let words = ["gen", *number];
        is_generated(&rt, rt.alloc(), &words, *length, *ends, &[*text])?;
    }
    Ok(())
}
