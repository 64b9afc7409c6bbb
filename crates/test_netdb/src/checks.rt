//! Checks of reports: true ones and false ones, and the order in which words and files are refused.
use crate::calls::{Case, File, NO_TOP, NOTHING, OK, USAGE, WRITE, Writes, check, check_files};
use crate::texts::HEAD;
use std::alloc::{AllocError, Global};
use std::process::Abort;
use std::sync::Wait;
use std::test::Fail;
use std::thread::Threads;
use test_texts::{FIRST, JOINT_REPORT, PAIR, RENUMBERED, SECOND, WALKING};

/// The pair, and the three scripts, each in one piece.
const DESIGN: &[&str] = &[PAIR];

const FIRST_SCRIPT: &[&str] = &[FIRST];

const SECOND_SCRIPT: &[&str] = &[SECOND];

const THIRD_SCRIPT: &[&str] = &[WALKING];

/// The words that check a report of three scripts.
const CHECK: [&str; 6] = ["check", "F", "R", "0", "1", "2"];

const YES: Writes<'static> = Writes::All(&["yes\n"]);

const NO: Writes<'static> = Writes::All(&["no\n"]);

/// Checks what is answered of a report of three scripts on the pair.
fn answers<'a, R: Abort + Threads + Wait + Sync>(
    rt: &R,
    alloc: Global,
    report: &'a [&'a str],
    writes: Writes<'a>,
) -> Result<(), Fail> {
    let files = [
        ("F", DESIGN),
        ("R", report),
        ("0", FIRST_SCRIPT),
        ("1", SECOND_SCRIPT),
        ("2", THIRD_SCRIPT),
    ];
    check_files(rt, alloc, &files, &CHECK, OK, writes)
}

#[test]
fn the_report_of_three_scripts_is_true(rt: HostRuntime) -> Result<(), Fail> {
    answers(&rt, rt.alloc(), &[JOINT_REPORT], YES)
}

#[test]
fn an_empty_report_is_not_true(rt: HostRuntime) -> Result<(), Fail> {
    answers(&rt, rt.alloc(), &[], NO)
}

/// The last line of the report.
const LAST_LINE: &str = " (design T (cellRef T (libraryRef w))))";

/// A part of the report, and what stands there in one that is not true: the second commit first, no last line feed, a net that nothing
/// has in the walk, a reply of a block alone, and a transcript that says less.
static CHANGES: [(&str, &str); 5] = [
    (
        "3 caller 1 commit pin 2 -> committed 1\n",
        "3 caller 1 commit pin 2 -> committed 2\n",
    ),
    (" (design T (cellRef T (libraryRef w))))\n", LAST_LINE),
    ("inst /a w A\n", "inst /a w A\nnet /a n / n\n"),
    ("script 0\nbegin 0\ndone\n", "script 0\nbegin 0\ntaken\n"),
    ("end\nreleased\n", "end\n"),
];

#[test]
fn changed_reports_are_not_true(rt: HostRuntime) -> Result<(), Fail> {
    for (part, other) in &CHANGES {
        let Some((front, behind)) = JOINT_REPORT.split_once(*part) else {
            return Err(Fail::from("no such part"));
        };
        answers(&rt, rt.alloc(), &[front, *other, behind], NO)?;
    }
    Ok(())
}

#[test]
fn another_history_is_true(rt: HostRuntime) -> Result<(), Fail> {
    let Some((_, behind)) = JOINT_REPORT.split_once("script 0\n") else {
        return Err(Fail::from("no transcripts"));
    };
    answers(&rt, rt.alloc(), &[RENUMBERED, "script 0\n", behind], YES)
}

/// The pair F, a design T without a top, its report R, a script that walks, one with a bad line, and a file that is no design.
const SHELF: &[File<'static>] = &[
    ("F", &[PAIR]),
    ("T", &[HEAD, ")"]),
    ("R", &[]),
    ("0", &[FIRST]),
    ("walk", &["pin\nwalk\n"]),
    ("bad", &["frob"]),
];

/// Words, and how the call ends. Several causes stand together in most of them.
static IN_ORDER: [(&[&str], &[&str]); 16] = [
    (&["check"], USAGE),
    (&["check", "F"], USAGE),
    (&["check", "F", "R"], USAGE),
    (
        &["check", "none", "none", "none"],
        &["3 Missing { word: 1 }"],
    ),
    (&["check", "bad", "none", "none"], &["6 NotForm at 0"]),
    (&["check", "F", "none", "0"], &["3 Missing { word: 2 }"]),
    (&["check", "F", "none", "none"], &["3 Missing { word: 2 }"]),
    (&["check", "F", "none", "bad"], &["3 Missing { word: 2 }"]),
    (&["check", "T", "none", "walk"], &["3 Missing { word: 2 }"]),
    (
        &["check", "F", "R", "none", "bad"],
        &["3 Missing { word: 3 }"],
    ),
    (
        &["check", "F", "R", "0", "none"],
        &["3 Missing { word: 4 }"],
    ),
    (
        &["check", "F", "R", "bad", "none"],
        &["7 BadScript { word: 3, line: 1 }"],
    ),
    (
        &["check", "F", "R", "0", "bad"],
        &["7 BadScript { word: 4, line: 1 }"],
    ),
    (
        &["check", "T", "R", "walk", "bad"],
        &["7 BadScript { word: 4, line: 1 }"],
    ),
    (&["check", "T", "R", "walk"], NO_TOP),
    (&["check", "T", "R", "0", "walk"], NO_TOP),
];

#[test]
fn words_and_files_are_refused_in_order(rt: HostRuntime) -> Result<(), Fail> {
    for (words, ends) in &IN_ORDER {
        check_files(&rt, rt.alloc(), SHELF, *words, *ends, NOTHING)?;
    }
    Ok(())
}

/// The check of an empty report of one script.
const ONE_SCRIPT: Case<'static> = Case {
    files: SHELF,
    words: &["check", "F", "R", "0"],
    writes: NO,
    ..WRITE
};

/// The call of the files that fails, and the word of the file that it reads: an empty file is read by two calls, another one by three.
static READS: [(u64, &[&str]); 8] = [
    (1, &["4 ReadFault { word: 1 }"]),
    (2, &["4 ReadFault { word: 1 }"]),
    (3, &["4 ReadFault { word: 1 }"]),
    (4, &["4 ReadFault { word: 2 }"]),
    (5, &["4 ReadFault { word: 2 }"]),
    (6, &["4 ReadFault { word: 3 }"]),
    (7, &["4 ReadFault { word: 3 }"]),
    (8, &["4 ReadFault { word: 3 }"]),
];

/// Checks how that check ends where this call of the files fails.
fn read_ends<'a, R: Abort + Threads + Wait + Sync>(
    rt: &R,
    alloc: Global,
    failing: &'a [u64],
    ends: &'a [&'a str],
    writes: Writes<'a>,
) -> Result<(), Fail> {
    let case = Case {
        failing,
        ends,
        writes,
        ..ONE_SCRIPT
    };
    check(rt, alloc, &case)
}

#[test]
fn each_read_fails_in_turn(rt: HostRuntime) -> Result<(), Fail> {
    for (call, ends) in &READS {
        read_ends(&rt, rt.alloc(), &[*call], *ends, NOTHING)?;
    }
    read_ends(&rt, rt.alloc(), &[9], OK, NO)
}

/// Checks how that check ends on a sink that takes so many bytes.
fn write_up_to<R: Abort + Threads + Wait + Sync>(
    rt: &R,
    alloc: Global,
    length: u64,
    ends: &[&str],
) -> Result<(), Fail> {
    let case = Case {
        length: Some(length),
        ends,
        writes: Writes::Front("no\n"),
        ..ONE_SCRIPT
    };
    check(rt, alloc, &case)
}

#[test]
fn a_sink_fails_at_each_length(rt: HostRuntime) -> Result<(), Fail> {
    for length in 0..3 {
        write_up_to(&rt, rt.alloc(), length, &["5 WriteFault"])?;
    }
    write_up_to(&rt, rt.alloc(), 3, OK)
}

/// The most bytes of a report.
const MOST_BYTES: u32 = 134_217_728;

/// The bytes of a piece.
const PIECE: u32 = 65_536;

/// A piece.
fn piece(alloc: Global) -> Result<String, AllocError> {
    let mut piece = String::new(alloc);
    for _ in 0..PIECE / 16 {
        piece.push_str("0123456789abcdef")?;
    }
    Ok(piece)
}

/// The longest report, in pieces, and so many bytes more.
fn longest<'a>(alloc: Global, piece: &'a str, more: u32) -> Result<Vec<&'a str>, AllocError> {
    let mut pieces = Vec::new(alloc);
    for _ in 0..MOST_BYTES / PIECE {
        pieces.push(piece)?;
    }
    for _ in 0..more {
        pieces.push("0")?;
    }
    Ok(pieces)
}

/// Checks that a report is refused as too large.
fn is_too_large<'a, R: Abort + Threads + Wait + Sync>(
    rt: &R,
    alloc: Global,
    report: &'a [&'a str],
) -> Result<(), Fail> {
    let files = [("F", DESIGN), ("R", report)];
    let too_large = &["8 TooLarge { word: 2 }"];
    check_files(rt, alloc, &files, &CHECK, too_large, NOTHING)
}

#[test]
fn a_report_has_at_most_128_mib(rt: HostRuntime) -> Result<(), Fail> {
    let piece = piece(rt.alloc())?;
    let pieces = longest(rt.alloc(), piece.as_str(), 0)?;
    answers(&rt, rt.alloc(), &pieces, NO)?;
    let larger = longest(rt.alloc(), piece.as_str(), 1)?;
    is_too_large(&rt, rt.alloc(), &larger)
}
