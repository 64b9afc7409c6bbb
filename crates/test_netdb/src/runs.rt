//! Runs of scripts, and what comes of them.
use crate::calls::{
    ANYTHING, Case, File, NO_TOP, NOTHING, OK, RUN, USAGE, WRITE, Writes, check, check_at,
    check_files, check_run,
};
use crate::texts::{COUNTER_TEXT, HEAD};
use netdb_cli::{Status, status_text};
use netdb_outside::{Hold, HoldGate};
use netlist_schema::Row;
use std::alloc::{AllocError, Global};
use std::process::Abort;
use std::sync::Wait;
use std::test::Fail;
use std::thread::Threads;
use test_texts::{COUNTER, EMPTY, FIRST, JOINT_REPORT, PAIR, RETRIED_REPORT, SECOND, WALKING};

/// Checks a call at a gate, none of whose holds gives up.
fn passes<R: Abort + Threads + Wait + Sync>(
    rt: &R,
    alloc: Global,
    gate: &HoldGate,
    case: &Case,
) -> Result<(), Fail> {
    check_at(rt, alloc, gate, case)?;
    assert!(rt; !gate.failed());
    Ok(())
}

/// Checks a call whose callers are held.
pub fn check_held<R: Abort + Threads + Wait + Sync>(
    rt: &R,
    alloc: Global,
    holds: &[Hold],
    case: &Case,
) -> Result<(), Fail> {
    let gate = HoldGate::new(alloc, Row::of(holds.to_vec(alloc)?))?;
    passes(rt, alloc, &gate, case)
}

/// A caller at a line is held until another one is at a line.
static THREE_HOLDS: [Hold; 4] = [
    Hold {
        caller: 0,
        line: 1,
        until_caller: 2,
        until_line: 2,
    },
    Hold {
        caller: 1,
        line: 1,
        until_caller: 0,
        until_line: 2,
    },
    Hold {
        caller: 0,
        line: 3,
        until_caller: 1,
        until_line: 4,
    },
    Hold {
        caller: 2,
        line: 2,
        until_caller: 0,
        until_line: 4,
    },
];

/// The pair and three scripts.
const THREE_FILES: &[File<'static>] = &[
    ("F", &[PAIR]),
    ("0", &[FIRST]),
    ("1", &[SECOND]),
    ("2", &[WALKING]),
];

/// Three scripts at once: none passes its holds unless the others run meanwhile.
static THREE: Case<'static> = Case {
    files: THREE_FILES,
    words: &["run", "F", "0", "1", "2"],
    writes: Writes::All(&[JOINT_REPORT]),
    ..WRITE
};

#[test]
fn scripts_run_beside_each_other(rt: HostRuntime) -> Result<(), Fail> {
    check_held(&rt, rt.alloc(), &THREE_HOLDS, &THREE)
}

/// The first caller is held at the end of its block until the second one has ended.
pub static TWO_HOLDS: [Hold; 2] = [
    Hold {
        caller: 1,
        line: 1,
        until_caller: 0,
        until_line: 2,
    },
    Hold {
        caller: 0,
        line: 3,
        until_caller: 1,
        until_line: 4,
    },
];

/// The pair, and two scripts that set one property of it.
const RETRIED_FILES: &[File<'static>] = &[
    ("F", &[PAIR]),
    ("0", &["begin retry 1\nset-prop w A cell K int 1\ncommit\n"]),
    ("1", &["begin retry 1\nset-prop w A cell K int 2\ncommit\n"]),
];

/// The second to commit meets a conflict, and its block is run again.
pub static RETRIED: Case<'static> = Case {
    files: RETRIED_FILES,
    words: &["run", "F", "0", "1"],
    writes: Writes::All(&[RETRIED_REPORT]),
    ..WRITE
};

#[test]
fn a_block_is_run_again(rt: HostRuntime) -> Result<(), Fail> {
    check_held(&rt, rt.alloc(), &TWO_HOLDS, &RETRIED)
}

/// Who uses the cells of the pair, which no script changes.
const PAIR_USES: &str =
    "uses\ncell w A uses 1\n use w T a\ncell w B uses 1\n use w T b\ncell w T uses 0\n";

/// The same run, with the uses of its last version.
static RETRIED_USES: Case<'static> = Case {
    files: RETRIED_FILES,
    words: &["uses", "F", "0", "1"],
    writes: Writes::All(&[RETRIED_REPORT, PAIR_USES]),
    ..WRITE
};

#[test]
fn uses_hold_two_callers_at_the_gate(rt: HostRuntime) -> Result<(), Fail> {
    check_held(&rt, rt.alloc(), &TWO_HOLDS, &RETRIED_USES)
}

/// Three scripts at once, none of which passes its holds unless the others run meanwhile, and the uses of the last version.
static THREE_USES: Case<'static> = Case {
    files: THREE_FILES,
    words: &["uses", "F", "0", "1", "2"],
    writes: Writes::All(&[JOINT_REPORT, PAIR_USES]),
    ..WRITE
};

#[test]
fn uses_run_scripts_beside_each_other(rt: HostRuntime) -> Result<(), Fail> {
    check_held(&rt, rt.alloc(), &THREE_HOLDS, &THREE_USES)
}

const BAD_LINE_1: &[&str] = &["7 BadScript { word: 2, line: 1 }"];

const BAD_LINE_2: &[&str] = &["7 BadScript { word: 2, line: 2 }"];

/// A script, and how a run of it on the pair ends.
static FIRST_BAD_LINES: [(&str, &[&str]); 4] = [
    ("begin\nfrob", BAD_LINE_2),
    ("commit", BAD_LINE_1),
    ("begin retry 17", BAD_LINE_1),
    ("# nothing\n\n", OK),
];

/// Checks how a run of a script on the pair ends.
fn ends<R: Abort + Threads + Wait + Sync>(
    rt: &R,
    alloc: Global,
    script: &[&str],
    ends: &[&str],
) -> Result<(), Fail> {
    check_run(rt, alloc, &[PAIR], script, ends, ANYTHING)
}

#[test]
fn the_first_bad_line_is_told(rt: HostRuntime) -> Result<(), Fail> {
    for (script, status) in &FIRST_BAD_LINES {
        ends(&rt, rt.alloc(), &[*script], *status)?;
    }
    Ok(())
}

/// Words about a file F without a top, a script S and a bad script B, and how the call ends.
static IN_ORDER: [(&[&str], &[&str]); 9] = [
    (&["run", "F"], USAGE),
    (&["csv"], USAGE),
    (&["csv", "F", "S"], USAGE),
    (&["flat", "F"], NO_TOP),
    (&["csv", "F"], NO_TOP),
    (&["run", "F", "S"], NO_TOP),
    (
        &["run", "F", "S", "B"],
        &["7 BadScript { word: 3, line: 1 }"],
    ),
    (&["run", "F", "nosuch", "B"], &["3 Missing { word: 2 }"]),
    (&["run", "nosuch", "B"], &["3 Missing { word: 1 }"]),
];

/// These files.
static TOPLESS: [File<'static>; 3] = [
    ("F", &[HEAD, ")"]),
    ("S", &["pin\nwalk\n"]),
    ("B", &["frob"]),
];

#[test]
fn words_and_files_are_refused_in_order(rt: HostRuntime) -> Result<(), Fail> {
    for (words, ends) in &IN_ORDER {
        check_files(&rt, rt.alloc(), &TOPLESS, *words, *ends, NOTHING)?;
    }
    Ok(())
}

/// The words of a run of so many scripts.
fn many<'a>(alloc: Global, scripts: u32) -> Result<Vec<&'a str>, AllocError> {
    let mut words = vec![in alloc; "run", "F"]?;
    for _ in 0..scripts {
        words.push("S")?;
    }
    Ok(words)
}

/// A pair, and a script without lines.
static NO_LINES: [File<'static>; 2] = [("F", &[PAIR]), ("S", &[])];

/// Checks how a run of so many scripts without lines ends.
fn many_end<R: Abort + Threads + Wait + Sync>(
    rt: &R,
    alloc: Global,
    scripts: u32,
    ends: &[&str],
) -> Result<(), Fail> {
    let words = many(alloc, scripts)?;
    check_files(rt, alloc, &NO_LINES, &words, ends, ANYTHING)
}

#[test]
fn a_run_has_at_most_64_scripts(rt: HostRuntime) -> Result<(), Fail> {
    many_end(&rt, rt.alloc(), 64, OK)?;
    many_end(&rt, rt.alloc(), 65, USAGE)
}

/// A script of so many bytes, in pieces.
fn long<'a>(alloc: Global, bytes: u32) -> Result<Vec<&'a str>, AllocError> {
    let mut pieces = Vec::new(alloc);
    for _ in 0..bytes {
        pieces.push("#")?;
    }
    Ok(pieces)
}

/// Checks how a run of a script of so many bytes ends.
fn long_ends<R: Abort + Threads + Wait + Sync>(
    rt: &R,
    alloc: Global,
    bytes: u32,
    status: &[&str],
) -> Result<(), Fail> {
    let pieces = long(alloc, bytes)?;
    ends(rt, alloc, &pieces, status)
}

#[test]
fn a_script_has_at_most_256_kib(rt: HostRuntime) -> Result<(), Fail> {
    let too_large = &["8 TooLarge { word: 2 }"];
    long_ends(&rt, rt.alloc(), 262_144, OK)?;
    long_ends(&rt, rt.alloc(), 262_145, too_large)
}

const DESIGN_FAULT: &[&str] = &["4 ReadFault { word: 1 }"];

const SCRIPT_FAULT: &[&str] = &["4 ReadFault { word: 2 }"];

/// The call of the files that fails, and the status: three read the design file, and three the script.
static READS: [(u64, &[&str]); 6] = [
    (1, DESIGN_FAULT),
    (2, DESIGN_FAULT),
    (3, DESIGN_FAULT),
    (4, SCRIPT_FAULT),
    (5, SCRIPT_FAULT),
    (6, SCRIPT_FAULT),
];

/// A run whose files fail at no call.
const FIRST_RUN: Case<'static> = Case {
    files: &[("F", &[PAIR]), ("S", &[FIRST])],
    words: &RUN,
    ..WRITE
};

/// Checks how that run ends where these calls of the files fail.
fn read_ends<'a, R: Abort + Threads + Wait + Sync>(
    rt: &R,
    alloc: Global,
    failing: &'a [u64],
    ends: &'a [&'a str],
) -> Result<(), Fail> {
    let case = Case {
        failing,
        ends,
        ..FIRST_RUN
    };
    check(rt, alloc, &case)
}

#[test]
fn each_read_fails_in_turn(rt: HostRuntime) -> Result<(), Fail> {
    for (call, ends) in &READS {
        read_ends(&rt, rt.alloc(), &[*call], *ends)?;
    }
    Ok(())
}

/// Six calls read both files.
static SEVENTH_FAILS: Case<'static> = Case {
    failing: &[7],
    writes: Writes::Each(&["history\n"]),
    ..FIRST_RUN
};

#[test]
fn a_seventh_read_is_not_made(rt: HostRuntime) -> Result<(), Fail> {
    check(&rt, rt.alloc(), &SEVENTH_FAILS)
}

/// `write F` on the counter.
const CUT: Case<'static> = Case {
    files: &[("F", &[COUNTER])],
    writes: Writes::Front(COUNTER_TEXT),
    ..WRITE
};

/// Checks how `write` on the counter ends, with a sink of this length, which takes so much of its text.
fn write_up_to<R: Abort + Threads + Wait + Sync>(
    rt: &R,
    alloc: Global,
    length: u64,
    ends: &[&str],
) -> Result<(), Fail> {
    let case = Case {
        length: Some(length),
        ends,
        ..CUT
    };
    check(rt, alloc, &case)
}

#[test]
fn a_sink_fails_at_each_length(rt: HostRuntime) -> Result<(), Fail> {
    let whole = COUNTER_TEXT.len() as u64;
    for length in 0..whole {
        write_up_to(&rt, rt.alloc(), length, &["5 WriteFault"])?;
    }
    write_up_to(&rt, rt.alloc(), whole, OK)
}

/// A script without lines leaves the design as it is.
static WITHOUT_LINES: Case<'static> = Case {
    files: &[("F", &[HEAD, ")"]), ("S", &[])],
    words: &RUN,
    writes: Writes::All(&["history\nscript 0\ndesign\n", EMPTY]),
    ..WRITE
};

#[test]
fn an_empty_run_writes_the_design(rt: HostRuntime) -> Result<(), Fail> {
    check(&rt, rt.alloc(), &WITHOUT_LINES)
}

/// Checks the number of a status, the word that it is about, and its text.
fn is_told(
    rt: &impl Abort,
    alloc: Global,
    status: &Status,
    numbers: (u8, Option<u32>),
    want: &str,
) -> Result<(), Fail> {
    let text = status_text(alloc, status)?;
    let told = text.as_slice() == want.as_bytes();
    assert!(rt;
        told && numbers == (status.number(), status.word()),
        "{status:?}"
    );
    Ok(())
}

#[test]
fn statuses_are_told(rt: HostRuntime) -> Result<(), Fail> {
    let bad = Status::BadScript { word: 2, line: 17 };
    is_told(&rt, rt.alloc(), &bad, (7, Some(2)), "bad script at line 17")?;
    is_told(&rt, rt.alloc(), &Status::LogFull, (10, None), "log full")?;
    is_told(&rt, rt.alloc(), &Status::NoMemory, (11, None), "no memory")
}
