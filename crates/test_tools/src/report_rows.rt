//! Reports and what a check answers of them.
use crate::report_texts::{
    BUFFER, ENDS_REPORT, GLANCE, LOOK, MARK, SPELLED, STAGES, STAGES_REPORT, UNFINISHED, WANTING,
};
use history_check::{CheckError, Verdict, check_report};
use netlist_schema::Row;
use script_lang::{Script, parse};
use std::alloc::Global;
use std::process::Abort;
use std::str;
use std::test::Fail;
use test_text_designs::design_of;
use test_texts::{EMPTY, FIRST, JOINT_REPORT, PAIR, RENUMBERED, RETRIED_REPORT, SECOND, WALKING};

/// The most bytes of a script.
const MOST_BYTES: usize = 262_144;

const THREE: &[&str] = &[FIRST, SECOND, WALKING];

/// A design and scripts.
struct Run {
    design: &'static str,
    scripts: &'static [&'static str],
}

static JOINT: Run = Run {
    design: PAIR,
    scripts: THREE,
};

static RETRIED: Run = Run {
    design: PAIR,
    scripts: &[
        "begin retry 1\nset-prop w A cell K int 1\ncommit\n",
        "begin retry 1\nset-prop w A cell K int 2\ncommit\n",
    ],
};

static LOOKED_ON: Run = Run {
    design: STAGES,
    scripts: &[BUFFER, MARK, LOOK],
};

static ENDS: Run = Run {
    design: PAIR,
    scripts: &[SPELLED, WANTING, UNFINISHED, GLANCE, GLANCE],
};

/// The scripts of some texts.
fn scripts_of(alloc: Global, texts: &[&str]) -> Result<Row<Script>, Fail> {
    let mut scripts = Vec::new(alloc);
    for text in texts {
        if text.len() > MOST_BYTES {
            return Err(Fail::from("too long a script"));
        }
        scripts.push(parse(alloc, text.as_bytes())?)?;
    }
    Ok(Row::of(scripts))
}

/// What a check answers of a report.
fn answer(alloc: Global, run: &Run, report: &[u8]) -> Result<Result<Verdict, CheckError>, Fail> {
    let scripts = scripts_of(alloc, run.scripts)?;
    if scripts.as_slice().len() > 64 {
        return Err(Fail::from("too many scripts"));
    }
    let design = design_of(alloc, run.design.as_bytes())?;
    Ok(check_report(alloc, design, &scripts, report))
}

/// A text with another in place of the first of a part.
fn with(alloc: Global, text: &str, part: &str, other: &str) -> Result<Vec<u8>, Fail> {
    let Some((front, behind)) = text.split_once(part) else {
        return Err(Fail::from("no such part"));
    };
    let mut changed = Vec::new(alloc);
    changed.extend_from_slice(front.as_bytes())?;
    changed.extend_from_slice(other.as_bytes())?;
    changed.extend_from_slice(behind.as_bytes())?;
    Ok(changed)
}

#[test]
fn the_report_of_three_scripts_is_true(rt: HostRuntime) -> Result<(), Fail> {
    let told = answer(rt.alloc(), &JOINT, JOINT_REPORT.as_bytes())?;
    assert!(rt; matches!(told, Ok(Verdict::Yes)));
    Ok(())
}

#[test]
fn the_report_of_a_block_that_is_run_again_is_true(rt: HostRuntime) -> Result<(), Fail> {
    let told = answer(rt.alloc(), &RETRIED, RETRIED_REPORT.as_bytes())?;
    assert!(rt; matches!(told, Ok(Verdict::Yes)));
    Ok(())
}

#[test]
fn the_report_of_a_run_is_true(rt: HostRuntime) -> Result<(), Fail> {
    let told = answer(rt.alloc(), &LOOKED_ON, STAGES_REPORT.as_bytes())?;
    assert!(rt; matches!(told, Ok(Verdict::Yes)));
    Ok(())
}

#[test]
fn a_report_with_each_end_of_a_pin_is_true(rt: HostRuntime) -> Result<(), Fail> {
    let told = answer(rt.alloc(), &ENDS, ENDS_REPORT.as_bytes())?;
    assert!(rt; matches!(told, Ok(Verdict::Yes)));
    Ok(())
}

/// A part of the report of three scripts, and what stands there in one that is not true.
static CHANGES: [(&str, &str); 11] = [
    ("committed 1\n add", "committed 2\n add"),
    ("inst /a w A\n", "inst /a w A\nnet /a n / n\n"),
    ("-> done", "-> taken"),
    ("script 1\nbegin 0\ndone", "script 1\nbegin 0\ntaken"),
    ("history\n", ""),
    ("design\n", "design\n\n"),
    ("7 caller 2 release pin 0 -> released\n", ""),
    ("0 caller 2", "0 caller 1"),
    ("0 caller 2", "0 caller 3"),
    // the release of another pin, and two commits of which the first is told by the other caller
    ("4 caller 1 release pin 2", "4 caller 1 release pin 1"),
    ("3 caller 1 commit pin 2", "3 caller 0 commit pin 2"),
];

/// The same for the report with each end of a pin.
static CHANGED_ENDS: [(&str, &str); 9] = [
    ("gone 1\nno-pin", "gone 0\nno-pin"),
    ("abandoned\n", ""),
    ("a%37%b\" -> done", "a%b\" -> done"),
    ("no-version 1\nno-pin", "no-version 1\npin 5"),
    (
        "7 caller 2 release pin 1 -> released",
        "7 caller 2 commit pin 1 -> committed 2",
    ),
    ("done\nscript 3", "done\nabandoned\nscript 3"),
    (
        "3 caller 1 collect -> collected 1",
        "3 caller 1 collect -> collected 0",
    ),
    // the first event of one of two equal scripts, told by the other one
    ("8 caller 4 pin -> pin 2", "8 caller 3 pin -> pin 2"),
    // a script that gives up where the log has room
    (
        "committed 1\nscript 1\ncollected 1\n",
        "committed 1\nscript 1\nlog-full\n",
    ),
];

/// Checks that a report with another part is not true.
fn is_refused(
    rt: &impl Abort,
    alloc: Global,
    run: &Run,
    report: &str,
    change: (&str, &str),
) -> Result<(), Fail> {
    let changed = with(alloc, report, change.0, change.1)?;
    let told = answer(alloc, run, changed.as_slice())?;
    assert!(rt; matches!(told, Ok(Verdict::No)));
    Ok(())
}

#[test]
fn changed_reports_are_not_true(rt: HostRuntime) -> Result<(), Fail> {
    for change in &CHANGES {
        is_refused(&rt, rt.alloc(), &JOINT, JOINT_REPORT, *change)?;
    }
    for change in &CHANGED_ENDS {
        is_refused(&rt, rt.alloc(), &ENDS, ENDS_REPORT, *change)?;
    }
    Ok(())
}

/// The events of two equal scripts, told the other way round.
const EQUAL_SCRIPTS: [(&str, &str); 2] = [
    (
        "8 caller 4 pin -> pin 2 version 1\n9 caller 3 pin",
        "8 caller 3 pin -> pin 2 version 1\n9 caller 4 pin",
    ),
    (
        "12 caller 4 release pin 2 -> released\n13 caller 3",
        "12 caller 3 release pin 2 -> released\n13 caller 4",
    ),
];

#[test]
fn equal_scripts_change_places(rt: HostRuntime) -> Result<(), Fail> {
    let [pins, releases] = EQUAL_SCRIPTS;
    let first = with(rt.alloc(), ENDS_REPORT, pins.0, pins.1)?;
    let first = str::from_utf8(first.as_slice())?;
    let report = with(rt.alloc(), first, releases.0, releases.1)?;
    let told = answer(rt.alloc(), &ENDS, report.as_slice())?;
    assert!(rt; matches!(told, Ok(Verdict::Yes)));
    is_refused(&rt, rt.alloc(), &ENDS, ENDS_REPORT, pins)
}

#[test]
fn a_report_without_its_last_line_feed_is_not_true(rt: HostRuntime) -> Result<(), Fail> {
    let bytes = JOINT_REPORT.as_bytes();
    if bytes.is_empty() {
        return Err(Fail::from("no report"));
    }
    let told = answer(rt.alloc(), &JOINT, &bytes[..bytes.len() - 1])?;
    assert!(rt; matches!(told, Ok(Verdict::No)));
    Ok(())
}

#[test]
fn another_history_is_true(rt: HostRuntime) -> Result<(), Fail> {
    let Some((_, behind)) = JOINT_REPORT.split_once("script 0\n") else {
        return Err(Fail::from("no transcripts"));
    };
    let mut report = Vec::new(rt.alloc());
    report.extend_from_slice(RENUMBERED.as_bytes())?;
    report.extend_from_slice(b"script 0\n")?;
    report.extend_from_slice(behind.as_bytes())?;
    let told = answer(rt.alloc(), &JOINT, report.as_slice())?;
    assert!(rt; matches!(told, Ok(Verdict::Yes)));
    Ok(())
}

#[test]
fn an_empty_report_is_not_true(rt: HostRuntime) -> Result<(), Fail> {
    let told = answer(rt.alloc(), &JOINT, b"")?;
    assert!(rt; matches!(told, Ok(Verdict::No)));
    Ok(())
}

static NO_TOP: Run = Run {
    design: EMPTY,
    scripts: &["pin\nwalk\n"],
};

#[test]
fn a_walk_wants_a_top(rt: HostRuntime) -> Result<(), Fail> {
    let told = answer(rt.alloc(), &NO_TOP, b"")?;
    assert!(rt; matches!(told, Err(CheckError::NoTop)));
    Ok(())
}

static NO_SCRIPTS: Run = Run {
    design: EMPTY,
    scripts: &[],
};

#[test]
fn a_run_of_no_scripts_is_the_design(rt: HostRuntime) -> Result<(), Fail> {
    let mut report = Vec::new(rt.alloc());
    report.extend_from_slice(b"history\ndesign\n")?;
    report.extend_from_slice(EMPTY.as_bytes())?;
    let told = answer(rt.alloc(), &NO_SCRIPTS, report.as_slice())?;
    assert!(rt; matches!(told, Ok(Verdict::Yes)));
    Ok(())
}

/// A design of 2^60 occurrences: each of its cells places the one before it twice.
fn doubled(alloc: Global) -> Result<Vec<u8>, Fail> {
    let mut text = Vec::new(alloc);
    text.extend_from_slice(DOUBLED_FRONT.as_bytes())?;
    for level in 1..61_u32 {
        let below = level - 1;
        let cell = format!(in alloc;
            "(cell C{level} (cellType GENERIC) (view v (viewType NETLIST) (interface) (contents (instance a (viewRef v (cellRef C{below}))) (instance b (viewRef v (cellRef C{below}))))))\n"
        )?;
        text.extend_from_slice(cell.as_bytes())?;
    }
    text.extend_from_slice(b") (design T (cellRef C60 (libraryRef w))))\n")?;
    Ok(text)
}

/// The front of that design, with a cell that places none.
const DOUBLED_FRONT: &str = "(edif e (edifVersion 2 0 0) (edifLevel 0) (keywordMap (keywordLevel 0))
(library w (edifLevel 0) (technology)
(cell C0 (cellType GENERIC) (view v (viewType NETLIST) (interface) (contents)))
";

/// The walk of that design, as if it had no item.
const SHORT_WALK: &str = "history
0 caller 0 pin -> pin 0 version 0
1 caller 0 release pin 0 -> released
script 0
pin 0
end
released
design
";

#[test]
fn a_short_report_of_a_large_flattening_is_not_true(rt: HostRuntime) -> Result<(), Fail> {
    let text = doubled(rt.alloc())?;
    let design = design_of(rt.alloc(), text.as_slice())?;
    let scripts = scripts_of(rt.alloc(), &[WALKING])?;
    if scripts.as_slice().len() > 64 {
        return Err(Fail::from("too many scripts"));
    }
    let told = check_report(rt.alloc(), design, &scripts, SHORT_WALK.as_bytes());
    assert!(rt; matches!(told, Ok(Verdict::No)));
    Ok(())
}
