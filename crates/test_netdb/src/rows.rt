//! Words, a file and what comes of them.
use crate::calls::{Case, NO_TOP, NOTHING, OK, USAGE, WRITE, WRITE_F, Writes, check, check_file};
use crate::texts::{
    COUNTER_FRONT, COUNTER_ITEMS, COUNTER_PINS, COUNTER_TEXT, HEAD, INVERTER, INVERTER_TEXT, LIB,
    NAMES, NAMES_TEXT, NOTED, NOTED_ITEMS, THROUGH, THROUGH_ITEMS,
};
use std::alloc::{AllocError, Global};
use std::process::Abort;
use std::sync::Wait;
use std::test::Fail;
use std::thread::Threads;
use test_texts::{COUNTER, EMPTY};

/// The pieces of a file, and what is written of it.
static WRITTEN: [(&[&str], &str); 7] = [
    (&[HEAD, ")"], EMPTY),
    (&[HEAD, " (comment \"c\"))"], EMPTY),
    (
        &[
            "(EDIF e (EdifVersion 2 0 0) (ediflevel 0) (KEYWORDMAP (keywordlevel 0)) (status (written (timeStamp 2020 01 01 12 00 00) (program \"p\" (version \"1\")))) (comment \"c\") (userData x (anything 1)))",
        ],
        EMPTY,
    ),
    (&[HEAD, INVERTER], INVERTER_TEXT),
    (&[HEAD, LIB, NAMES], NAMES_TEXT),
    (&[COUNTER], COUNTER_TEXT),
    (&[COUNTER_TEXT], COUNTER_TEXT),
];

#[test]
fn files_are_written(rt: HostRuntime) -> Result<(), Fail> {
    for (file, text) in &WRITTEN {
        let writes = Writes::All(&[*text]);
        check_file(&rt, rt.alloc(), *file, &WRITE_F, OK, writes)?;
    }
    Ok(())
}

/// What follows the name of a cell without contents and without ports.
const LEAF: &str = " (cellType GENERIC) (view v (viewType NETLIST) (interface)))";

/// A cell with an instance, up to the name of its view.
const PLACING: &str =
    " (cell t (cellType GENERIC) (view v (viewType NETLIST) (interface) (contents (instance i (viewRef ";

/// A cell with a port of four bits and a net, up to the port of its end.
const JOINING: &str =
    " (cell c (cellType GENERIC) (view v (viewType NETLIST) (interface (port (array (rename d \"d[3:0]\") 4) (direction OUTPUT))) (contents (net n (joined (portRef ";

/// The pieces of a file, and what stands in what is written of it.
static NAMED: [(&[&str], &[&str]); 2] = [
    (
        &[
            HEAD,
            LIB,
            " (cell a",
            LEAF,
            " (cell A",
            LEAF,
            " (cell b",
            LEAF,
            PLACING,
            "v (cellRef a))) (instance j (viewRef V (cellRef B))))))))",
        ],
        &[
            "(instance i (viewRef v (cellRef a (libraryRef w))))",
            "(instance j (viewRef v (cellRef b (libraryRef w))))",
        ],
    ),
    (
        &[HEAD, LIB, JOINING, "(member d 3)))))))))"],
        &["(net n (joined (portRef (member d 3))))"],
    ),
];

#[test]
fn references_go_by_name_and_member(rt: HostRuntime) -> Result<(), Fail> {
    for (file, pieces) in &NAMED {
        check_file(&rt, rt.alloc(), *file, &WRITE_F, OK, Writes::Each(*pieces))?;
    }
    Ok(())
}

/// Checks that a file has one of these faults.
pub fn is_bad<R: Abort + Threads + Wait + Sync>(
    rt: &R,
    alloc: Global,
    file: &[&str],
    faults: &[&str],
) -> Result<(), Fail> {
    check_file(rt, alloc, file, &WRITE_F, faults, NOTHING)
}

/// The pieces of a file, and its fault. Of several faults one that stands is named: the second fault of the last two files stands in
/// the file's own form, and the first one in it.
static FAULTS: [(&[&str], &[&str]); 16] = [
    (
        &[
            HEAD,
            LIB,
            " (cell ab",
            LEAF,
            " (cell aB",
            LEAF,
            PLACING,
            "v (cellRef AB))))))))",
        ],
        &["6 Ambiguous at 356"],
    ),
    (
        &[HEAD, LIB, JOINING, "(member d 4)))))))))"],
        &["6 BadIndex at 276"],
    ),
    (&[HEAD, LIB, JOINING, "d))))))))"], &["6 WholeArray at 266"]),
    (
        &[HEAD, LIB, PLACING, "v (cellRef z)))))) (cell z", LEAF, "))"],
        &["6 Unresolved at 218"],
    ),
    (
        &[HEAD, LIB, PLACING, "v (cellRef t)))))) (cell z", LEAF, "))"],
        &["6 Unresolved at 218"],
    ),
    (&[HEAD], &["6 Unended at 71"]),
    (&[HEAD, " (comment \"x"], &["6 BadString at 81"]),
    (&[HEAD, ") (comment \"y\")"], &["6 Trailing at 73"]),
    (&[HEAD, "))"], &["6 ExtraClose at 72"]),
    (&[HEAD, ")) 9x"], &["6 BadNumber at 74"]),
    (&[HEAD, " 99999999999999999999)"], &["6 BadNumber at 72"]),
    (&[HEAD, " (comment \"%256%\"))"], &["6 BadEscape at 82"]),
    (&[], &["6 Unended at 0"]),
    (&["(foo)"], &["6 NotInProfile foo at 0"]),
    (
        &["(edif e (edifVersion 2 0 0) (keywordMap (keywordLevel 0)))"],
        &["6 BadForm at 28", "6 BadForm at 0"],
    ),
    (
        &["(edif e (edifLevel 0))"],
        &["6 BadForm at 8", "6 BadForm at 0"],
    ),
];

#[test]
fn files_have_their_faults(rt: HostRuntime) -> Result<(), Fail> {
    for (file, faults) in &FAULTS {
        is_bad(&rt, rt.alloc(), file, faults)?;
    }
    Ok(())
}

/// The pieces of a file with so many forms, one in another.
fn nested<'a>(alloc: Global, levels: u32) -> Result<Vec<&'a str>, AllocError> {
    let mut pieces = vec![in alloc; HEAD, " (userData x "]?;
    for _ in 0..levels {
        pieces.push("(a ")?;
    }
    for _ in 0..levels {
        pieces.push(")")?;
    }
    pieces.push("))")?;
    Ok(pieces)
}

/// Checks that a file with 254 forms one in another is written.
fn is_written_at_254<R: Abort + Threads + Wait + Sync>(rt: &R, alloc: Global) -> Result<(), Fail> {
    let pieces = nested(alloc, 254)?;
    check_file(rt, alloc, &pieces, &WRITE_F, OK, Writes::All(&[EMPTY]))
}

/// Checks that a file with 255 forms one in another is too deep.
fn is_too_deep_at_255<R: Abort + Threads + Wait + Sync>(rt: &R, alloc: Global) -> Result<(), Fail> {
    let pieces = nested(alloc, 255)?;
    is_bad(rt, alloc, &pieces, &["6 TooDeep at 846"])
}

#[test]
fn forms_nest_up_to_a_limit(rt: HostRuntime) -> Result<(), Fail> {
    is_written_at_254(&rt, rt.alloc())?;
    is_too_deep_at_255(&rt, rt.alloc())
}

/// A file, words about it, and what is written of it, or that the words are none.
static FLATTENED: [(&str, &[&str], &[&str], &[&str]); 9] = [
    (THROUGH, &["flat", "F"], OK, &[THROUGH_ITEMS]),
    (NOTED, &["flat", "F"], OK, &[NOTED_ITEMS]),
    (COUNTER, &["flat", "F"], OK, &[COUNTER_ITEMS]),
    (COUNTER, &["flat", "F", "limit", "2"], OK, &[COUNTER_FRONT]),
    (COUNTER, &["flat", "F", "limit", "14"], OK, &[COUNTER_ITEMS]),
    (
        COUNTER,
        &["flat", "F", "limit", "4294967295"],
        OK,
        &[COUNTER_ITEMS],
    ),
    (COUNTER, &["flat", "F", "limit", "4294967296"], USAGE, &[]),
    (COUNTER, &["flat", "F", "limit", "02"], USAGE, &[]),
    (COUNTER, &["csv", "F"], OK, &[COUNTER_PINS]),
];

#[test]
fn designs_are_flattened(rt: HostRuntime) -> Result<(), Fail> {
    for (file, words, ends, pieces) in &FLATTENED {
        let writes = Writes::All(*pieces);
        check_file(&rt, rt.alloc(), &[*file], *words, *ends, writes)?;
    }
    Ok(())
}

const READ_FAULT: &[&str] = &["4 ReadFault { word: 1 }"];

const WRITE_FAULT: &[&str] = &["5 WriteFault"];

/// The words that write a file that is not there.
const MISSING: [&str; 2] = ["write", "nosuch"];

/// A file without a library.
const PLAIN: [&str; 2] = [HEAD, ")"];

/// `write F` on a file without a library, where something is in the way.
const REFUSED: Case<'static> = Case {
    files: &[("F", &PLAIN)],
    ..WRITE
};

static REFUSALS: [Case; 11] = [
    Case {
        words: &[],
        ends: USAGE,
        ..REFUSED
    },
    Case {
        words: &["write"],
        ends: USAGE,
        ..REFUSED
    },
    Case {
        words: &["flat", "F", "limit", "0"],
        ends: USAGE,
        ..REFUSED
    },
    Case {
        words: &MISSING,
        ends: &["3 Missing { word: 1 }"],
        ..REFUSED
    },
    Case {
        words: &MISSING,
        failing: &[1],
        ends: READ_FAULT,
        ..REFUSED
    },
    Case {
        failing: &[2],
        ends: READ_FAULT,
        ..REFUSED
    },
    Case {
        words: &["flat", "F"],
        failing: &[2],
        ends: READ_FAULT,
        ..REFUSED
    },
    Case {
        length: Some(10),
        ends: WRITE_FAULT,
        writes: Writes::All(&["(edif e\n ("]),
        ..REFUSED
    },
    Case {
        words: &["flat", "F"],
        ends: NO_TOP,
        ..REFUSED
    },
    Case {
        words: &["csv", "F"],
        ends: NO_TOP,
        ..REFUSED
    },
    Case {
        files: &[("F", &[COUNTER])],
        length: Some(10),
        ends: WRITE_FAULT,
        writes: Writes::All(&["(edif coun"]),
        ..WRITE
    },
];

#[test]
fn refusals_have_their_causes(rt: HostRuntime) -> Result<(), Fail> {
    for case in &REFUSALS {
        check(&rt, rt.alloc(), case)?;
    }
    Ok(())
}

const BLANKS: &str = "                                                                ";

/// A MiB of blanks.
fn mib(alloc: Global) -> Result<String, AllocError> {
    let mut made = String::new(alloc);
    for _ in 0..16_384 {
        made.push_str(BLANKS)?;
    }
    Ok(made)
}

/// Such a block 128 times, and one blank more than a design file may have bytes.
fn too_many<'a>(alloc: Global, block: &'a str) -> Result<Vec<&'a str>, AllocError> {
    let mut pieces = Vec::new(alloc);
    for _ in 0..128 {
        pieces.push(block)?;
    }
    pieces.push(" ")?;
    Ok(pieces)
}

const TOO_LARGE: &[&str] = &["8 TooLarge { word: 1 }"];

/// Checks that a file of so many blocks and a blank is too large.
fn is_too_large<R: Abort + Threads + Wait + Sync>(
    rt: &R,
    alloc: Global,
    block: &str,
) -> Result<(), Fail> {
    let pieces = too_many(alloc, block)?;
    check_file(rt, alloc, &pieces, &WRITE_F, TOO_LARGE, NOTHING)
}

#[test]
fn a_file_has_at_most_128_mib(rt: HostRuntime) -> Result<(), Fail> {
    let block = mib(rt.alloc())?;
    assert!(rt; block.len() == 1_048_576);
    is_too_large(&rt, rt.alloc(), &block)
}
