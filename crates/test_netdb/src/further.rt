//! The electrical check, what is used, flattening by workers, and the check of a report.
use crate::calls::{Case, NO_TOP, USAGE, WRITE, Writes, check};
use crate::texts::{COUNTER_ITEMS, HEAD, LIB, THROUGH, THROUGH_ITEMS};
use std::test::Fail;
use test_texts::{COUNTER, SPARE_USED};

/// Two gates whose outputs drive one net, which one of their inputs joins.
const CLASH: [&str; 3] = [
    HEAD,
    LIB,
    " (cell G (cellType GENERIC) (view v (viewType NETLIST) (interface (port y (direction OUTPUT)) (port a (direction INPUT))))) (cell T (cellType GENERIC) (view v (viewType NETLIST) (interface) (contents (instance g (viewRef v (cellRef G))) (instance h (viewRef v (cellRef G))) (net n (joined (portRef y (instanceRef g)) (portRef y (instanceRef h)) (portRef a (instanceRef g)))))))) (design T (cellRef T (libraryRef w))))",
];

/// A leaf that nothing uses, one that the top uses, and the top.
const SPARE: [&str; 3] = [
    HEAD,
    LIB,
    " (cell Q (cellType GENERIC) (view v (viewType NETLIST) (interface))) (cell P (cellType GENERIC) (view v (viewType NETLIST) (interface))) (cell T (cellType GENERIC) (view v (viewType NETLIST) (interface) (contents (instance a (viewRef v (cellRef P))))))) (design T (cellRef T (libraryRef w))))",
];

/// A script that moves the use.
const MOVE: &str = "begin\nadd-inst w T b w P\ndrop-inst w T a\ncommit\n";

/// The uses behind it.
const MOVED: &str = "uses\ncell w Q uses 0\ncell w P uses 1\n use w T b\ncell w T uses 0\n";

static ROWS: [Case; 20] = [
    Case {
        files: &[("F", &[COUNTER])],
        words: &["erc", "F"],
        writes: Writes::All(&["end\n"]),
        ..WRITE
    },
    Case {
        files: &[("F", &[THROUGH])],
        words: &["erc", "F"],
        writes: Writes::All(&["undriven / X\nend\n"]),
        ..WRITE
    },
    Case {
        files: &[("F", &CLASH)],
        words: &["erc", "F"],
        writes: Writes::All(&["many / n 2\nopen /h a 0\nend\n"]),
        ..WRITE
    },
    Case {
        files: &[("F", &[HEAD, ")"])],
        words: &["erc", "F"],
        ends: NO_TOP,
        ..WRITE
    },
    Case {
        files: &[("F", &SPARE)],
        words: &["write", "F", "used"],
        writes: Writes::All(&[SPARE_USED]),
        ..WRITE
    },
    Case {
        files: &[("F", &[HEAD, ")"])],
        words: &["write", "F", "used"],
        ends: NO_TOP,
        ..WRITE
    },
    Case {
        files: &[("F", &SPARE), ("S", &[MOVE])],
        words: &["uses", "F", "S"],
        writes: Writes::Each(&["history\n", MOVED]),
        ..WRITE
    },
    Case {
        files: &[("F", &SPARE)],
        words: &["uses", "F"],
        ends: USAGE,
        ..WRITE
    },
    Case {
        files: &[("F", &[THROUGH])],
        words: &["flat", "F", "workers", "1"],
        writes: Writes::All(&[THROUGH_ITEMS]),
        ..WRITE
    },
    Case {
        files: &[("F", &[THROUGH])],
        words: &["flat", "F", "workers", "3"],
        writes: Writes::All(&[THROUGH_ITEMS]),
        ..WRITE
    },
    Case {
        files: &[("F", &[COUNTER])],
        words: &["flat", "F", "workers", "2"],
        writes: Writes::All(&[COUNTER_ITEMS]),
        ..WRITE
    },
    Case {
        files: &[("F", &[COUNTER])],
        words: &["flat", "F", "workers", "64"],
        writes: Writes::All(&[COUNTER_ITEMS]),
        ..WRITE
    },
    Case {
        files: &[("F", &[COUNTER])],
        words: &["flat", "F", "workers", "0"],
        ends: USAGE,
        ..WRITE
    },
    Case {
        files: &[("F", &[COUNTER])],
        words: &["flat", "F", "workers", "65"],
        ends: USAGE,
        ..WRITE
    },
    Case {
        files: &[("F", &[HEAD, ")"])],
        words: &["flat", "F", "workers", "4"],
        ends: NO_TOP,
        ..WRITE
    },
    Case {
        files: &[("F", &SPARE), ("R", &[]), ("S", &[MOVE])],
        words: &["check", "F", "R", "S"],
        writes: Writes::All(&["no\n"]),
        ..WRITE
    },
    Case {
        files: &[("F", &SPARE), ("S", &[MOVE])],
        words: &["check", "F", "R", "S"],
        ends: &["3 Missing { word: 2 }"],
        ..WRITE
    },
    Case {
        files: &[("F", &SPARE), ("R", &[])],
        words: &["check", "F", "R", "S"],
        ends: &["3 Missing { word: 3 }"],
        ..WRITE
    },
    Case {
        files: &[("F", &SPARE), ("R", &[])],
        words: &["check", "F", "R"],
        ends: USAGE,
        ..WRITE
    },
    Case {
        files: &[("F", &[HEAD, ")"]), ("R", &[]), ("S", &["pin\nwalk\n"])],
        words: &["check", "F", "R", "S"],
        ends: NO_TOP,
        ..WRITE
    },
];

#[test]
fn further_commands_answer(rt: HostRuntime) -> Result<(), Fail> {
    for case in &ROWS {
        check(&rt, rt.alloc(), case)?;
    }
    Ok(())
}
