//! Nets with an array.
use crate::calls::{Case, WRITE, Writes, check};
use crate::texts::{HEAD, LIB};
use std::test::Fail;

/// A leaf P with a port of two bits, and a top T with such a port and an instance of P, up to its net.
const PLACING: &str =
    " (cell P (cellType GENERIC) (view v (viewType NETLIST) (interface (port (array d 2) (direction INOUT))))) (cell T (cellType GENERIC) (view v (viewType NETLIST) (interface (port (array q 2) (direction INOUT))) (contents (instance a (viewRef v (cellRef P))) ";

/// What follows the net.
const BEHIND: &str = ")))) (design T (cellRef T (libraryRef w))))";

/// The net that joins both bits of both ports.
const BOTH: &str = "(net (array n 2) (joined (portRef q) (portRef d (instanceRef a))))";

/// A net of three bits.
const WIDER: &str = "(net (array n 3) (joined (portRef q) (portRef d (instanceRef a))))";

/// The file with the first net.
const FILE: [&str; 5] = [HEAD, LIB, PLACING, BOTH, BEHIND];

/// The flattening of that file.
const ITEMS: &str = "inst / w T
net / n_0_ / n_0_
net / n_1_ / n_1_
pin / q 0 / n_0_
pin / q 1 / n_1_
inst /a w P
pin /a d 0 / n_0_
pin /a d 1 / n_1_
end
";

static ROWS: [Case; 4] = [
    // An array is a row of nets.
    Case {
        files: &[("F", &FILE)],
        words: &["flat", "F"],
        writes: Writes::All(&[ITEMS]),
        ..WRITE
    },
    Case {
        files: &[("F", &FILE)],
        writes: Writes::Each(&[BOTH]),
        ..WRITE
    },
    // An end is as wide as its net.
    Case {
        files: &[("F", &[HEAD, LIB, PLACING, WIDER, BEHIND])],
        ends: &["6 BadWidth at 399"],
        ..WRITE
    },
    // A bit cut from its net leaves nets that are no row of an array.
    Case {
        files: &[("F", &FILE), ("S", &["begin\ncut w T a d 1\ncommit\n"])],
        words: &["run", "F", "S"],
        writes: Writes::Each(&[
            "(net (rename n_0_ \"n[0]\") (joined (portRef (member q 0)) (portRef (member d 0) (instanceRef a))))",
            "(net (rename n_1_ \"n[1]\") (joined (portRef (member q 1))))",
        ]),
        ..WRITE
    },
];

#[test]
fn arrays_are_rows_of_nets(rt: HostRuntime) -> Result<(), Fail> {
    for case in &ROWS {
        check(&rt, rt.alloc(), case)?;
    }
    Ok(())
}
