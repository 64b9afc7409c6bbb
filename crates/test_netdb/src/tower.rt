//! A tower: each cell but the lowest holds the one below it twice, so its top has 2^60 leaf occurrences.
use crate::calls::{OK, Writes, check_file, check_run};
use crate::texts::{HEAD, LIB};
use std::alloc::{AllocError, Global};
use std::process::Abort;
use std::sync::Wait;
use std::test::Fail;
use std::thread::Threads;

/// The lowest cell, a leaf.
const LOWEST: &str = " (cell c0 (cellType GENERIC) (view v (viewType NETLIST) (interface)))";

/// A cell with nothing in it.
const OTHER: &str =
    " (cell x (cellType GENERIC) (view v (viewType NETLIST) (interface) (contents)))";

/// The end of the library, and the design.
const TOP: &str = ") (design c60 (cellRef c60 (libraryRef w))))";

/// Adds the cell that holds twice the one of this number.
fn add_level(alloc: Global, below: u32, text: &mut String) -> Result<(), AllocError> {
    let number = below.wrapping_add(1);
    let level = format!(in alloc;
        " (cell c{number} (cellType GENERIC) (view v (viewType NETLIST) (interface) (contents (instance a (viewRef v (cellRef c{below}))) (instance b (viewRef v (cellRef c{below}))))))"
    )?;
    text.push_str(level.as_str())
}

/// The cells of the tower, from the lowest up.
fn levels(alloc: Global) -> Result<String, AllocError> {
    let mut text = String::from_str(alloc, LOWEST)?;
    for below in 0..60 {
        add_level(alloc, below, &mut text)?;
    }
    Ok(text)
}

/// The first ten items of its flattening.
const FRONT: &str =
    "inst / w c60\ninst /a w c59\ninst /a/a w c58\ninst /a/a/a w c57\ninst /a/a/a/a w c56\ninst /a/a/a/a/a w c55\ninst /a/a/a/a/a/a w c54\ninst /a/a/a/a/a/a/a w c53\ninst /a/a/a/a/a/a/a/a w c52\ninst /a/a/a/a/a/a/a/a/a w c51\nmore\n";

/// The words that flatten F up to ten items.
const FLAT_TEN: [&str; 4] = ["flat", "F", "limit", "10"];

/// Checks that the items begin so.
fn begins<R: Abort + Threads + Wait + Sync>(
    rt: &R,
    alloc: Global,
    levels: &str,
) -> Result<(), Fail> {
    let file = [HEAD, LIB, levels, TOP];
    check_file(rt, alloc, &file, &FLAT_TEN, OK, Writes::All(&[FRONT]))
}

#[test]
fn a_flattening_is_written_up_to_its_limit(rt: HostRuntime) -> Result<(), Fail> {
    let levels = levels(rt.alloc())?;
    begins(&rt, rt.alloc(), &levels)
}

/// Places the top of the tower in the other cell, and a cell of the tower below itself.
const PLACING: &str = "begin\nadd-inst w x t w c60\nadd-inst w c1 y w c3\ncommit\n";

/// What is replied.
const PLACED: [&str; 3] = [
    " add-inst w x t w c60 -> done\n",
    " add-inst w c1 y w c3 -> is-cyclic\n",
    "committed 1\n",
];

/// Checks that the top is placed in another cell, which looks at each cell below it once.
fn is_placed<R: Abort + Threads + Wait + Sync>(
    rt: &R,
    alloc: Global,
    levels: &str,
) -> Result<(), Fail> {
    let file = [HEAD, LIB, levels, OTHER, TOP];
    check_run(rt, alloc, &file, &[PLACING], OK, Writes::Each(&PLACED))
}

#[test]
fn the_top_is_placed_in_another_cell(rt: HostRuntime) -> Result<(), Fail> {
    let levels = levels(rt.alloc())?;
    is_placed(&rt, rt.alloc(), &levels)
}
