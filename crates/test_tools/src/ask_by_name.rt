//! Places of names.
use crate::ask_checks::asked;
use crate::ask_designs::{DEEP, EMPTY};
use ask_names::Names;
use netlist_schema::{CellId, LibId, Shown};
use std::process::Abort;
use std::test::Fail;
use test_text_designs::design_of;
use test_texts::{COUNTER, LEVELS};

/// Texts of paths with the places of their instances: the top, one step, three steps; as a script writes them, and as a flattening shows them.
static FOUND: [(&str, &[u32]); 9] = [
    ("/", &[]),
    ("u", &[0]),
    ("/u", &[0]),
    ("U", &[1]),
    ("t", &[2]),
    ("U/p", &[1, 1]),
    ("u/b10", &[0, 1]),
    ("u/b2/p", &[0, 0, 1]),
    ("/u/a_1/x", &[0, 2, 0]),
];

/// Texts that are no path of the design.
static LOST: [&str; 20] = [
    "", "u/", "/u/", "//", "//u", "u//b2", "u/B2", "T", "b2", "u/b1", "u/b100", "u/b", "t/a",
    "u/b2/p/a", "u/none", " u", "u ", "u/b2 ", "u.b2", "u\n",
];

/// A cell by the places of its library and its own.
fn cell(lib: u32, slot: u32) -> CellId {
    CellId {
        lib: LibId(lib),
        slot,
    }
}

/// Whether a text names that path, or none.
fn check_text<S: Shown + Drop>(
    rt: &impl Abort,
    names: &Names<S>,
    text: &str,
    want: Option<&[u32]>,
) -> Result<(), Fail> {
    match (names.path(text.as_bytes())?, want) {
        (Some(path), Some(steps)) => assert!(rt; path.as_slice() == steps),
        (None, None) => {}
        _ => assert!(rt; false),
    }
    Ok(())
}

#[test]
fn paths_are_found_by_their_texts(rt: HostRuntime) -> Result<(), Fail> {
    let names = Names::of(rt.alloc(), design_of(rt.alloc(), DEEP.as_bytes())?)?;
    for (text, steps) in &FOUND {
        check_text(&rt, &names, text, Some(*steps))?;
    }
    for text in &LOST {
        check_text(&rt, &names, text, None)?;
    }
    Ok(())
}

#[test]
fn without_a_top_there_is_no_path(rt: HostRuntime) -> Result<(), Fail> {
    let design = design_of(rt.alloc(), EMPTY.as_bytes())?;
    let names = Names::of(rt.alloc(), &design)?;
    check_text(&rt, &names, "/", None)?;
    check_text(&rt, &names, "u", None)?;
    assert_eq!(rt; names.inst(cell(0, 0), b"u"), None);
    Ok(())
}

#[test]
fn path_that_is_found_can_be_asked(rt: HostRuntime) -> Result<(), Fail> {
    let ask = asked(rt.alloc(), LEVELS)?;
    let names = Names::of(rt.alloc(), ask.design())?;
    let Some(path) = names.path(b"c/g")? else {
        return Ok(assert!(rt; false));
    };
    let Some(gate) = ask.at(path.as_slice()) else {
        return Ok(assert!(rt; false));
    };
    assert_eq!(rt; gate, cell(0, 0));
    assert_eq!(rt; names.port(gate, b"a"), Some(1));
    assert_eq!(rt; names.net(cell(0, 3), b"told"), Some(3));
    Ok(())
}

#[test]
fn nets_and_ports_of_arrays_go_by_identifiers(rt: HostRuntime) -> Result<(), Fail> {
    let names = Names::of(rt.alloc(), design_of(rt.alloc(), COUNTER.as_bytes())?)?;
    let counter = cell(1, 0);
    assert_eq!(rt; names.port(counter, b"clk"), Some(0));
    assert_eq!(rt; names.port(counter, b"q"), Some(1));
    assert_eq!(rt; names.port(counter, b"q[1:0]"), None);
    assert_eq!(rt; names.port(counter, b"Q"), None);
    assert_eq!(rt; names.net(counter, b"clk"), Some(0));
    assert_eq!(rt; names.net(counter, b"q_0_"), Some(1));
    assert_eq!(rt; names.net(counter, b"p_0_in"), Some(2));
    assert_eq!(rt; names.net(counter, b"q[0]"), None);
    assert_eq!(rt; names.net(counter, b"q"), None);
    assert_eq!(rt; names.inst(counter, b"q_reg_0_"), Some(0));
    assert_eq!(rt; names.inst(counter, b"q_i_1"), Some(1));
    assert_eq!(rt; names.inst(counter, b""), None);
    Ok(())
}

#[test]
fn leaf_has_ports_alone(rt: HostRuntime) -> Result<(), Fail> {
    let names = Names::of(rt.alloc(), design_of(rt.alloc(), COUNTER.as_bytes())?)?;
    assert_eq!(rt; names.port(cell(0, 1), b"D"), Some(2));
    assert_eq!(rt; names.port(cell(0, 1), b"Q"), Some(0));
    assert_eq!(rt; names.net(cell(0, 1), b"clk"), None);
    assert_eq!(rt; names.inst(cell(0, 1), b"q_i_1"), None);
    assert_eq!(rt; names.port(cell(0, 2), b"D"), None);
    assert_eq!(rt; names.port(cell(2, 0), b"D"), None);
    Ok(())
}
