//! Files, and the designs that they mean or what is wrong with them.
use crate::checks::{holds, same};
use crate::trees::tree_of;
use edif_build::{EdifError, MeaningFault, read_design};
use edif_tree::Tree;
use edif_writer::write_design;
use netdb_outside::MemSink;
use netlist_schema::{Design, Ident, LibId, Shown};
use std::alloc::{AllocError, Global};
use std::process::Abort;
use std::test::Fail;

/// A keyword of no form, in words.
fn told_keyword(alloc: Global, keyword: &Ident, place: u64) -> Result<String, AllocError> {
    let keyword = String::from_utf8_lossy(alloc, keyword.as_slice())?;
    format!(in alloc; "not in profile {keyword} {place};")
}

/// A fault in a few words, with the places of what is wrong, counted from `start` on.
fn told_fault(alloc: Global, fault: &MeaningFault, start: u64) -> Result<String, AllocError> {
    match fault {
        MeaningFault::NotInProfile { keyword, place } => {
            told_keyword(alloc, keyword, place.wrapping_sub(start))
        }
        MeaningFault::At { kind, place } => {
            format!(in alloc; "{kind:?} {};", place.wrapping_sub(start))
        }
        MeaningFault::Clash {
            kind,
            place,
            earlier,
        } => {
            let (place, earlier) = (place.wrapping_sub(start), earlier.wrapping_sub(start));
            format!(in alloc; "{kind:?} {place} {earlier};")
        }
        MeaningFault::OverLimit { limit, place } => {
            format!(in alloc; "over {limit} {};", place.wrapping_sub(start))
        }
    }
}

fn told(alloc: Global, error: &EdifError, start: u64) -> Result<String, AllocError> {
    match error {
        EdifError::NoMemory => String::from_str(alloc, "no memory"),
        EdifError::Fault(fault) => told_fault(alloc, fault, start),
    }
}

/// Writes a design into a sink, and gives the text.
fn written_to(alloc: Global, design: &Design, out: &mut MemSink) -> Result<String, Fail> {
    write_design(alloc, design, out)?;
    Ok(String::from_utf8_lossy(alloc, out.written())?)
}

fn written(alloc: Global, design: &Design) -> Result<String, Fail> {
    let mut out = MemSink::new(alloc, None);
    written_to(alloc, design, &mut out)
}

/// What is written of the design that a tree means, or what is wrong with it, its places counted from `start` on.
fn answer_of(alloc: Global, tree: &Tree, start: u64) -> Result<String, Fail> {
    match read_design(alloc, tree) {
        Ok(design) => written(alloc, &design),
        Err(error) => Ok(told(alloc, &error, start)?),
    }
}

/// The same of a text.
fn answer(alloc: Global, text: &str, start: usize) -> Result<String, Fail> {
    let tree = tree_of(alloc, text)?;
    answer_of(alloc, &tree, start as u64)
}

/// Whether a piece stands in a text.
fn has(text: &str, piece: &str) -> bool {
    piece.is_empty()
        || text
            .as_bytes()
            .windows(piece.len())
            .any(|part| part == piece.as_bytes())
}

/// The answer to the file that has a piece between `front` and `back`. Places are counted from the piece on.
fn answer_between(alloc: Global, front: &str, piece: &str, back: &str) -> Result<String, Fail> {
    let text = format!(in alloc; "{front}{piece}{back}")?;
    answer(alloc, &text, front.len())
}

/// Checks that what is wanted stands in the answer to a piece.
fn check(
    rt: &impl Abort,
    alloc: Global,
    front: &str,
    back: &str,
    case: &(&str, &str),
) -> Result<(), Fail> {
    let answer = answer_between(alloc, front, case.0, back)?;
    holds(rt, has(&answer, case.1), case.0, &answer);
    Ok(())
}

fn check_all(
    rt: &impl Abort,
    alloc: Global,
    front: &str,
    back: &str,
    cases: &[(&str, &str)],
) -> Result<(), Fail> {
    for case in cases {
        check(rt, alloc, front, back, case)?;
    }
    Ok(())
}

/// The front of a file, up to what follows its head.
const BEHIND_HEAD: &str =
    "(edif e (edifVersion 2 0 0) (edifLevel 0) (keywordMap (keywordLevel 0)) ";

/// What follows the head of a file, and what is written of it or wrong with it. References among eight names and among nine stand beside
/// each other, since up to eight are compared one by one and more are looked up in tables.
static FAULTS: [(&str, &str); 18] = [
    (
        "(library w (edifLevel 0) (technology) (cell c (cellType GENERIC) (view v (viewType NETLIST) (interface)))) (library w (edifLevel 0) (technology))",
        "Duplicate 116 9;",
    ),
    (
        "(library w (edifLevel 0) (technology) (cell c (cellType GENERIC) (view v (viewType NETLIST) (interface))) (cell d (cellType GENERIC) (view v (viewType NETLIST) (interface))) (cell c (cellType GENERIC) (view v (viewType NETLIST) (interface))))",
        "Duplicate 180 44;",
    ),
    (
        "(library w (edifLevel 0) (technology) (cell c (cellType TIE) (view v (viewType NETLIST) (interface)) (view u (viewType NETLIST) (interface))))",
        "SecondView 101 61;",
    ),
    (
        "(library w (edifLevel 0) (technology) (cell c (cellType GENERIC) (view v (viewType SCHEMATIC) (interface))))",
        "NotNetlist 83;",
    ),
    (
        "(library w (edifLevel 0) (technology) (cell c (cellType OTHER)))",
        "BadForm 38;",
    ),
    (
        "(library w (edifLevel 0) (technology) (cell c (cellType GENERIC) (view v (viewType NETLIST) (interface) (contents (instance i (viewRef v (cellRef d)))))) (cell d (cellType GENERIC) (view v (viewType NETLIST) (interface))))",
        "Unresolved 146;",
    ),
    (
        "(design t (cellRef c (libraryRef w))) (library w (edifLevel 0) (technology) (cell c (cellType GENERIC) (view v (viewType NETLIST) (interface))))",
        "Unresolved 33;",
    ),
    (
        "(library w (edifLevel 0) (technology) (cell c (cellType GENERIC) (view v (viewType NETLIST) (interface)))) (design t (cellRef c (libraryRef w))) (design t (cellRef c (libraryRef w)))",
        "SecondDesign 145 107;",
    ),
    (
        "(library w (edifLevel 0) (technology) (cell c (cellType GENERIC) (view v (viewType NETLIST) (interface))) (cell t (cellType GENERIC) (view v (viewType NETLIST) (interface) (contents (instance ab (viewRef v (cellRef c))) (instance aB (viewRef v (cellRef c))))))) (design t (cellRef t (libraryRef w)) (userData netdb_note (path) (property k (integer 1))))",
        "BadPath 320;",
    ),
    (
        "(library w (edifLevel 0) (technology) (cell c (cellType GENERIC) (view v (viewType NETLIST) (interface))) (cell t (cellType GENERIC) (view v (viewType NETLIST) (interface) (contents (instance ab (viewRef v (cellRef c))) (instance aB (viewRef v (cellRef c))))))) (design t (cellRef t (libraryRef w)) (userData netdb_note (path AB) (property k (integer 1))))",
        "BadPath 326;",
    ),
    (
        "(library w (edifLevel 0) (technology) (cell c (cellType GENERIC) (view v (viewType NETLIST) (interface))) (cell t (cellType GENERIC) (view v (viewType NETLIST) (interface) (contents (instance ab (viewRef v (cellRef c))) (instance aB (viewRef v (cellRef c))))))) (design t (cellRef t (libraryRef w)) (userData netdb_note (path ab) (property k (integer 1))) (userData netdb_note (path aB) (property k (integer 1))) (userData netdb_note (path ab) (property k (integer 1))))",
        "Duplicate 454 340;",
    ),
    (
        "(library w (edifLevel 0) (technology) (cell c (cellType GENERIC) (view v (viewType NETLIST) (interface (port p)))) (cell t (cellType GENERIC) (view v (viewType NETLIST) (interface) (contents (instance ab (viewRef v (cellRef c))) (instance aB (viewRef v (cellRef c))) (instance i0 (viewRef v (cellRef c))) (instance i1 (viewRef v (cellRef c))) (instance i2 (viewRef v (cellRef c))) (instance i3 (viewRef v (cellRef c))) (instance i4 (viewRef v (cellRef c))) (instance i5 (viewRef v (cellRef c))) (net n (joined (portRef p (instanceRef AB))))))))",
        "Ambiguous 534;",
    ),
    (
        "(library w (edifLevel 0) (technology) (cell c (cellType GENERIC) (view v (viewType NETLIST) (interface (port p)))) (cell t (cellType GENERIC) (view v (viewType NETLIST) (interface) (contents (instance ab (viewRef v (cellRef c))) (instance aB (viewRef v (cellRef c))) (instance i0 (viewRef v (cellRef c))) (instance i1 (viewRef v (cellRef c))) (instance i2 (viewRef v (cellRef c))) (instance i3 (viewRef v (cellRef c))) (instance i4 (viewRef v (cellRef c))) (instance i5 (viewRef v (cellRef c))) (instance i6 (viewRef v (cellRef c))) (net n (joined (portRef p (instanceRef AB))))))))",
        "Ambiguous 572;",
    ),
    (
        "(library w (edifLevel 0) (technology) (cell c (cellType GENERIC) (view v (viewType NETLIST) (interface (port p)))) (cell t (cellType GENERIC) (view v (viewType NETLIST) (interface) (contents (instance ab (viewRef v (cellRef c))) (instance aB (viewRef v (cellRef c))) (instance i0 (viewRef v (cellRef c))) (instance i1 (viewRef v (cellRef c))) (instance i2 (viewRef v (cellRef c))) (instance i3 (viewRef v (cellRef c))) (instance i4 (viewRef v (cellRef c))) (instance i5 (viewRef v (cellRef c))) (net n (joined (portRef p (instanceRef I5))))))))",
        "(portRef p (instanceRef i5))",
    ),
    (
        "(library w (edifLevel 0) (technology) (cell c (cellType GENERIC) (view v (viewType NETLIST) (interface (port p)))) (cell t (cellType GENERIC) (view v (viewType NETLIST) (interface) (contents (instance ab (viewRef v (cellRef c))) (instance aB (viewRef v (cellRef c))) (instance i0 (viewRef v (cellRef c))) (instance i1 (viewRef v (cellRef c))) (instance i2 (viewRef v (cellRef c))) (instance i3 (viewRef v (cellRef c))) (instance i4 (viewRef v (cellRef c))) (instance i5 (viewRef v (cellRef c))) (instance i6 (viewRef v (cellRef c))) (net n (joined (portRef p (instanceRef I6))))))))",
        "(portRef p (instanceRef i6))",
    ),
    (
        "(library w (edifLevel 0) (technology) (cell c (cellType GENERIC) (view v (viewType NETLIST) (interface (port p)))) (cell t (cellType GENERIC) (view v (viewType NETLIST) (interface) (contents (instance ab (viewRef v (cellRef c))) (instance aB (viewRef v (cellRef c))) (instance i0 (viewRef v (cellRef c))) (instance i1 (viewRef v (cellRef c))) (instance i2 (viewRef v (cellRef c))) (instance i3 (viewRef v (cellRef c))) (instance i4 (viewRef v (cellRef c))) (instance i5 (viewRef v (cellRef c))) (instance i6 (viewRef v (cellRef c))) (net n (joined (portRef p (instanceRef I7))))))))",
        "Unresolved 572;",
    ),
    (
        "(library w (edifLevel 0) (technology) (cell c (cellType GENERIC) (view v (viewType NETLIST) (interface (port p)))) (cell t (cellType GENERIC) (view v (viewType NETLIST) (interface) (contents (instance ab (viewRef v (cellRef c))) (instance aB (viewRef v (cellRef c))) (instance i0 (viewRef v (cellRef c))) (instance i1 (viewRef v (cellRef c))) (instance i2 (viewRef v (cellRef c))) (instance i3 (viewRef v (cellRef c))) (instance i4 (viewRef v (cellRef c))) (instance i5 (viewRef v (cellRef c))) (instance i6 (viewRef v (cellRef c))) (instance ab (viewRef v (cellRef c)))))))",
        "Duplicate 543 201;",
    ),
    ("(port p)", "not in profile port 0;"),
];

/// Interfaces, and what is written of them or wrong with them.
static INTERFACES: [(&str, &str); 17] = [
    ("(interface)", "(interface)"),
    (
        "(interface (port a (direction INPUT)) (property p (integer 1)) (port A (direction output) (designator \"7\")) (comment \"c\"))",
        "(interface\n     (port a (direction INPUT))\n     (port A (direction OUTPUT) (designator \"7\"))\n     (property p (integer 1)))",
    ),
    (
        "(Interface (Port (Array (rename d \"d[0:7]\") 8) (property q (string \"v\")) (direction InOut)) (userData u))",
        "(port (array (rename d \"d[0:7]\") 8) (direction INOUT) (property q (string \"v\")))",
    ),
    ("(interface (port a) (port b) (port a))", "Duplicate 35 17;"),
    ("(interface (port (array a 0)))", "BadIndex 26;"),
    ("(interface (port (array a -1)))", "BadIndex 26;"),
    ("(interface (port (array a 65537)))", "BadIndex 26;"),
    ("(interface (port a (direction IN)))", "BadForm 30;"),
    (
        "(interface (port a (direction INPUT) (direction INPUT)))",
        "BadForm 37;",
    ),
    ("(interface (port 5))", "BadForm 17;"),
    ("(interface (net n (joined)))", "not in profile net 11;"),
    (
        "(interface (property p (integer 1)) (port p) (property p (integer 2)))",
        "Duplicate 55 21;",
    ),
    (
        "(interface (port (ReName d_3 \"d[3]\")))",
        "(port (rename d_3 \"d[3]\"))",
    ),
    ("(interface (port (rename a)))", "BadForm 17;"),
    ("(interface (port (rename a \"A\" b)))", "BadForm 31;"),
    ("(interface (port (rename \"A\" \"A\")))", "BadForm 25;"),
    (
        "(interface (port (rename (foo) \"A\")))",
        "not in profile foo 25;",
    ),
];

/// Properties of a view, and what is written of them or wrong with them.
static PROPERTIES: [(&str, &str); 11] = [
    (
        "(property a (integer -5)) (comment) (PROPERTY (rename b \"B\") (string \"s\") (owner \"o\"))",
        "(property a (integer -5))\n    (property (rename b \"B\") (string \"s\") (owner \"o\"))",
    ),
    (
        "(property a (boolean (true))) (property b (boolean (FALSE)))",
        "(property a (boolean (true)))\n    (property b (boolean (false)))",
    ),
    (
        "(property a (number 7)) (property A (number (e -15 -3)))",
        "(property a (number 7))\n    (property A (number (e -15 -3)))",
    ),
    (
        "(property a (number (e 1 2147483647)))",
        "(property a (number (e 1 2147483647)))",
    ),
    ("(property a (number (e 1 2147483648)))", "BadForm 25;"),
    (
        "(property a (integer 1)) (property b (integer 1)) (property a (integer 2))",
        "Duplicate 60 10;",
    ),
    (
        "(property a (integer 1) (owner \"o\") (owner \"p\"))",
        "BadForm 36;",
    ),
    ("(property a)", "BadForm 0;"),
    ("(property a 5)", "BadForm 12;"),
    ("(property a (integer \"5\"))", "BadForm 21;"),
    ("(property a (boolean (e 1 2)))", "not in profile e 21;"),
];

/// Whole files, and what is wrong with them.
static WHOLE: [(&str, &str); 5] = [
    (
        "(edif f (edifVersion 2 0 1) (edifLevel 0) (keywordMap (keywordLevel 0)))",
        "BadVersion 25;",
    ),
    (
        "(edif f (edifVersion 2 0 0) (edifLevel x) (keywordMap (keywordLevel 0)))",
        "BadLevel 39;",
    ),
    (
        "(edif f (edifVersion 2 0 0) (edifLevel 0) (keywordMap (keywordLevel 3)))",
        "BadLevel 68;",
    ),
    ("(view v)", "not in profile view 0;"),
    ("(foo)", "not in profile foo 0;"),
];

/// The front of a file, up to the parts of a view.
const VIEW: &str =
    "(edif e (edifVersion 2 0 0) (edifLevel 0) (keywordMap (keywordLevel 0)) (library w (edifLevel 0) (technology) (cell c (cellType GENERIC) (view v (viewType NETLIST) ";

/// The front of a file, up to the properties of a view.
const PROPERTIES_OF_VIEW: &str =
    "(edif e (edifVersion 2 0 0) (edifLevel 0) (keywordMap (keywordLevel 0)) (library w (edifLevel 0) (technology) (cell c (cellType GENERIC) (view v (viewType NETLIST) (interface) ";

#[test]
fn files_have_their_faults(rt: HostRuntime) -> Result<(), Fail> {
    check_all(&rt, rt.alloc(), BEHIND_HEAD, ")", &FAULTS)?;
    check_all(&rt, rt.alloc(), "", "", &WHOLE)
}

#[test]
fn parts_of_cells_are_read(rt: HostRuntime) -> Result<(), Fail> {
    check_all(&rt, rt.alloc(), VIEW, "))))", &INTERFACES)?;
    check_all(&rt, rt.alloc(), PROPERTIES_OF_VIEW, "))))", &PROPERTIES)
}

/// The front of a file, up to the ports of an interface.
const INTERFACE: &str =
    "(edif e (edifVersion 2 0 0) (edifLevel 0) (keywordMap (keywordLevel 0)) (library w (edifLevel 0) (technology) (cell c (cellType GENERIC) (view v (viewType NETLIST) (interface";

/// Appends a port of 65,536 bits.
fn push_port(alloc: Global, text: &mut String, port: u32) -> Result<(), AllocError> {
    let port = format!(in alloc; " (port (array p{port:02} 65536))")?;
    text.push_str(&port)
}

/// Appends a file with so many such ports.
fn push_wide(alloc: Global, text: &mut String, ports: u32) -> Result<(), AllocError> {
    text.push_str(INTERFACE)?;
    for port in 0..ports {
        push_port(alloc, text, port)?;
    }
    text.push_str(")))))")
}

/// What is answered to that file, its places counted from the first port on.
fn wide(alloc: Global, ports: u32) -> Result<String, Fail> {
    let mut text = String::new(alloc);
    push_wide(alloc, &mut text, ports)?;
    answer(alloc, &text, INTERFACE.len())
}

#[test]
fn ports_have_up_to_1048576_bits(rt: HostRuntime) -> Result<(), Fail> {
    let answer = wide(rt.alloc(), 16)?;
    holds(&rt, has(&answer, "p15"), "16 ports", &answer);
    Ok(())
}

#[test]
fn more_bits_are_over_the_limit(rt: HostRuntime) -> Result<(), Fail> {
    let answer = wide(rt.alloc(), 17)?;
    same(&rt, &answer.as_str(), &"over 1048576 401;", "17 ports");
    Ok(())
}

/// The numbers of libraries, of cells of each and of notes in a design, and the slot of its top.
fn counts(design: &Design) -> Option<(u32, u32, u32, usize, u32)> {
    let top = design.top()?;
    let (first, second) = (design.cell_count(LibId(0)), design.cell_count(LibId(1)));
    let notes = design.notes().as_slice().len();
    Some((design.lib_count(), first, second, notes, top.cell.slot))
}

/// The same of the design that a tree means.
fn counts_of(alloc: Global, tree: &Tree) -> Result<Option<(u32, u32, u32, usize, u32)>, Fail> {
    let design = read_design(alloc, tree)?;
    Ok(counts(&design))
}

/// The same of a text.
fn counts_in(alloc: Global, text: &str) -> Result<Option<(u32, u32, u32, usize, u32)>, Fail> {
    let tree = tree_of(alloc, text)?;
    counts_of(alloc, &tree)
}

/// A file with a library behind its design, and three notes.
const DESIGN: &str =
    "(edif e (edifVersion 2 0 0) (edifLevel 0) (keywordMap (keywordLevel 0)) (library w (edifLevel 0) (technology) (cell c (cellType GENERIC) (view v (viewType NETLIST) (interface))) (cell t (cellType GENERIC) (view v (viewType NETLIST) (interface) (contents (instance ab (viewRef v (cellRef c))) (instance aB (viewRef v (cellRef c))))))) (design t (cellRef t (libraryRef w)) (userData netdb_note (path ab) (property k (integer 1))) (userData netdb_note (path aB) (property k (integer 1))) (userData netdb_note (path ab) (property m (integer 1)))) (library z (edifLevel 0) (technology)) (comment x))";

#[test]
fn whole_designs_are_read(rt: HostRuntime) -> Result<(), Fail> {
    let counts = counts_in(rt.alloc(), DESIGN)?;
    assert_eq!(rt; counts, Some((2, 2, 0, 3, 1)));
    Ok(())
}
