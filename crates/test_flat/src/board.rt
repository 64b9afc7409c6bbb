//! A board of two sockets with a lamp each, its parts by their places, its flattening and the properties of an occurrence.
use annot_view::effective;
use design_model::{PlainError, plain_flat};
use edif_names::property_text;
use flat_lookup::{insts_at, net_count};
use flat_report::item_text;
use flat_spec::{Item, Path};
use netlist_order::cell_order;
use netlist_schema::{CellId, Design, LibId, Property};
use std::alloc::Global;
use std::process::Abort;
use std::test::Fail;
use test_text_designs::design_of;

const BOARD: &str = "(edif e (edifVersion 2 0 0) (edifLevel 0) (keywordMap (keywordLevel 0))
 (library w (edifLevel 0) (technology)
  (cell lamp (cellType GENERIC) (view v (viewType NETLIST) (interface (port a (direction INPUT)))))
  (cell socket (cellType GENERIC) (view v (viewType NETLIST)
   (interface (port r (direction INOUT)))
   (contents
    (instance l (viewRef v (cellRef lamp)) (property K (integer 5)) (property M (boolean (true))))
    (net y (joined (portRef r) (portRef a (instanceRef l)))))))
  (cell board (cellType GENERIC) (view v (viewType NETLIST)
   (interface)
   (contents
    (instance u (viewRef v (cellRef socket)))
    (instance v (viewRef v (cellRef socket)))
    (net X (joined (portRef r (instanceRef u)) (portRef r (instanceRef v))))
    (net Z (joined))))))
 (design board (cellRef board (libraryRef w))
  (userData netdb_note (path u l) (property K (integer 7)))))
";

/// Its flattening, and the properties of the lamp of the first socket.
const ITEMS: &str = "inst / w board
net / X / X
net / Z / Z
inst /u w socket
net /u y / X
inst /u/l w lamp K=7 M=true
pin /u/l a 0 / X
inst /v w socket
net /v y / X
inst /v/l w lamp K=5 M=true
pin /v/l a 0 / X
K=7 M=true ";

const EMPTY: &str = "(edif e (edifVersion 2 0 0) (edifLevel 0) (keywordMap (keywordLevel 0)))";

/// The numbers of instances and nets of the cell at a place of the first library.
fn counts(design: &Design, slot: u32) -> (usize, u32) {
    let cell = CellId {
        lib: LibId(0),
        slot,
    };
    (insts_at(design, cell).len(), net_count(design, cell))
}

/// Whether the cells of the first library are written in this order.
fn has_order(alloc: Global, design: &Design, want: &[u32]) -> Result<bool, Fail> {
    let order = cell_order(alloc, design, LibId(0))?;
    Ok(order.as_slice() == want)
}

/// Checks the parts of the board.
fn has_parts(rt: &impl Abort, alloc: Global, board: &Design) -> Result<(), Fail> {
    let found = [
        counts(board, 0),
        counts(board, 1),
        counts(board, 2),
        counts(board, 3),
    ];
    assert_eq!(rt; found, [(0, 0), (1, 1), (2, 2), (0, 0)]);
    assert!(rt; has_order(alloc, board, &[0, 1, 2])?);
    Ok(())
}

fn add_lines(
    alloc: Global,
    design: &Design,
    items: &[Item],
    text: &mut Vec<u8>,
) -> Result<(), Fail> {
    for item in items {
        item_text(alloc, design, item, text)?;
    }
    Ok(())
}

/// Appends the lines of the items of a design that has a top.
fn add_items(alloc: Global, design: &Design, text: &mut Vec<u8>) -> Result<(), Fail> {
    let items = plain_flat(alloc, design)?;
    add_lines(alloc, design, items.as_slice(), text)
}

fn add_properties(alloc: Global, properties: &[Property], text: &mut Vec<u8>) -> Result<(), Fail> {
    for property in properties {
        property_text(alloc, property, text)?;
        text.push(b' ')?;
    }
    Ok(())
}

/// Appends the properties of the occurrence at a path.
fn add_effective(
    alloc: Global,
    design: &Design,
    path: &Path,
    text: &mut Vec<u8>,
) -> Result<(), Fail> {
    let properties = effective(alloc, design, path)?;
    add_properties(alloc, properties.as_slice(), text)
}

/// Appends the properties of the occurrence at the path 0/0.
fn add_properties_at(alloc: Global, design: &Design, text: &mut Vec<u8>) -> Result<(), Fail> {
    let path = Path::of(alloc, &[0, 0])?;
    add_effective(alloc, design, &path, text)
}

/// Appends the items of a design, and then the properties of the occurrence at the path 0/0.
fn add_all(alloc: Global, design: &Design, text: &mut Vec<u8>) -> Result<(), Fail> {
    add_items(alloc, design, text)?;
    add_properties_at(alloc, design, text)
}

fn are_items(rt: &impl Abort, text: &[u8], want: &str) {
    assert_eq!(rt; text, want.as_bytes());
}

/// Checks the items of a design, and the properties behind them.
fn has_items(rt: &impl Abort, alloc: Global, design: &Design, want: &str) -> Result<(), Fail> {
    let mut text = Vec::new(alloc);
    add_all(alloc, design, &mut text)?;
    are_items(rt, &text, want);
    Ok(())
}

/// Whether there is no flattening of a design, since it has no top.
fn has_no_top(alloc: Global, design: &Design) -> bool {
    plain_flat(alloc, design).err() == Some(PlainError::NoTop)
}

/// Checks the parts, the items and the properties of the board, or, where nothing is wanted, that a design has no top.
fn check(rt: &impl Abort, alloc: Global, design: &Design, want: Option<&str>) -> Result<(), Fail> {
    let Some(want) = want else {
        assert!(rt; has_no_top(alloc, design));
        return Ok(());
    };
    has_parts(rt, alloc, design)?;
    has_items(rt, alloc, design, want)
}

/// The same of a design's text.
fn check_text(rt: &impl Abort, alloc: Global, text: &str, want: Option<&str>) -> Result<(), Fail> {
    let design = design_of(alloc, text.as_bytes())?;
    check(rt, alloc, &design, want)
}

#[test]
fn parts_items_and_properties_are_listed(rt: HostRuntime) -> Result<(), Fail> {
    check_text(&rt, rt.alloc(), BOARD, Some(ITEMS))
}

#[test]
fn a_design_without_a_top_has_no_items(rt: HostRuntime) -> Result<(), Fail> {
    check_text(&rt, rt.alloc(), EMPTY, None)
}
