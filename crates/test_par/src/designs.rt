//! Designs of some size, and one whose text is long.
use netlist_schema::Design;
use std::alloc::Global;
use std::test::Fail;
use test_text_designs::design_of;
use test_texts::COUNTER;

/// The counter.
pub fn counter(alloc: Global) -> Result<Design, Fail> {
    design_of(alloc, COUNTER.as_bytes())
}

/// A leaf, and what stands before it.
const HEAD: &[u8] = b"(edif e (edifVersion 2 0 0) (edifLevel 0) (keywordMap (keywordLevel 0))
 (library w (edifLevel 0) (technology (numberDefinition))
  (cell c0 (cellType GENERIC) (view v (viewType NETLIST) (interface)))";

/// What stands behind the cells.
const FOOT: &[u8] = b") (design e (cellRef c7 (libraryRef w))))";

/// Appends an instance with a property of so many bytes.
fn push_inst(text: &mut Vec<u8>, name: u8, of: u8, bytes: u32) -> Result<(), Fail> {
    text.extend_from_slice(b" (instance ")?;
    text.push(name)?;
    text.extend_from_slice(b" (viewRef v (cellRef c")?;
    text.push(of)?;
    text.extend_from_slice(b" (libraryRef w))) (property k (string \"")?;
    for _ in 0..bytes {
        text.push(b'x')?;
    }
    text.extend_from_slice(b"\")))")?;
    Ok(())
}

/// Appends a cell of four such instances, the first of one cell and the others of another.
fn push_four(text: &mut Vec<u8>, id: u8, of: u8, others: u8, bytes: u32) -> Result<(), Fail> {
    text.extend_from_slice(b" (cell c")?;
    text.push(id)?;
    text.extend_from_slice(
        b" (cellType GENERIC) (view v (viewType NETLIST) (interface) (contents",
    )?;
    push_inst(text, b'p', of, bytes)?;
    push_inst(text, b'q', others, bytes)?;
    push_inst(text, b'r', others, bytes)?;
    push_inst(text, b's', others, bytes)?;
    text.extend_from_slice(b")))")?;
    Ok(())
}

/// A design of 1,045 items, of which 16 among the first 22 have a property of so many bytes.
fn grown(alloc: Global, bytes: u32) -> Result<Design, Fail> {
    let mut text = HEAD.to_vec(alloc)?;
    push_four(&mut text, b'1', b'0', b'0', bytes)?;
    push_four(&mut text, b'2', b'1', b'1', 1)?;
    push_four(&mut text, b'3', b'0', b'0', 1)?;
    push_four(&mut text, b'4', b'3', b'3', 1)?;
    push_four(&mut text, b'5', b'4', b'4', 1)?;
    push_four(&mut text, b'6', b'5', b'5', 1)?;
    push_four(&mut text, b'7', b'2', b'6', 1)?;
    text.extend_from_slice(FOOT)?;
    design_of(alloc, text.as_slice())
}

/// A design whose first items are long: the lines of the first 17 have more than 700,000 bytes.
pub fn heavy(alloc: Global) -> Result<Design, Fail> {
    grown(alloc, 60_000)
}

/// A design of 1,045 items of some bytes each.
pub fn tree(alloc: Global) -> Result<Design, Fail> {
    grown(alloc, 1)
}

/// Cells of one kind: what their names begin with, how many instances each has, and of which cells these are, from that of a number on:
/// each of the next one, or all of the same.
#[derive(Clone, Copy)]
struct Kind {
    letter: u8,
    count: u32,
    of: u8,
    apart: u32,
}

/// Appends a letter and two digits.
fn push_numbered(text: &mut Vec<u8>, letter: u8, number: u32) -> Result<(), Fail> {
    text.push(letter)?;
    text.push(b'0'.wrapping_add((number / 10 % 10) as u8))?;
    text.push(b'0'.wrapping_add((number % 10) as u8))?;
    Ok(())
}

/// Appends the instances of a cell of a kind.
fn push_insts(text: &mut Vec<u8>, kind: Kind, number: u32) -> Result<(), Fail> {
    let first = number.wrapping_mul(kind.count);
    for place in 0..kind.count {
        let of = first.wrapping_add(place).wrapping_mul(kind.apart);
        text.extend_from_slice(b" (instance ")?;
        push_numbered(text, b'i', place)?;
        text.extend_from_slice(b" (viewRef v (cellRef ")?;
        push_numbered(text, kind.of, of)?;
        text.extend_from_slice(b")))")?;
    }
    Ok(())
}

/// Appends a net for each instance of a cell of a kind. The first one joins the cell's port too.
fn push_nets(text: &mut Vec<u8>, kind: Kind) -> Result<(), Fail> {
    for place in 0..kind.count {
        text.extend_from_slice(b" (net ")?;
        push_numbered(text, b'n', place)?;
        text.extend_from_slice(b" (joined (portRef a (instanceRef ")?;
        push_numbered(text, b'i', place)?;
        text.extend_from_slice(b"))")?;
        if place == 0 {
            text.extend_from_slice(b" (portRef a)")?;
        }
        text.extend_from_slice(b"))")?;
    }
    Ok(())
}

/// Appends so many cells of a kind.
fn push_kind(text: &mut Vec<u8>, kind: Kind, cells: u32) -> Result<(), Fail> {
    for number in 0..cells {
        text.extend_from_slice(b" (cell ")?;
        push_numbered(text, kind.letter, number)?;
        text.extend_from_slice(
            b" (cellType GENERIC) (view v (viewType NETLIST) (interface (port a (direction INPUT))) (contents",
        )?;
        push_insts(text, kind, number)?;
        push_nets(text, kind)?;
        text.extend_from_slice(b")))")?;
    }
    Ok(())
}

/// Forty cells of sixty leaves each, four blocks of ten of them each, and a top of the blocks: more instances and nets in cells than one
/// thread looks at.
pub fn blocks(alloc: Global) -> Result<Design, Fail> {
    let mut text = b"(edif e (edifVersion 2 0 0) (edifLevel 0) (keywordMap (keywordLevel 0))
 (library w (edifLevel 0) (technology (numberDefinition))
  (cell c00 (cellType GENERIC) (view v (viewType NETLIST) (interface (port a (direction INPUT)))))"
        .to_vec(alloc)?;
    let cell = Kind {
        letter: b'k',
        count: 60,
        of: b'c',
        apart: 0,
    };
    let block = Kind {
        letter: b'b',
        count: 10,
        of: b'k',
        apart: 1,
    };
    let top = Kind {
        letter: b't',
        count: 4,
        of: b'b',
        apart: 1,
    };
    push_kind(&mut text, cell, 40)?;
    push_kind(&mut text, block, 4)?;
    push_kind(&mut text, top, 1)?;
    text.extend_from_slice(b") (design e (cellRef t00 (libraryRef w))))")?;
    design_of(alloc, text.as_slice())
}
