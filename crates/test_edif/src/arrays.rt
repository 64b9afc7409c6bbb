//! An array of nets with a long property, which each of its nets has.
use crate::trees::tree_of;
use edif_build::read_design;
use netlist_schema::{CellId, Design, LibId, Net, Shown, Value};
use std::alloc::{AllocError, Global};
use std::test::Fail;

/// The front of a file, up to the text of a property of 65,536 nets.
const FRONT: &str =
    "(edif e (edifVersion 2 0 0) (edifLevel 0) (keywordMap (keywordLevel 0)) (library w (edifLevel 0) (technology) (cell c (cellType GENERIC) (view v (viewType NETLIST) (interface (port (array p 65536))) (contents (net (array n 65536) (joined (portRef p)) (property k (string \"";

/// A file whose property has 16 letters this many times.
fn file(alloc: Global, times: u32) -> Result<String, AllocError> {
    let mut text = String::new(alloc);
    text.push_str(FRONT)?;
    for _ in 0..times {
        text.push_str("0123456789abcdef")?;
    }
    text.push_str("\"))))))))")?;
    Ok(text)
}

/// How long the text of a net's first property is.
fn long(net: &Net) -> Option<usize> {
    match &net.properties.as_slice().first()?.value {
        Value::Text(text) => Some(text.as_slice().len()),
        _ => None,
    }
}

/// How many nets the first cell has, and how long the text of the last one's property is.
fn nets(design: &Design) -> Option<(usize, usize)> {
    let id = CellId {
        lib: LibId(0),
        slot: 0,
    };
    let contents = design.cell(id)?.contents.as_ref()?;
    let nets = &contents.nets;
    Some((nets.len(), long(nets.get(65_535)?.get())?))
}

/// What is said of the nets of that file.
fn nets_of_file(alloc: Global, times: u32) -> Result<Option<(usize, usize)>, Fail> {
    let text = file(alloc, times)?;
    let tree = tree_of(alloc, &text)?;
    let design = read_design(alloc, &tree)?;
    Ok(nets(&design))
}

/// A copy of the text for each net would want 32 GB.
#[test]
fn nets_of_an_array_hold_one_list_of_properties(rt: HostRuntime) -> Result<(), Fail> {
    let found = nets_of_file(rt.alloc(), 32_768)?;
    assert_eq!(rt; found, Some((65_536, 524_288)));
    Ok(())
}
