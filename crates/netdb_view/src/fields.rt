//! The fields of the item that is shown.
ghost use Rattle.std.specs.Prelude.{◌≡◌, Some};
ghost use Rattle.std.specs.Option.{option_and_then, option_map};
ghost use Rattle.flat_items.specs.Lent.{item_of, net_of};
ghost use Rattle.netlist_schema.specs.Design.{Design};
ghost use Rattle.flat_lines_spec.specs.Lines.{cell_text, lib_text, path_text};
ghost use Rattle.occ_walk.specs.At.{path_of};
ghost use Rattle.netdb_view.specs.Fields.{Adds, field_text, first_of, kind_text, way_at, way_text};
ghost use Rattle.netdb_view.specs.declared.fields.Field.TheVariants as field;

use crate::view::View;
use csv_report::{net_name, path_bytes, port_name};
use flat_items::{ItemRef, NetRef};
use flat_lookup::cell_along;
use itoa::Buffer;
use netlist_schema::{CellId, Direction, NoMemory, Shown};
use std::alloc::Global;

/// A field of an item.
#[derive(Clone, Copy, Debug, PartialEq, Eq)]
pub enum Field {
    /// `inst`, `net` or `pin`.
    Kind,
    /// The path of the occurrence.
    Path,
    /// The identifier of an occurrence's library.
    Library,
    /// The identifier of an occurrence's cell.
    Cell,
    /// The identifier of a net.
    Net,
    /// The identifier of a pin's port.
    Port,
    /// A pin's bit of its port.
    Bit,
    /// `input`, `output` or `inout`, where the pin's port has a direction.
    Direction,
    /// The path of the first net that is connected with a net, or with the net that joins a pin.
    FirstPath,
    /// The identifier of that net.
    FirstNet,
}

impl View {
    /// Appends a field of the item that is shown: whether it has it. Where it has none, or none is shown, nothing is appended. After
    /// `NoMemory` the bytes are as before.
    pub fn field(&self, which: Field, out: &mut Vec<u8>) -> Result<bool, NoMemory>
        ensures { Adds (option_and_then (λ item. field_text self.now.version.design item which) self.now.shown) out.old.items out.new.items result }
    {
        let version = self.version();
        match self.shown() {
            Some(item) => item_field(self.alloc(), version, item, which, out),
            None => Ok(false),
        }
    }
}

/// Appends a field of an item.
fn item_field<S: Shown>(
    alloc: Global,
    design: &S,
    item: ItemRef<'_>,
    which: Field,
    out: &mut Vec<u8>,
) -> Result<bool, NoMemory>
    ensures { Adds (field_text (S.design design.now) (item_of item.entry) which) out.old.items out.new.items result }
{
    match which {
        Field::Kind => add(kind_of(item), out),
        Field::Path => add_path(alloc, design, path_of(item), out),
        Field::Library => add_library(design, item, out),
        Field::Cell => add_cell(design, item, out),
        Field::Net => add_net(design, item, out),
        Field::Port => add_port(design, item, out),
        Field::Bit => add_bit(item, out),
        Field::Direction => add_direction(design, item, out),
        Field::FirstPath => match first_of(item) {
            Some(first) => add_path(alloc, design, first.path, out),
            None => Ok(false),
        },
        Field::FirstNet => match first_of(item) {
            Some(first) => add(net_name(design, first), out),
            None => Ok(false),
        },
    }
}

/// Appends bytes.
fn add(bytes: &[u8], out: &mut Vec<u8>) -> Result<bool, NoMemory>
    ensures { Adds (Some bytes.now) out.old.items out.new.items result }
{
    out.extend_from_slice(bytes)?;
    Ok(true)
}

/// Appends the text of a path.
fn add_path<S: Shown>(
    alloc: Global,
    design: &S,
    path: &[u32],
    out: &mut Vec<u8>,
) -> Result<bool, NoMemory>
    ensures { Adds (Some (path_text (S.design design.now) path.now)) out.old.items out.new.items result }
{
    let text = path_bytes(alloc, design, path)?;
    add(text.as_slice(), out)
}

/// The word for what an item is.
fn kind_of(item: ItemRef<'_>) -> &'static [u8]
    ensures { result.now ≡ kind_text (item_of item.entry) }
{
    match item {
        ItemRef::Enter { .. } => b"inst",
        ItemRef::Net { .. } => b"net",
        ItemRef::Pin { .. } => b"pin",
    }
}

/// The path of an item's occurrence.
fn path_of(item: ItemRef<'_>) -> &[u32]
    ensures { result.now ≡ path_of (item_of item.entry) }
{
    match item {
        ItemRef::Enter { path, .. } => path,
        ItemRef::Net { path, .. } => path,
        ItemRef::Pin { path, .. } => path,
    }
}

/// The first net that is connected with an item's, where there is one.
fn first_of(item: ItemRef<'_>) -> Option<NetRef<'_>>
    ensures { option_map net_of result ≡ first_of (item_of item.entry) }
{
    match item {
        ItemRef::Enter { .. } => None,
        ItemRef::Net { first, .. } => Some(first),
        ItemRef::Pin { first, .. } => first,
    }
}

/// The identifier of the library of a cell; nothing where there is no such library.
fn lib_name<S: Shown>(design: &S, id: CellId) -> &[u8]
    ensures { result.now ≡ lib_text (S.design design.now) id }
{
    match design.lib(id.lib) {
        Some(head) => head.name.id.as_slice(),
        None => &[],
    }
}

/// The identifier of a cell; nothing where there is no such cell.
fn cell_name<S: Shown>(design: &S, id: CellId) -> &[u8]
    ensures { result.now ≡ cell_text (S.design design.now) id }
{
    match design.cell(id) {
        Some(body) => body.name.id.as_slice(),
        None => &[],
    }
}

/// Appends the identifier of an occurrence's library.
fn add_library<S: Shown>(design: &S, item: ItemRef<'_>, out: &mut Vec<u8>) -> Result<bool, NoMemory>
    ensures { Adds (field_text (S.design design.now) (item_of item.entry) field.Library) out.old.items out.new.items result }
{
    match item {
        ItemRef::Enter { cell, .. } => add(lib_name(design, cell), out),
        ItemRef::Net { .. } | ItemRef::Pin { .. } => Ok(false),
    }
}

/// Appends the identifier of an occurrence's cell.
fn add_cell<S: Shown>(design: &S, item: ItemRef<'_>, out: &mut Vec<u8>) -> Result<bool, NoMemory>
    ensures { Adds (field_text (S.design design.now) (item_of item.entry) field.Cell) out.old.items out.new.items result }
{
    match item {
        ItemRef::Enter { cell, .. } => add(cell_name(design, cell), out),
        ItemRef::Net { .. } | ItemRef::Pin { .. } => Ok(false),
    }
}

/// Appends the identifier of a net.
fn add_net<S: Shown>(design: &S, item: ItemRef<'_>, out: &mut Vec<u8>) -> Result<bool, NoMemory>
    ensures { Adds (field_text (S.design design.now) (item_of item.entry) field.Net) out.old.items out.new.items result }
{
    match item {
        ItemRef::Net { path, net, .. } => {
            let at = NetRef { path, net };
            add(net_name(design, at), out)
        }
        ItemRef::Enter { .. } | ItemRef::Pin { .. } => Ok(false),
    }
}

/// Appends the identifier of a pin's port.
fn add_port<S: Shown>(design: &S, item: ItemRef<'_>, out: &mut Vec<u8>) -> Result<bool, NoMemory>
    ensures { Adds (field_text (S.design design.now) (item_of item.entry) field.Port) out.old.items out.new.items result }
{
    match item {
        ItemRef::Pin { path, port, .. } => add(port_name(design, path, port), out),
        ItemRef::Enter { .. } | ItemRef::Net { .. } => Ok(false),
    }
}

/// Appends a pin's bit.
fn add_bit(item: ItemRef<'_>, out: &mut Vec<u8>) -> Result<bool, NoMemory>
    ensures { (d : Design) → Adds (field_text d (item_of item.entry) field.Bit) out.old.items out.new.items result }
{
    match item {
        ItemRef::Pin { bit, .. } => {
            let mut digits = Buffer::new();
            add(digits.format(bit).as_bytes(), out)
        }
        ItemRef::Enter { .. } | ItemRef::Net { .. } => Ok(false),
    }
}

/// Which way a port of the occurrence at a path goes, where there is such a port and it has a direction.
fn way_at<S: Shown>(design: &S, path: &[u32], port: u32) -> Option<Direction>
    ensures { result ≡ way_at (S.design design.now) path.now port }
{
    let top = design.top()?;
    let cell = cell_along(design, top.cell, path)?;
    let body = design.cell(cell)?;
    match body.ports.as_slice().get(port as usize) {
        Some(port) => port.direction,
        None => None,
    }
}

/// The word for a direction.
fn way_word(way: Direction) -> &'static [u8]
    ensures { result.now ≡ way_text way }
{
    match way {
        Direction::Input => b"input",
        Direction::Output => b"output",
        Direction::Inout => b"inout",
    }
}

/// Appends the direction of a pin's port.
fn add_direction<S: Shown>(
    design: &S,
    item: ItemRef<'_>,
    out: &mut Vec<u8>,
) -> Result<bool, NoMemory>
    ensures { Adds (field_text (S.design design.now) (item_of item.entry) field.Direction) out.old.items out.new.items result }
{
    match item {
        ItemRef::Pin { path, port, .. } => match way_at(design, path, port) {
            Some(way) => add(way_word(way), out),
            None => Ok(false),
        },
        ItemRef::Enter { .. } | ItemRef::Net { .. } => Ok(false),
    }
}
