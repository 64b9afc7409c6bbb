//! The line of an item.
ghost use Rattle.std.specs.Prelude.{◌≡◌, [], ◌∷◌, ◌++◌, codes, map, OnErr, OnOk};
ghost use Rattle.std.specs.Fmt.{decimal};
ghost use Rattle.std.specs.Option.{option_map, option_map_or};
ghost use Rattle.edif_names.specs.Parts.{Grows};
ghost use Rattle.flat_lines_spec.specs.Lines.{cell_text, item_line, item_words, lib_text, net_words, spaced};
ghost use Rattle.edif_spec.specs.PropertyText.{property_text};
ghost use Rattle.flat_report.specs.Parts.{behind_blanks};
ghost use Rattle.flat_items.specs.Lent.{item_of, net_of, properties_of};

use crate::names::{cell_name, lib_name};
use crate::paths::{push_first, push_net_words, push_place};
use crate::words::{push_number, push_properties, push_word};
use flat_items::{ItemRef, NetRef, PropertiesRef};
use flat_lookup::port_name;
use flat_spec::Item;
use netlist_schema::{CellId, NoMemory, Shown};
use std::alloc::Global;

/// Appends the line of an item, with the line feed at its end: `inst PATH LIB CELL` and the properties; `net PATH NET` and the path
/// and name of its representative; `pin PATH PORT BIT` and those of the representative of the net that joins the bit, or `-`. A
/// path is `/` for the top, else `/` before each instance's identifier; where the design has nothing of that number, nothing
/// stands for its name. After `NoMemory` the bytes are as before.
pub fn item_text<S: Shown>(
    alloc: Global,
    design: &S,
    item: &Item,
    out: &mut Vec<u8>,
) -> Result<(), NoMemory>
    ensures ok { OnOk result (out.new.items ≡ out.old.items ++ item_line (S.design design.now) item.now) }
    ensures err { OnErr result (out.new.items ≡ out.old.items) }
{
    lent_text(alloc, design, ItemRef::of(item), out)
}

/// The same of a lent item.
pub fn lent_text<S: Shown>(
    alloc: Global,
    design: &S,
    item: ItemRef<'_>,
    out: &mut Vec<u8>,
) -> Result<(), NoMemory>
    ensures ok { OnOk result (out.new.items ≡ out.old.items ++ item_line (S.design design.now) (item_of item.entry)) }
    ensures err { OnErr result (out.new.items ≡ out.old.items) }
{
    let before = out.len();
    if push_line(alloc, design, item, out).is_err() {
        out.truncate(before);
        return Err(NoMemory);
    }
    Ok(())
}

/// Appends the line of an item. After `NoMemory` some bytes may stand behind those before.
fn push_line<S: Shown>(
    alloc: Global,
    design: &S,
    item: ItemRef<'_>,
    out: &mut Vec<u8>,
) -> Result<(), NoMemory>
    ensures ok { OnOk result (out.new.items ≡ out.old.items ++ item_line (S.design design.now) (item_of item.entry)) }
    ensures grows { Grows out.old.items out.new.items }
{
    push_item(alloc, design, item, out)?;
    out.push(b'\n')?;
    Ok(())
}

/// Appends the words of an item. After `NoMemory` some bytes may stand behind those before.
fn push_item<S: Shown>(
    alloc: Global,
    design: &S,
    item: ItemRef<'_>,
    out: &mut Vec<u8>,
) -> Result<(), NoMemory>
    ensures ok { OnOk result (out.new.items ≡ out.old.items ++ spaced (item_words (S.design design.now) (item_of item.entry))) }
    ensures grows { Grows out.old.items out.new.items }
{
    match item {
        ItemRef::Enter {
            path,
            cell,
            properties,
        } => push_enter(alloc, design, path, cell, properties, out),
        ItemRef::Net { path, net, first } => push_net(design, path, net, first, out),
        ItemRef::Pin {
            path,
            port,
            bit,
            first,
        } => push_pin(design, path, port, bit, first, out),
    }
}

/// Appends the words of an occurrence. After `NoMemory` some bytes may stand behind those before.
fn push_enter<S: Shown>(
    alloc: Global,
    design: &S,
    path: &[u32],
    cell: CellId,
    properties: PropertiesRef<'_>,
    out: &mut Vec<u8>,
) -> Result<(), NoMemory>
    ensures ok { OnOk result (out.new.items ≡ out.old.items ++ spaced (item_words (S.design design.now) (Item.Enter path.now cell (properties_of properties.entry)))) }
    ensures grows { Grows out.old.items out.new.items }
{
    out.extend_from_slice(b"inst")?;
    push_place(design, path, out)?;
    push_cell(design, cell, out)?;
    push_lent(alloc, properties, out)
}

/// Appends properties, each behind a blank. After `NoMemory` some bytes may stand behind those before.
fn push_lent(
    alloc: Global,
    properties: PropertiesRef<'_>,
    out: &mut Vec<u8>,
) -> Result<(), NoMemory>
    ensures ok { OnOk result (out.new.items ≡ out.old.items ++ behind_blanks (map property_text (properties_of properties.entry))) }
    ensures grows { Grows out.old.items out.new.items }
{
    if let Some(unchanged) = properties.unchanged() {
        return push_properties(alloc, unchanged, out);
    }
    let made = properties.made(alloc)?;
    push_properties(alloc, made.as_slice(), out)
}

/// Appends the identifiers of a cell's library and of the cell, each behind a blank. After `NoMemory` some bytes may stand behind
/// those before.
fn push_cell<S: Shown>(design: &S, cell: CellId, out: &mut Vec<u8>) -> Result<(), NoMemory>
    ensures ok { OnOk result (out.new.items
        ≡ out.old.items ++ behind_blanks (lib_text (S.design design.now) cell ∷ cell_text (S.design design.now) cell ∷ [])) }
    ensures grows { Grows out.old.items out.new.items }
{
    push_word(lib_name(design, cell), out)?;
    push_word(cell_name(design, cell), out)
}

/// Appends the words of a net. After `NoMemory` some bytes may stand behind those before.
fn push_net<S: Shown>(
    design: &S,
    path: &[u32],
    net: u32,
    first: NetRef<'_>,
    out: &mut Vec<u8>,
) -> Result<(), NoMemory>
    ensures ok { OnOk result (out.new.items ≡ out.old.items ++ spaced (item_words (S.design design.now) (Item.Net path.now net (net_of first.entry)))) }
    ensures grows { Grows out.old.items out.new.items }
{
    out.extend_from_slice(b"net")?;
    push_net_words(design, path, net, out)?;
    push_first(design, first, out)
}

/// Appends the words of a pin. After `NoMemory` some bytes may stand behind those before.
fn push_pin<S: Shown>(
    design: &S,
    path: &[u32],
    port: u32,
    bit: u32,
    first: Option<NetRef<'_>>,
    out: &mut Vec<u8>,
) -> Result<(), NoMemory>
    ensures ok { OnOk result (out.new.items ≡ out.old.items ++ spaced (item_words (S.design design.now) (Item.Pin path.now port bit (option_map net_of first.entry)))) }
    ensures grows { Grows out.old.items out.new.items }
{
    out.extend_from_slice(b"pin")?;
    let cell = push_place(design, path, out)?;
    push_bit(port_name(design, cell, port), bit, out)?;
    push_joined(design, first, out)
}

/// Appends a port's identifier and a bit, each behind a blank. After `NoMemory` some bytes may stand behind those before.
fn push_bit(port: &[u8], bit: u32, out: &mut Vec<u8>) -> Result<(), NoMemory>
    ensures ok { OnOk result (out.new.items ≡ out.old.items ++ behind_blanks (port.now ∷ decimal bit ∷ [])) }
    ensures grows { Grows out.old.items out.new.items }
{
    push_word(port, out)?;
    push_number(bit, out)
}

/// Appends the representative of the net that joins a pin, or `-` where none does, each word behind a blank. After `NoMemory` some
/// bytes may stand behind those before.
fn push_joined<S: Shown>(
    design: &S,
    first: Option<NetRef<'_>>,
    out: &mut Vec<u8>,
) -> Result<(), NoMemory>
    ensures ok { OnOk result (out.new.items
        ≡ out.old.items ++ behind_blanks (option_map_or (net_words (S.design design.now)) (option_map net_of first.entry) (codes "-" ∷ []))) }
    ensures grows { Grows out.old.items out.new.items }
{
    match first {
        Some(first) => push_first(design, first, out),
        None => push_word(b"-", out),
    }
}
