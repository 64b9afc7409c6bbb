//! The row of an item in one piece, by the texts of its paths.
ghost use Rattle.std.specs.Prelude.{◌≡◌, ◌++◌, ◌∷◌, [], map, OnErr, OnOk};
ghost use Rattle.csv_report.specs.Parts.{first_fields, plain_row, row_of_text};

use flat_items::{ItemText, NetText};
use flat_lookup::{net_name, port_name};
use itoa::Buffer;
use joined_words::push_words;
use netlist_schema::{NoMemory, Shown};
use path_texts::PathText;

/// The path of the occurrence of a net, and the net's identifier.
#[derive(Clone, Copy)]
struct NetFields<'t, 'd> {
    path: &'t [u8],
    name: &'d [u8],
}

/// Those of a representative, two empty texts where there is none.
#[inline(always)]
fn net_fields<'t, 'd, S: Shown>(design: &'d S, first: Option<NetText<'t>>) -> NetFields<'t, 'd>
    ensures { result.path.now ∷ result.name.now ∷ [] ≡ first_fields (S.design design.now) first.entry }
{
    match first {
        Some(net) => NetFields {
            path: net.at.text,
            name: net_name(design, Some(net.at.cell), net.net),
        },
        None => NetFields {
            path: &[],
            name: &[],
        },
    }
}

/// Appends fields as they are, with a comma between each two and a line feed at the end. After `NoMemory` the bytes are as before.
#[inline(always)]
fn push_fields(fields: &[&[u8]], last: &[u8], out: &mut Vec<u8>) -> Result<(), NoMemory>
    ensures ok { OnOk result (out.new.items ≡ out.old.items ++ plain_row (map (λ field. field.now) fields.now ++ last.now ∷ [])) }
    ensures err { OnErr result (out.new.items ≡ out.old.items) }
{
    push_words(fields, last, b',', b'\n', out)?;
    Ok(())
}

/// The row of a pin by its fields.
#[inline(always)]
fn push_row(
    path: &[u8],
    port: &[u8],
    bit: &[u8],
    net_path: &[u8],
    net: &[u8],
    out: &mut Vec<u8>,
) -> Result<(), NoMemory>
    ensures ok { OnOk result (out.new.items ≡ out.old.items ++ plain_row (path.now ∷ port.now ∷ bit.now ∷ net_path.now ∷ net.now ∷ [])) }
    ensures err { OnErr result (out.new.items ≡ out.old.items) }
{
    push_fields(&[path, port, bit, net_path], net, out)
}

/// The row of a pin.
#[inline(always)]
fn push_pin<S: Shown>(
    design: &S,
    at: PathText<'_>,
    port: u32,
    bit: u32,
    first: Option<NetText<'_>>,
    out: &mut Vec<u8>,
) -> Result<(), NoMemory>
    ensures ok { OnOk result (out.new.items ≡ out.old.items ++ row_of_text (S.design design.now) (ItemText.Pin at.entry port bit first.entry)) }
    ensures err { OnErr result (out.new.items ≡ out.old.items) }
{
    let name = port_name(design, Some(at.cell), port);
    let net = net_fields(design, first);
    let mut buffer = Buffer::new();
    let digits = buffer.format(bit).as_bytes();
    push_row(at.text, name, digits, net.path, net.name, out)
}

/// Appends the row of an item whose paths are lent as texts, as `pin_row` does, with its fields as they are: neither a path nor an
/// identifier has a byte for which a field stands in quotes. After `NoMemory` the bytes are as before.
#[inline(always)]
pub fn text_row<S: Shown>(design: &S, item: ItemText<'_>, out: &mut Vec<u8>) -> Result<(), NoMemory>
    ensures ok { OnOk result (out.new.items ≡ out.old.items ++ row_of_text (S.design design.now) item.entry) }
    ensures err { OnErr result (out.new.items ≡ out.old.items) }
{
    match item {
        ItemText::Pin {
            at,
            port,
            bit,
            first,
        } => push_pin(design, at, port, bit, first, out),
        ItemText::Enter { .. } => Ok(()),
        ItemText::Net { .. } => Ok(()),
    }
}
