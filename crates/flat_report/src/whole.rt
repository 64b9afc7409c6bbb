//! The line of an item in one piece, by the texts of its paths.
ghost use Rattle.std.specs.Prelude.{◌≡◌, ◌++◌, ◌∷◌, [], codes, map, OnErr, OnOk};
ghost use Rattle.std.specs.Option.{option_map_or};
ghost use Rattle.edif_names.specs.Parts.{Grows};
ghost use Rattle.edif_spec.specs.PropertyText.{property_text};
ghost use Rattle.flat_lines_spec.specs.Lines.{spaced};
ghost use Rattle.flat_report.specs.Parts.{first_words, line_of};

use crate::names::{cell_name, lib_name};
use crate::words::push_properties;
use edif_names::property_text;
use flat_items::{ItemText, NetText, PropertiesRef};
use flat_lookup::{net_name, port_name};
use itoa::Buffer;
use joined_words::push_words;
use netlist_schema::{NoMemory, Property, Shown};
use path_texts::PathText;
use std::alloc::Global;

/// Appends the line of an item whose paths are lent as texts, as `item_text` does. After `NoMemory` the bytes are as before.
#[inline(always)]
pub fn text_line<S: Shown>(
    alloc: Global,
    design: &S,
    item: ItemText<'_>,
    out: &mut Vec<u8>,
) -> Result<(), NoMemory>
    ensures ok { OnOk result (out.new.items ≡ out.old.items ++ line_of (S.design design.now) item.entry) }
    ensures err { OnErr result (out.new.items ≡ out.old.items) }
{
    let before = out.len();
    if push_line(alloc, design, item, out).is_err() {
        out.truncate(before);
        return Err(NoMemory);
    }
    Ok(())
}

/// Appends the line of an item. After `NoMemory` some bytes may stand behind those before.
#[inline(always)]
fn push_line<S: Shown>(
    alloc: Global,
    design: &S,
    item: ItemText<'_>,
    out: &mut Vec<u8>,
) -> Result<(), NoMemory>
    ensures ok { OnOk result (out.new.items ≡ out.old.items ++ line_of (S.design design.now) item.entry) }
    ensures grows { Grows out.old.items out.new.items }
{
    match item {
        ItemText::Enter { at, properties } => push_enter(alloc, design, at, properties, out),
        ItemText::Net { at, net, first } => push_net(design, at, net, first, out),
        ItemText::Pin {
            at,
            port,
            bit,
            first,
        } => push_pin(design, at, port, bit, first, out),
    }
}

/// The line of an occurrence.
#[inline(always)]
fn push_enter<S: Shown>(
    alloc: Global,
    design: &S,
    at: PathText<'_>,
    properties: PropertiesRef<'_>,
    out: &mut Vec<u8>,
) -> Result<(), NoMemory>
    ensures ok { OnOk result (out.new.items ≡ out.old.items ++ line_of (S.design design.now) (ItemText.Enter at.entry properties.entry)) }
    ensures grows { Grows out.old.items out.new.items }
{
    let words: &[&[u8]] = &[b"inst", at.text, lib_name(design, at.cell)];
    let last = cell_name(design, at.cell);
    if let Some(unchanged) = properties.unchanged() {
        return push_ended(alloc, words, last, unchanged, out);
    }
    let made = properties.made(alloc)?;
    push_ended(alloc, words, last, made.as_slice(), out)
}

/// Appends words with a blank between each two, and a line feed. After `NoMemory` some bytes may stand behind those before.
#[inline(always)]
fn push_spaced(words: &[&[u8]], last: &[u8], out: &mut Vec<u8>) -> Result<(), NoMemory>
    ensures ok { OnOk result (out.new.items ≡ out.old.items ++ (spaced (map (λ word. word.now) words.now ++ last.now ∷ []) ++ 10 ∷ [])) }
    ensures grows { Grows out.old.items out.new.items }
{
    push_words(words, last, b' ', b'\n', out)?;
    Ok(())
}

/// The same of words, of a property, and of those behind it. After `NoMemory` some bytes may stand behind those before.
fn push_changed(
    alloc: Global,
    words: &[&[u8]],
    last: &[u8],
    first: &Property,
    others: &[Property],
    out: &mut Vec<u8>,
) -> Result<(), NoMemory>
    ensures ok { OnOk result (out.new.items ≡ out.old.items ++ (spaced (map (λ word. word.now) words.now ++ last.now ∷ property_text first.now ∷ map property_text others.now) ++ 10 ∷ [])) }
    ensures grows { Grows out.old.items out.new.items }
{
    push_words(words, last, b' ', b' ', out)?;
    property_text(alloc, first, out)?;
    push_properties(alloc, others, out)?;
    out.push(b'\n')?;
    Ok(())
}

/// The same of words and of properties.
#[inline(always)]
fn push_ended(
    alloc: Global,
    words: &[&[u8]],
    last: &[u8],
    properties: &[Property],
    out: &mut Vec<u8>,
) -> Result<(), NoMemory>
    ensures ok { OnOk result (out.new.items ≡ out.old.items ++ (spaced (map (λ word. word.now) words.now ++ last.now ∷ map property_text properties.now) ++ 10 ∷ [])) }
    ensures grows { Grows out.old.items out.new.items }
{
    match properties {
        [] => push_spaced(words, last, out),
        [first, others @ ..] => push_changed(alloc, words, last, first, others, out),
    }
}

/// The line of a net.
#[inline(always)]
fn push_net<S: Shown>(
    design: &S,
    at: PathText<'_>,
    net: u32,
    first: NetText<'_>,
    out: &mut Vec<u8>,
) -> Result<(), NoMemory>
    ensures ok { OnOk result (out.new.items ≡ out.old.items ++ line_of (S.design design.now) (ItemText.Net at.entry net first.entry)) }
    ensures grows { Grows out.old.items out.new.items }
{
    push_spaced(
        &[
            b"net",
            at.text,
            net_name(design, Some(at.cell), net),
            first.at.text,
        ],
        net_name(design, Some(first.at.cell), first.net),
        out,
    )
}

/// The line of a pin by the text of its path, the identifier of its port and the digits of its bit.
#[inline(always)]
fn push_joined<S: Shown>(
    design: &S,
    at: &[u8],
    port: &[u8],
    bit: &[u8],
    first: Option<NetText<'_>>,
    out: &mut Vec<u8>,
) -> Result<(), NoMemory>
    ensures ok { OnOk result (out.new.items
        ≡ out.old.items ++ (spaced (codes "pin" ∷ at.now ∷ port.now ∷ bit.now ∷ option_map_or (first_words (S.design design.now)) first.entry (codes "-" ∷ [])) ++ 10 ∷ [])) }
    ensures grows { Grows out.old.items out.new.items }
{
    let Some(net) = first else {
        return push_spaced(&[b"pin", at, port, bit], b"-", out);
    };
    push_spaced(
        &[b"pin", at, port, bit, net.at.text],
        net_name(design, Some(net.at.cell), net.net),
        out,
    )
}

/// The line of a pin.
#[inline(always)]
fn push_pin<S: Shown>(
    design: &S,
    at: PathText<'_>,
    port: u32,
    bit: u32,
    first: Option<NetText<'_>>,
    out: &mut Vec<u8>,
) -> Result<(), NoMemory>
    ensures ok { OnOk result (out.new.items ≡ out.old.items ++ line_of (S.design design.now) (ItemText.Pin at.entry port bit first.entry)) }
    ensures grows { Grows out.old.items out.new.items }
{
    let name = port_name(design, Some(at.cell), port);
    let mut buffer = Buffer::new();
    let digits = buffer.format(bit).as_bytes();
    push_joined(design, at.text, name, digits, first, out)
}
