//! Forms that stand on one line.
ghost use Rattle.std.specs.Prelude.{ℕ, map};
ghost use Rattle.std.specs.Fmt.{signed_decimal};
ghost use Rattle.edif_spec.specs.Canonical.{layout, name_tree, number_tree, value_tree, property_tree};
ghost use Rattle.edif_writer.specs.Lines.{spaced, lined, enclosed};
ghost use Rattle.netdb_outside.specs.Buffered.{Writes};

use crate::spelled::{put_ident, put_integer, put_line, put_string};
use netdb_outside::{BufferedSink, Sink};
use netlist_schema::{Name, Num, Property, Row, Text, Value};
use std::alloc::Global;

/// Writes a name: its identifier, or with a shown text a `rename`.
pub(crate) fn write_name<K: Sink>(alloc: Global, name: &Name, page: &mut BufferedSink, out: &mut K)
    ensures { (level : ℕ) → Writes K.written K.faults out.old page.old out.new page.new (layout level (name_tree name.now)) }
{
    match &name.shown {
        None => put_ident(alloc, &name.id, page, out),
        Some(shown) => {
            page.put(b"(rename ", out);
            put_ident(alloc, &name.id, page, out);
            page.put(b" ", out);
            put_string(alloc, shown, page, out);
            page.put(b")", out);
        }
    }
}

/// Writes a number: an integer, or with an exponent an `e`.
fn write_number<K: Sink>(alloc: Global, number: &Num, page: &mut BufferedSink, out: &mut K)
    ensures { (level : ℕ) → Writes K.written K.faults out.old page.old out.new page.new (layout level (number_tree number.now)) }
{
    match number {
        Num::Int(value) => put_integer(alloc, value, page, out),
        Num::Scaled { mantissa, exponent } => {
            page.put(b"(e ", out);
            put_integer(alloc, mantissa, page, out);
            page.put(b" ", out);
            write_exponent(alloc, exponent, page, out);
            page.put(b")", out);
        }
    }
}

/// Writes an exponent.
fn write_exponent<K: Sink>(alloc: Global, exponent: &i32, page: &mut BufferedSink, out: &mut K)
    ensures { Writes K.written K.faults out.old page.old out.new page.new (signed_decimal exponent.now) }
{
    put_integer(alloc, &i64::from(*exponent), page, out);
}

/// Writes what a property says.
fn write_value<K: Sink>(alloc: Global, value: &Value, page: &mut BufferedSink, out: &mut K)
    ensures { (level : ℕ) → Writes K.written K.faults out.old page.old out.new page.new (layout level (value_tree value.now)) }
{
    match value {
        Value::Boolean(true) => page.put(b"(boolean (true))", out),
        Value::Boolean(false) => page.put(b"(boolean (false))", out),
        Value::Integer(value) => {
            page.put(b"(integer ", out);
            put_integer(alloc, value, page, out);
            page.put(b")", out);
        }
        Value::Number(number) => {
            page.put(b"(number ", out);
            write_number(alloc, number, page, out);
            page.put(b")", out);
        }
        Value::Text(text) => {
            page.put(b"(string ", out);
            put_string(alloc, text, page, out);
            page.put(b")", out);
        }
    }
}

/// Writes a text between the beginning of its form and `)`, where there is one.
pub(crate) fn write_text_form<K: Sink>(
    alloc: Global,
    opening: &[u8],
    text: &Option<Text>,
    page: &mut BufferedSink,
    out: &mut K,
)
    ensures { Writes K.written K.faults out.old page.old out.new page.new (enclosed opening.now text.now) }
{
    if let Some(text) = text {
        page.put(opening, out);
        put_string(alloc, text, page, out);
        page.put(b")", out);
    }
}

/// Writes a property.
pub(crate) fn write_property<K: Sink>(
    alloc: Global,
    property: &Property,
    page: &mut BufferedSink,
    out: &mut K,
)
    ensures { (level : ℕ) → Writes K.written K.faults out.old page.old out.new page.new (layout level (property_tree property.now)) }
{
    page.put(b"(property ", out);
    write_name(alloc, &property.key, page, out);
    page.put(b" ", out);
    write_value(alloc, &property.value, page, out);
    write_text_form(alloc, b" (owner ", &property.owner, page, out);
    page.put(b")", out);
}

/// Writes properties on the line of their form.
pub(crate) fn write_properties<K: Sink>(
    alloc: Global,
    properties: &[Property],
    page: &mut BufferedSink,
    out: &mut K,
)
    ensures { (level : ℕ) → Writes K.written K.faults out.old page.old out.new page.new (spaced level (map property_tree properties.now)) }
{
    for property in properties {
        page.put(b" ", out);
        write_property(alloc, property, page, out);
    }
}

/// Writes properties on lines of their own.
pub(crate) fn write_property_lines<K: Sink>(
    alloc: Global,
    level: usize,
    properties: &Row<Property>,
    page: &mut BufferedSink,
    out: &mut K,
)
    ensures { Writes K.written K.faults out.old page.old out.new page.new (lined level (map property_tree properties.now)) }
{
    for property in properties.as_slice() {
        put_line(level, page, out);
        write_property(alloc, property, page, out);
    }
}
