//! Properties, as a line shows them.
ghost use Rattle.std.specs.Prelude.{◌≡◌, ◌++◌, codes, OnErr, OnOk};
ghost use Rattle.edif_names.specs.Parts.{Grows};
ghost use Rattle.edif_spec.specs.PropertyText.{boolean_text, number_text, property_text, value_text};

use crate::strings::write_string;
use crate::words::write_integer;
use netlist_schema::{NoMemory, Num, Property, Value};
use std::alloc::Global;

/// Appends a property as a line shows it: its key without `&`, `=`, and `true`, `false`, an integer, `n` and a number
/// (`n`, the mantissa, `e` and the exponent of a scaled one), or a string as `write_string` spells it. After `NoMemory`
/// the bytes are as before.
pub fn property_text(alloc: Global, property: &Property, out: &mut Vec<u8>) -> Result<(), NoMemory>
    ensures ok { OnOk result (out.new.items ≡ out.old.items ++ property_text property.now) }
    ensures err { OnErr result (out.new.items ≡ out.old.items) }
{
    let before = out.len();
    if push_property(alloc, property, out).is_err() {
        out.truncate(before);
        return Err(NoMemory);
    }
    Ok(())
}

/// Appends a property. After `NoMemory` some bytes may stand behind those before.
fn push_property(alloc: Global, property: &Property, out: &mut Vec<u8>) -> Result<(), NoMemory>
    ensures ok { OnOk result (out.new.items ≡ out.old.items ++ property_text property.now) }
    ensures err { OnErr result (Grows out.old.items out.new.items) }
{
    out.extend_from_slice(property.key.id.as_slice())?;
    out.push(b'=')?;
    push_value(alloc, &property.value, out)
}

/// Appends a value. After `NoMemory` some bytes may stand behind those before.
fn push_value(alloc: Global, value: &Value, out: &mut Vec<u8>) -> Result<(), NoMemory>
    ensures ok { OnOk result (out.new.items ≡ out.old.items ++ value_text value.now) }
    ensures grows { Grows out.old.items out.new.items }
{
    match value {
        Value::Boolean(truth) => push_boolean(*truth, out),
        Value::Integer(integer) => write_integer(alloc, *integer, out),
        Value::Number(number) => push_number(alloc, *number, out),
        Value::Text(text) => write_string(alloc, text, out),
    }
}

/// Appends a boolean. After `NoMemory` the bytes are as before.
fn push_boolean(truth: bool, out: &mut Vec<u8>) -> Result<(), NoMemory>
    ensures ok { OnOk result (out.new.items ≡ out.old.items ++ boolean_text truth) }
    ensures err { OnErr result (out.new.items ≡ out.old.items) }
{
    if truth {
        out.extend_from_slice(b"true")?;
    } else {
        out.extend_from_slice(b"false")?;
    }
    Ok(())
}

/// Appends `n` and a number. After `NoMemory` some bytes may stand behind those before.
fn push_number(alloc: Global, number: Num, out: &mut Vec<u8>) -> Result<(), NoMemory>
    ensures ok { OnOk result (out.new.items ≡ out.old.items ++ codes "n" ++ number_text number) }
    ensures grows { Grows out.old.items out.new.items }
{
    out.push(b'n')?;
    match number {
        Num::Int(integer) => write_integer(alloc, integer, out),
        Num::Scaled { mantissa, exponent } => {
            write_integer(alloc, mantissa, out)?;
            out.push(b'e')?;
            write_integer(alloc, i64::from(exponent), out)
        }
    }
}
