//! Identifiers and integers, as they are spelled.
ghost use Rattle.std.specs.Prelude.{◌≡◌, ◌++◌, OnErr, OnOk};
ghost use Rattle.std.specs.Fmt.{signed_decimal};
ghost use Rattle.edif_spec.specs.Canonical.{name_text};

use itoa::Buffer;
use netlist_schema::{Ident, NoMemory};
use std::alloc::Global;

/// Appends an identifier: its name, behind `&` where the first byte is no letter. After `NoMemory` the bytes are as
/// before.
pub fn write_ident(_alloc: Global, name: &Ident, out: &mut Vec<u8>) -> Result<(), NoMemory>
    ensures ok { OnOk result (out.new.items ≡ out.old.items ++ name_text name.now) }
    ensures err { OnErr result (out.new.items ≡ out.old.items) }
{
    let name = name.as_slice();
    if name[0].is_ascii_alphabetic() {
        out.extend_from_slice(name)?;
        return Ok(());
    }
    out.push(b'&')?;
    if out.extend_from_slice(name).is_err() {
        out.pop();
        return Err(NoMemory);
    }
    Ok(())
}

/// Appends an integer: decimal digits without leading zeros, behind `-` where it is negative. After `NoMemory` the bytes
/// are as before.
pub fn write_integer(_alloc: Global, value: i64, out: &mut Vec<u8>) -> Result<(), NoMemory>
    ensures ok { OnOk result (out.new.items ≡ out.old.items ++ signed_decimal value) }
    ensures err { OnErr result (out.new.items ≡ out.old.items) }
{
    let mut buffer = Buffer::new();
    out.extend_from_slice(buffer.format(value).as_bytes())?;
    Ok(())
}
