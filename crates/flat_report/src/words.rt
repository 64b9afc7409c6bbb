//! The words of a line, each behind a blank.
ghost use Rattle.std.specs.Prelude.{◌≡◌, ◌++◌, codes, map, OnOk};
ghost use Rattle.std.specs.Fmt.{decimal};
ghost use Rattle.edif_names.specs.Parts.{Grows};
ghost use Rattle.edif_spec.specs.PropertyText.{property_text};
ghost use Rattle.flat_report.specs.Parts.{behind_blanks};

use edif_names::property_text;
use itoa::Buffer;
use netlist_schema::{NoMemory, Property};
use std::alloc::Global;

/// Appends a blank and a word. After `NoMemory` some bytes may stand behind those before.
pub(crate) fn push_word(word: &[u8], out: &mut Vec<u8>) -> Result<(), NoMemory>
    ensures ok { OnOk result (out.new.items ≡ out.old.items ++ (codes " " ++ word.now)) }
    ensures grows { Grows out.old.items out.new.items }
{
    out.push(b' ')?;
    out.extend_from_slice(word)?;
    Ok(())
}

/// Appends a blank and a number in decimal digits. After `NoMemory` some bytes may stand behind those before.
pub(crate) fn push_number(number: u32, out: &mut Vec<u8>) -> Result<(), NoMemory>
    ensures ok { OnOk result (out.new.items ≡ out.old.items ++ (codes " " ++ decimal number)) }
    ensures grows { Grows out.old.items out.new.items }
{
    let mut buffer = Buffer::new();
    push_word(buffer.format(number).as_bytes(), out)
}

/// Appends properties, each behind a blank. After `NoMemory` some bytes may stand behind those before.
pub(crate) fn push_properties(
    alloc: Global,
    properties: &[Property],
    out: &mut Vec<u8>,
) -> Result<(), NoMemory>
    ensures ok { OnOk result (out.new.items ≡ out.old.items ++ behind_blanks (map property_text properties.now)) }
    ensures grows { Grows out.old.items out.new.items }
{
    for property in properties {
        out.push(b' ')?;
        property_text(alloc, property, out)?;
    }
    Ok(())
}
