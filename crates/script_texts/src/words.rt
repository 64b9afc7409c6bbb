//! The words of a line, each behind a blank.
ghost use Rattle.std.specs.Prelude.{◌≡◌, ◌∷◌, [], ◌++◌, map, OnOk};
ghost use Rattle.std.specs.Fmt.{decimal, signed_decimal};
ghost use Rattle.edif_names.specs.Parts.{Grows};
ghost use Rattle.edif_spec.specs.PropertyText.{property_text};
ghost use Rattle.script_texts.specs.Parts.{behind, behind_blanks};

use edif_names::{property_text, write_integer};
use edit_spec::CellName;
use itoa::Buffer;
use netlist_schema::{Ident, NoMemory, Property};
use std::alloc::Global;

/// Appends a blank and a word. After `NoMemory` some bytes may stand behind those before.
pub fn push_word(word: &[u8], out: &mut Vec<u8>) -> Result<(), NoMemory>
    ensures ok { OnOk result (out.new.items ≡ out.old.items ++ behind_blanks (word.now ∷ [])) }
    ensures grows { Grows out.old.items out.new.items }
{
    out.push(b' ')?;
    out.extend_from_slice(word)?;
    Ok(())
}

/// Appends a number in decimal digits. After `NoMemory` some bytes may stand behind those before.
pub fn push_digits(number: u64, out: &mut Vec<u8>) -> Result<(), NoMemory>
    ensures ok { OnOk result (out.new.items ≡ out.old.items ++ decimal number) }
    ensures grows { Grows out.old.items out.new.items }
{
    let mut buffer = Buffer::new();
    out.extend_from_slice(buffer.format(number).as_bytes())?;
    Ok(())
}

/// Appends a blank and a number. After `NoMemory` some bytes may stand behind those before.
pub fn push_number(number: u64, out: &mut Vec<u8>) -> Result<(), NoMemory>
    ensures ok { OnOk result (out.new.items ≡ out.old.items ++ behind_blanks (decimal number ∷ [])) }
    ensures grows { Grows out.old.items out.new.items }
{
    out.push(b' ')?;
    push_digits(number, out)
}

/// Appends a word and a number, each behind a blank. After `NoMemory` some bytes may stand behind those before.
pub fn push_count(word: &[u8], number: u64, out: &mut Vec<u8>) -> Result<(), NoMemory>
    ensures ok { OnOk result (out.new.items ≡ out.old.items ++ behind_blanks (word.now ∷ decimal number ∷ [])) }
    ensures grows { Grows out.old.items out.new.items }
{
    push_word(word, out)?;
    push_number(number, out)
}

/// Appends a blank and an integer. After `NoMemory` some bytes may stand behind those before.
pub(crate) fn push_integer(alloc: Global, integer: i64, out: &mut Vec<u8>) -> Result<(), NoMemory>
    ensures ok { OnOk result (out.new.items ≡ out.old.items ++ behind_blanks (signed_decimal integer ∷ [])) }
    ensures grows { Grows out.old.items out.new.items }
{
    out.push(b' ')?;
    write_integer(alloc, integer, out)
}

/// Appends the names of a cell's library and of the cell, each behind a blank. After `NoMemory` some bytes may stand behind those
/// before.
pub(crate) fn push_cell(cell: &CellName, out: &mut Vec<u8>) -> Result<(), NoMemory>
    ensures ok { OnOk result (out.new.items ≡ out.old.items ++ behind_blanks (cell.now.lib ∷ cell.now.cell ∷ [])) }
    ensures grows { Grows out.old.items out.new.items }
{
    push_word(cell.lib.as_slice(), out)?;
    push_word(cell.cell.as_slice(), out)
}

/// Appends properties, each behind a blank, as items show them. After `NoMemory` some bytes may stand behind those before.
pub(crate) fn push_shown(
    alloc: Global,
    properties: &[Property],
    out: &mut Vec<u8>,
) -> Result<(), NoMemory>
    ensures ok { OnOk result (out.new.items ≡ out.old.items ++ behind_blanks (map property_text properties.now)) }
    ensures grows { Grows out.old.items out.new.items }
{
    for property in properties {
        out.push(b' ')?;
        property_text(alloc, property, out)?;
    }
    Ok(())
}

/// Appends names, each behind a mark. After `NoMemory` some bytes may stand behind those before.
pub(crate) fn push_marked(mark: u8, names: &[Ident], out: &mut Vec<u8>) -> Result<(), NoMemory>
    ensures ok { OnOk result (out.new.items ≡ out.old.items ++ behind mark names.now) }
    ensures grows { Grows out.old.items out.new.items }
{
    for name in names {
        out.push(mark)?;
        out.extend_from_slice(name.as_slice())?;
    }
    Ok(())
}
