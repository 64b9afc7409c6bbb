//! Bytes and numbers behind a text.
ghost use Rattle.std.specs.Prelude.{◌≡◌, ◌∷◌, [], ◌++◌, OnOk};
ghost use Rattle.std.specs.Fmt.{decimal};
ghost use Rattle.edif_names.specs.Parts.{Grows};
ghost use Rattle.script_spec.specs.Texts.{line};

use itoa::Buffer;
use netlist_schema::NoMemory;

/// Appends bytes. After `NoMemory` the bytes are as before.
pub(crate) fn push_bytes(bytes: &[u8], out: &mut Vec<u8>) -> Result<(), NoMemory>
    ensures ok { OnOk result (out.new.items ≡ out.old.items ++ bytes.now) }
    ensures grows { Grows out.old.items out.new.items }
{
    out.extend_from_slice(bytes)?;
    Ok(())
}

/// Appends a number in decimal digits. After `NoMemory` the bytes are as before.
fn push_digits(number: u64, out: &mut Vec<u8>) -> Result<(), NoMemory>
    ensures ok { OnOk result (out.new.items ≡ out.old.items ++ decimal number) }
    ensures grows { Grows out.old.items out.new.items }
{
    let mut buffer = Buffer::new();
    out.extend_from_slice(buffer.format(number).as_bytes())?;
    Ok(())
}

/// Appends a line of a word and a number. After `NoMemory` some bytes may stand behind those before.
pub(crate) fn push_numbered(word: &[u8], number: u64, out: &mut Vec<u8>) -> Result<(), NoMemory>
    ensures ok { OnOk result (out.new.items ≡ out.old.items ++ line (word.now ∷ decimal number ∷ [])) }
    ensures grows { Grows out.old.items out.new.items }
{
    push_bytes(word, out)?;
    push_bytes(b" ", out)?;
    push_digits(number, out)?;
    push_bytes(b"\n", out)
}
