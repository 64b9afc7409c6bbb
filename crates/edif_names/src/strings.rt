//! Strings, as they are spelled.
ghost use Rattle.std.specs.Prelude.{◌≡◌, [], ◌∷◌, ◌++◌, List, ℕ, IfOk, OnErr, OnOk, decimal};
ghost use Rattle.edif_spec.specs.Canonical.{string_text};
ghost use Rattle.edif_names.specs.Parts.{Grows, body_text};

use crate::plain::{are_plain, is_plain};
use itoa::Buffer;
use netlist_schema::{NoMemory, Text};
use std::alloc::Global;

/// Appends a string between quotes. The bytes 32 to 126 other than `"` and `%` stand for themselves; each longest run of
/// other bytes is written as `%`, their decimal codes with one space between them, and `%`. After `NoMemory` the bytes are
/// as before.
pub fn write_string(_alloc: Global, text: &Text, out: &mut Vec<u8>) -> Result<(), NoMemory>
    ensures ok { OnOk result (out.new.items ≡ out.old.items ++ string_text text.now) }
    ensures err { OnErr result (out.new.items ≡ out.old.items) }
{
    let before = out.len();
    if push_string(text.as_slice(), out).is_err() {
        out.truncate(before);
        return Err(NoMemory);
    }
    Ok(())
}

/// Appends a string. After `NoMemory` some bytes may stand behind those before.
#[tactic(auto, using(crate::proofs::PlainLemmas::plain_same))]
fn push_string(text: &[u8], out: &mut Vec<u8>) -> Result<(), NoMemory>
    ensures ok { OnOk result (out.new.items ≡ out.old.items ++ string_text text.now) }
    ensures err { OnErr result (Grows out.old.items out.new.items) }
{
    if are_plain(text) {
        return push_plain(text, out);
    }
    out.push(b'"')?;
    let mut is_coded = false;
    for byte in text {
        is_coded = push_byte(*byte, is_coded, out)?;
    }
    push_end(is_coded, out)
}

/// Appends a string of bytes that stand for themselves. After `NoMemory` some bytes may stand behind those before.
fn push_plain(text: &[u8], out: &mut Vec<u8>) -> Result<(), NoMemory>
    ensures ok { OnOk result (out.new.items ≡ out.old.items ++ 34 ∷ (text.now ++ 34 ∷ [])) }
    ensures grows { Grows out.old.items out.new.items }
{
    out.push(b'"')?;
    out.extend_from_slice(text)?;
    out.push(b'"')?;
    Ok(())
}

/// Ends a string, where the last byte was written as a code or not.
fn push_end(is_coded: bool, out: &mut Vec<u8>) -> Result<(), NoMemory>
    ensures ok { OnOk result (out.new.items ≡ out.old.items ++ body_text is_coded [] ++ 34 ∷ []) }
    ensures grows { Grows out.old.items out.new.items }
{
    if is_coded {
        out.push(b'%')?;
    }
    out.push(b'"')?;
    Ok(())
}

/// Appends one byte of a string, where the one before it was written as a code or not, and says so of this one.
fn push_byte(byte: u8, is_coded: bool, out: &mut Vec<u8>) -> Result<bool, NoMemory>
    ensures ok { IfOk result (λ coded. (rest : List ℕ) → out.new.items ++ body_text coded rest ≡ out.old.items ++ body_text is_coded (byte ∷ rest)) }
    ensures grows { Grows out.old.items out.new.items }
{
    if !is_plain(byte) {
        push_code(byte, if is_coded { b' ' } else { b'%' }, out)?;
        return Ok(true);
    }
    if is_coded {
        out.push(b'%')?;
    }
    out.push(byte)?;
    Ok(false)
}

/// Appends a mark and the decimal code of a byte.
fn push_code(code: u8, mark: u8, out: &mut Vec<u8>) -> Result<(), NoMemory>
    ensures ok { OnOk result (out.new.items ≡ out.old.items ++ mark ∷ decimal code) }
    ensures grows { Grows out.old.items out.new.items }
{
    out.push(mark)?;
    let mut buffer = Buffer::new();
    out.extend_from_slice(buffer.format(code).as_bytes())?;
    Ok(())
}
