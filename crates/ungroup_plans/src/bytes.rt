//! Bytes of names.
ghost use Rattle.std.specs.Prelude.{◌≡◌, ◌++◌, ◌∷◌, [], IfOk, map};
ghost use Rattle.std.specs.Char.{to_ascii_lowercase};
ghost use Rattle.ungroup_spec.specs.Names.{displayed, numbered};

use itoa::Buffer;
use netlist_schema::{Name, NoMemory};
use std::alloc::Global;

/// The bytes with each letter in lower case.
pub(crate) fn lower_case(alloc: Global, name: &[u8]) -> Result<Vec<u8>, NoMemory>
    ensures { IfOk result (λ made. made.items ≡ map to_ascii_lowercase name.now) }
{
    let mut made = Vec::with_capacity(alloc, name.len())?;
    for byte in name {
        made.push(byte.to_ascii_lowercase())?;
    }
    Ok(made)
}

/// The first bytes, then these in between, and then the last.
pub(crate) fn joined(
    alloc: Global,
    first: &[u8],
    between: u8,
    last: &[u8],
) -> Result<Vec<u8>, NoMemory>
    ensures { IfOk result (λ made. made.items ≡ (first.now ++ between ∷ []) ++ last.now) }
{
    let mut made = first.to_vec(alloc)?;
    made.push(between)?;
    made.extend_from_slice(last)?;
    Ok(made)
}

/// The name with a number behind it.
pub(crate) fn numbered(alloc: Global, name: &[u8], number: u64) -> Result<Vec<u8>, NoMemory>
    ensures { IfOk result (λ made. made.items ≡ numbered name.now number) }
{
    let mut buffer = Buffer::new();
    joined(alloc, name, b'_', buffer.format(number).as_bytes())
}

/// What is displayed for a name: its text, or else its identifier. Takes no memory.
pub(crate) fn displayed(name: &Name) -> &[u8]
    ensures { result.now ≡ displayed name.now }
{
    match &name.shown {
        Some(text) => text.as_slice(),
        None => name.id.as_slice(),
    }
}
