//! Texts with the endings of copies, and identifiers in lower case.
ghost use Rattle.std.specs.Prelude.{◌≡◌, ◌<◌, IfOk};
ghost use Rattle.std.specs.Char.{to_ascii_lowercase};
ghost use Rattle.std.specs.Option.{option_map};
ghost use Rattle.uniquify_spec.specs.Copies.{numbered};
ghost use Rattle.uniquify_copies.specs.Known.{IsStemOf};

use itoa::Buffer;
use netlist_schema::{Ident, LibId, NoMemory, Text};
use std::alloc::Global;

/// A library, by its place, and an identifier in lower case.
#[derive(Debug, PartialEq, Eq, PartialOrd, Ord, Drop)]
pub struct Stem {
    pub lib: u32,
    pub letters: Vec<u8>,
}

/// The stem of an identifier in a library.
pub(crate) fn stem_of(alloc: Global, lib: LibId, id: &Ident) -> Result<Stem, NoMemory>
    ensures { IfOk result (λ stem. IsStemOf stem lib id.now) }
{
    let mut letters = Vec::new(alloc);
    for byte in id.as_slice() {
        letters.push(byte.to_ascii_lowercase())?;
    }
    Ok(Stem {
        lib: lib.0,
        letters,
    })
}

/// A text with the ending of copy `n`.
fn numbered(alloc: Global, text: &[u8], n: u64) -> Result<Vec<u8>, NoMemory>
    ensures { IfOk result (λ bytes. bytes.items ≡ numbered text.now n) }
{
    let mut buffer = Buffer::new();
    let mut bytes = Vec::from_slice(alloc, text)?;
    bytes.extend_from_slice(b"_u")?;
    bytes.extend_from_slice(buffer.format(n).as_bytes())?;
    Ok(bytes)
}

/// An identifier with the ending of copy `n`.
pub(crate) fn numbered_ident(alloc: Global, id: &Ident, n: u64) -> Result<Ident, NoMemory>
    ensures { IfOk result (λ made. made ≡ numbered id.now n) }
{
    let bytes = numbered(alloc, id.as_slice(), n)?;
    match Ident::of(alloc, bytes.as_slice())? {
        Some(made) => Ok(made),
        None => unreachable!(),
    }
}

/// A shown text, where there is one, with the ending of copy `n`.
pub(crate) fn numbered_text(
    alloc: Global,
    shown: &Option<Text>,
    n: u64,
) -> Result<Option<Text>, NoMemory>
    ensures { IfOk result (λ made. made ≡ option_map (λ text. numbered text n) shown.now) }
{
    match shown {
        None => Ok(None),
        Some(text) => {
            let bytes = numbered(alloc, text.as_slice(), n)?;
            Ok(Some(Text::of(bytes)))
        }
    }
}
