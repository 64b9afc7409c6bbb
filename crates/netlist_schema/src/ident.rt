//! `Ident`: an identifier.
ghost use Rattle.std.specs.Prelude.{◌≡◌, ◌↔◌, IsTrue, IsNone, IfOk, IfSome};
ghost use Rattle.netlist_schema.specs.Ident.{is_identifier_byte, IsIdentifier, IsSameIgnoringCase};

use netlist_pages::NoMemory;
use smallvec::SmallVec;
use std::alloc::Global;
use std::marker::Model;

/// An identifier: at least one letter, digit or underscore. It may begin with a digit. Up to 16 bytes lie in the value
/// itself; a longer one takes an allocation.
#[derive(Debug)]
pub struct Ident {
    bytes: SmallVec<u8, 16>,
}

impl Drop for Ident {
    fn drop(self) {
        let Ident { bytes: _ } = self;
    }
}

impl Model for Ident {
    ghost use Rattle.std.specs.Prelude.{List, ℕ};
    ghost use Rattle.netlist_schema.specs.Ident.{IsIdentifier};

    ghost Value = { List ℕ };

    ghost view = { λ i. i.bytes.items };

    ghost invariant = { λ i. IsIdentifier i.bytes.items };
}

/// A byte that an identifier may hold, and one that it may not.
const I: bool = true;

const O: bool = false;

/// Which bytes an identifier may hold, sixteen in a row: letters, digits and `_`.
#[rattlefmt::skip]
static IDENTIFIER_BYTES: [bool; 256] = [
    O, O, O, O, O, O, O, O, O, O, O, O, O, O, O, O,
    O, O, O, O, O, O, O, O, O, O, O, O, O, O, O, O,
    O, O, O, O, O, O, O, O, O, O, O, O, O, O, O, O,
    I, I, I, I, I, I, I, I, I, I, O, O, O, O, O, O,
    O, I, I, I, I, I, I, I, I, I, I, I, I, I, I, I,
    I, I, I, I, I, I, I, I, I, I, I, O, O, O, O, I,
    O, I, I, I, I, I, I, I, I, I, I, I, I, I, I, I,
    I, I, I, I, I, I, I, I, I, I, I, O, O, O, O, O,
    O, O, O, O, O, O, O, O, O, O, O, O, O, O, O, O,
    O, O, O, O, O, O, O, O, O, O, O, O, O, O, O, O,
    O, O, O, O, O, O, O, O, O, O, O, O, O, O, O, O,
    O, O, O, O, O, O, O, O, O, O, O, O, O, O, O, O,
    O, O, O, O, O, O, O, O, O, O, O, O, O, O, O, O,
    O, O, O, O, O, O, O, O, O, O, O, O, O, O, O, O,
    O, O, O, O, O, O, O, O, O, O, O, O, O, O, O, O,
    O, O, O, O, O, O, O, O, O, O, O, O, O, O, O, O,
];

/// Whether an identifier may hold the byte.
fn is_identifier_byte(b: u8) -> bool
    ensures { result ≡ is_identifier_byte b }
{
    IDENTIFIER_BYTES[usize::from(b)]
}

impl Ident {
    /// The identifier of these bytes: `None` exactly where there are no bytes, or one of them is no letter, digit or
    /// underscore.
    pub fn of(alloc: Global, bytes: &[u8]) -> Result<Option<Ident>, NoMemory>
        ensures none { IfOk result (λ found. IsNone found → IsIdentifier bytes.now → ⊥) }
        ensures some { IfOk result (λ found. IfSome found (λ name. (name ≡ bytes.now) × IsIdentifier bytes.now)) }
    {
        if bytes.is_empty() || !bytes.iter().all(|b| is_identifier_byte(*b)) {
            return Ok(None);
        }
        let bytes = SmallVec::from_slice(alloc, bytes)?;
        Ok(Some(Ident { bytes }))
    }

    /// Lends the bytes. They are never none.
    pub fn as_slice(&self) -> &[u8]
        ensures value { result.now ≡ self.now }
        ensures identifier { IsIdentifier self.now }
    {
        self.bytes.as_slice()
    }

    /// Whether the two are equal when the case of ASCII letters is ignored. Takes no memory.
    pub fn same(&self, other: &Ident) -> bool
        ensures { IsTrue result ↔ IsSameIgnoringCase self.now other.now }
    {
        self.bytes
            .as_slice()
            .eq_ignore_ascii_case(other.bytes.as_slice())
    }

    /// An equal identifier.
    pub fn copy(&self, alloc: Global) -> Result<Ident, NoMemory>
        ensures { IfOk result (λ name. name ≡ self.now) }
    {
        let bytes = SmallVec::from_slice(alloc, self.bytes.as_slice())?;
        Ok(Ident { bytes })
    }
}
