//! `LowerName`: a name in lower case.
ghost use Rattle.std.specs.Prelude.{◌≡◌, ◌↔◌, ◌∷◌, [], nat_eq, map, IfOk, IsTrue};
ghost use Rattle.std.specs.Char.{to_ascii_lowercase};
ghost use Rattle.std.specs.Cmp.{partial_equiv_from_equiv};
ghost use Rattle.std.specs.Cmp.Lexicographic.{pointwise, nat_list_eq_equiv, same_text};
ghost use Rattle.std.proofs.Common.{ap, sym};

use netlist_schema::{Ident, NoMemory};
use smallvec::SmallVec;
use std::alloc::Global;
use std::hash::{Hash, Hasher};
use std::marker::Model;

/// A name with each ASCII letter in lower case: two names have one, where they are the same ignoring case. Up to 16 bytes lie in
/// the value itself; a longer one takes an allocation.
pub struct LowerName {
    bytes: SmallVec<u8, 16>,
}

impl Drop for LowerName {
    fn drop(self) {
        let LowerName { bytes: _ } = self;
    }
}

impl Model for LowerName {
    ghost use Rattle.std.specs.Prelude.{List, ℕ};

    ghost Value = { List ℕ };

    ghost view = { λ n. n.bytes.items };
}

impl LowerName {
    /// The name in lower case.
    pub fn of(alloc: Global, name: &Ident) -> Result<LowerName, NoMemory>
        ensures { IfOk result (λ made. made ≡ map to_ascii_lowercase name.now) }
    {
        let bytes = lowered(alloc, name.as_slice())?;
        Ok(LowerName { bytes })
    }

    /// Lends the bytes.
    fn as_slice(&self) -> &[u8]
        ensures { result.now ≡ self.now }
    {
        self.bytes.as_slice()
    }
}

/// The bytes with each ASCII letter in lower case.
fn lowered(alloc: Global, bytes: &[u8]) -> Result<SmallVec<u8, 16>, NoMemory>
    ensures { IfOk result (λ made. made.items ≡ map to_ascii_lowercase bytes.now) }
{
    let mut made = SmallVec::new(alloc);
    for byte in bytes {
        made.push(byte.to_ascii_lowercase())?;
    }
    Ok(made)
}

impl PartialEq for LowerName {
    ghost eq = { pointwise nat_eq };

    ghost laws = { partial_equiv_from_equiv nat_list_eq_equiv };

    fn eq(&self, other: &LowerName) -> bool
        ensures value { result ≡ pointwise nat_eq self.now other.now }
        ensures equal { IsTrue result ↔ (self.now ≡ other.now) }
    {
        self.as_slice() == other.as_slice()
    }
}

impl Eq for LowerName {
    ghost laws = { nat_list_eq_equiv };
}

impl Hash for LowerName {
    ghost hash_input = { λ name. name ∷ [] };

    ghost respects_eq = { λ x y h. ap (λ name. name ∷ []) (same_text x y (sym h)) };

    fn hash<H: Hasher>(&self, state: &mut H) {
        state.write(self.as_slice());
    }
}
