//! Names that are compared one by one.
ghost use Rattle.std.specs.Prelude.{◌≡◌, ◌≤◌, ◌^◌, [], IfOk, OnErr, false, length, nat_eq};
ghost use Rattle.std.specs.Cmp.Lexicographic.{pointwise};
ghost use Rattle.edif_spec.specs.Keyword.{same};
ghost use Rattle.edif_spec.specs.Means.{meant};
ghost use Rattle.edif_parts.specs.FewNames.{first_from, one_passes};
ghost use Rattle.edif_parts.specs.Names.{DefinesName, Tells, ids};

use crate::own_names::place_among;
use edif_names::Meant;
use netlist_schema::{Ident, NoMemory};
use std::alloc::Global;
use std::marker::Model;

/// The most names that there may be.
const MOST: u64 = 4_294_967_296;

/// Names, no two equal byte for byte, of which there are to be few. Contracts see them in order, each with its place.
pub struct FewNames {
    alloc: Global,
    names: Vec<(Ident, u64)>,
}

impl Drop for FewNames {
    fn drop(self) {
        let FewNames { alloc: _, names: _ } = self;
    }
}

impl Model for FewNames {
    ghost use Rattle.std.specs.Prelude.{◌≤◌, ◌^◌, List, ℕ, length};

    ghost Value = { List (List ℕ × ℕ) };

    ghost view = { λ s. s.names.items };

    ghost invariant = { λ s. length s.names.items ≤ 2 ^ 32 };
}

impl FewNames {
    /// No names, with room for so many.
    pub fn with_room(alloc: Global, count: usize) -> Result<FewNames, NoMemory>
        ensures { IfOk result (λ names. names ≡ []) }
    {
        let names = Vec::with_capacity(alloc, count)?;
        Ok(FewNames { alloc, names })
    }

    /// Defines a name. Where an equal one is there, the answer is its place, and nothing changes; after `NoMemory` nothing has
    /// changed. There may be at most 2^32 names.
    pub fn define(&mut self, name: &Ident, place: u64) -> Result<Option<u64>, NoMemory>
        ensures ok { IfOk result (λ earlier. DefinesName self.old name.now place self.new earlier) }
        ensures err { OnErr result (self.new ≡ self.old) }
    {
        if let Some(earlier) = place_among(self.names.as_slice(), name) {
            return Ok(Some(earlier));
        }
        if self.names.len() as u64 >= MOST {
            return Err(NoMemory);
        }
        let key = name.copy(self.alloc)?;
        self.names.push((key, place))?;
        Ok(None)
    }

    /// What a reference means among these names, by its place in their list. Takes no memory.
    pub fn meant(&self, name: &Ident) -> Meant
        ensures { Tells (meant (ids self.now) name.now) result }
    {
        let names = self.names.as_slice();
        if let Some(at) = first_equal(names, name) {
            return Meant::Found(at);
        }
        match first_same(names, name) {
            None => Meant::Absent,
            Some(at) => {
                if is_one_same(names, name) {
                    Meant::Found(at)
                } else {
                    Meant::Several
                }
            }
        }
    }
}

/// The place in the list of the name that is equal byte for byte. Takes no memory.
fn first_equal(names: &[(Ident, u64)], name: &Ident) -> Option<u32>
    requires { length names.now ≤ 2 ^ 32 }
    ensures { result ≡ first_from 0 (pointwise nat_eq name.now) (ids names.now) }
{
    for (i, entry) in names.iter().enumerate() {
        if *name == entry.0 {
            return Some(i as u32);
        }
    }
    None
}

/// The place in the list of the first name that is the same ignoring the case of ASCII letters. Takes no memory.
fn first_same(names: &[(Ident, u64)], name: &Ident) -> Option<u32>
    requires { length names.now ≤ 2 ^ 32 }
    ensures { result ≡ first_from 0 (same name.now) (ids names.now) }
{
    for (i, entry) in names.iter().enumerate() {
        if is_same(name, &entry.0) {
            return Some(i as u32);
        }
    }
    None
}

/// Whether one name alone is the same ignoring the case of ASCII letters. Takes no memory.
fn is_one_same(names: &[(Ident, u64)], name: &Ident) -> bool
    ensures { result ≡ one_passes false (same name.now) (ids names.now) }
{
    let mut is_seen = false;
    for entry in names {
        if is_same(name, &entry.0) {
            if is_seen {
                return false;
            }
            is_seen = true;
        }
    }
    is_seen
}

/// Whether two names are equal when the case of ASCII letters is ignored.
fn is_same(left: &Ident, right: &Ident) -> bool
    ensures { result ≡ same left.now right.now }
{
    left.same(right)
}
