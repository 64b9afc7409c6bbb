//! Scopes: what the names in them mean.
ghost use Rattle.std.specs.Prelude.{◌≡◌, [], IfOk, OnErr};
ghost use Rattle.edif_spec.specs.Keyword.{same};
ghost use Rattle.edif_spec.specs.Means.{meant};
ghost use Rattle.edif_names.specs.Folded.{noted, noted_by};
ghost use Rattle.edif_names.specs.Scope.{Definition, Defines, Says, names, numbered};

use crate::folded::{Folded, Noted, Spot};
use indexmap::IndexMap;
use netlist_schema::{Ident, NoMemory};
use std::alloc::Global;
use std::marker::Model;

/// What defining a name gave.
#[derive(Clone, Copy, Debug, PartialEq, Eq)]
pub enum Defined {
    Added,
    /// An equal name is there, at this place.
    Earlier(u64),
}

/// What a reference means.
#[derive(Clone, Copy, Debug, PartialEq, Eq)]
pub enum Meant {
    /// The definition with this number.
    Found(u32),
    /// No definition.
    Absent,
    /// Several definitions, all the same ignoring case, and none of them equal.
    Several,
}

/// What a name stands for, and where it is defined.
#[derive(Clone, Copy, Debug)]
pub struct Entry {
    id: u32,
    place: u64,
}

/// The names defined in a scope, in order, no two of them equal byte for byte. Contracts see the list of definitions.
pub struct Scope {
    alloc: Global,
    exact: IndexMap<Ident, Entry>,
    folded: Folded,
}

impl Drop for Scope {
    fn drop(self) {
        let Scope {
            alloc: _,
            exact: _,
            folded: _,
        } = self;
    }
}

impl Model for Scope {
    ghost use Rattle.std.specs.Prelude.{List, map};
    ghost use Rattle.edif_names.specs.Folded.{AreSpotsOf};
    ghost use Rattle.edif_names.specs.Scope.{Definition, numbered};

    ghost Value = { List Definition };

    ghost view = { λ s. map (λ e. record { name = e.0; id = e.1.id; place = e.1.place }) s.exact.entries };

    ghost invariant = { λ s. AreSpotsOf (numbered s.exact.entries) s.folded };
}

impl Scope {
    /// A scope with no names. Takes no memory.
    pub fn new(alloc: Global) -> Scope
        ensures { result ≡ [] }
    {
        Scope {
            alloc,
            exact: IndexMap::new(alloc),
            folded: Folded::new(alloc),
        }
    }

    /// Defines a name with a number and a place. Where a name that is equal byte for byte is there, the answer is its place,
    /// and nothing changes. After `NoMemory` the scope is as before.
    pub fn define(&mut self, name: &Ident, id: u32, place: u64) -> Result<Defined, NoMemory>
        ensures ok { IfOk result (λ defined. Defines self.old (record { name = name.now; id = id; place = place }) self.new defined) }
        ensures err { OnErr result (self.new ≡ self.old) }
    {
        if let Some(earlier) = self.exact.get(name) {
            return Ok(Defined::Earlier(earlier.place));
        }
        let key = name.copy(self.alloc)?;
        self.exact.reserve(1)?;
        let Ok(last) = u32::try_from(self.exact.len()) else {
            return Err(NoMemory);
        };
        self.folded.add(name, last)?;
        self.exact.insert(key, Entry { id, place }).unwrap();
        Ok(Defined::Added)
    }

    /// What a reference means: the definition of the equal name; where there is none, the only one whose name is the same
    /// ignoring the case of ASCII letters. Takes no memory, and where one name alone has the hash of its lower case looks only at that.
    pub fn meant(&self, name: &Ident) -> Meant
        ensures { Says self.now (meant (names self.now) name.now) result }
    {
        if let Some(entry) = self.exact.get(name) {
            return Meant::Found(entry.id);
        }
        match noted_by(&self.exact, self.folded.get(name), name) {
            Some(noted) => {
                if noted.is_only {
                    Meant::Found(noted.id)
                } else {
                    Meant::Several
                }
            }
            None => Meant::Absent,
        }
    }
}

/// What is noted of a name among those of a table, by the spot of its hash. Takes no memory.
fn noted_by(exact: &IndexMap<Ident, Entry>, spot: Option<Spot>, name: &Ident) -> Option<Noted>
    ensures { result ≡ noted_by name.now (numbered exact.now.entries) spot }
{
    let spot = spot?;
    if !spot.is_alone {
        return noted(exact, name);
    }
    let (other, entry) = exact.get_index(spot.first as usize)?;
    if is_same(name, other) {
        let id = entry.id;
        return Some(Noted { id, is_only: true });
    }
    None
}

/// The same, by each name of the table.
fn noted(exact: &IndexMap<Ident, Entry>, name: &Ident) -> Option<Noted>
    ensures { result ≡ noted name.now (numbered exact.now.entries) }
{
    let mut first = None;
    for (other, entry) in exact.iter() {
        if is_same(name, other) {
            match first {
                Some(id) => return Some(Noted { id, is_only: false }),
                None => first = Some(entry.id),
            }
        }
    }
    let id = first?;
    Some(Noted { id, is_only: true })
}

/// Whether two names are equal when the case of ASCII letters is ignored.
fn is_same(left: &Ident, right: &Ident) -> bool
    ensures { result ≡ same left.now right.now }
{
    left.same(right)
}
