//! Names in tables, in which each is found at once.
ghost use Rattle.std.specs.Prelude.{◌≡◌, [], IfOk, OnErr};
ghost use Rattle.edif_spec.specs.Means.{meant};
ghost use Rattle.edif_parts.specs.Names.{DefinesName, Tells, ids};

use edif_names::{Defined, Meant, Scope};
use netlist_schema::{Ident, NoMemory};
use std::alloc::Global;
use std::marker::Model;

/// Any number of names, no two equal byte for byte. Contracts see them in order, each with its place.
pub struct NameTable {
    scope: Scope,
    count: u64,
}

impl Drop for NameTable {
    fn drop(self) {
        let NameTable { scope: _, count: _ } = self;
    }
}

impl Model for NameTable {
    ghost use Rattle.std.specs.Prelude.{◌≡◌, List, ℕ, length, map};
    ghost use Rattle.edif_names.specs.Scope.{Definition};
    ghost use Rattle.edif_parts.specs.Names.{AreNumbered};

    ghost Value = { List (List ℕ × ℕ) };

    ghost view = { λ s. map (λ (d : Definition). (d.name, d.place)) s.scope };

    ghost invariant = { λ s. AreNumbered 0 s.scope × (length s.scope ≡ s.count) };
}

impl NameTable {
    /// No names. Takes no memory.
    pub fn new(alloc: Global) -> NameTable
        ensures { result ≡ [] }
    {
        NameTable {
            scope: Scope::new(alloc),
            count: 0,
        }
    }

    /// Defines a name. Where an equal one is there, the answer is its place, and nothing changes; after `NoMemory` nothing has
    /// changed. There may be at most 2^32 names.
    pub fn define(&mut self, name: &Ident, place: u64) -> Result<Option<u64>, NoMemory>
        ensures ok { IfOk result (λ earlier. DefinesName self.old name.now place self.new earlier) }
        ensures err { OnErr result (self.new ≡ self.old) }
    {
        let Ok(id) = u32::try_from(self.count) else {
            return Err(NoMemory);
        };
        match self.scope.define(name, id, place)? {
            Defined::Added => {
                self.count += 1;
                Ok(None)
            }
            Defined::Earlier(earlier) => Ok(Some(earlier)),
        }
    }

    /// What a reference means among these names, by its place in their list. Takes no memory.
    pub fn meant(&self, name: &Ident) -> Meant
        ensures { Tells (meant (ids self.now) name.now) result }
    {
        self.scope.meant(name)
    }
}
