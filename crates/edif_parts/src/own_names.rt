//! Names to which nothing refers.
ghost use Rattle.std.specs.Prelude.{◌≡◌, [], None, IfErr, OnOk, nat_eq};
ghost use Rattle.std.specs.Map.{lookup};
ghost use Rattle.std.specs.Cmp.Lexicographic.{pointwise};
ghost use Rattle.edif_parts.specs.Names.{DefinesName, IsAgain};
ghost use Rattle.edif_parts.specs.Reading.{Names as FailsBy};

use crate::error::{EdifError, clash};
use edif_spec::ClashKind;
use indexmap::IndexMap;
use netlist_schema::Ident;
use std::alloc::Global;
use std::marker::Model;

/// How many keys are compared one by one, before there is a table of them.
const FEW: usize = 8;

/// The names that a list of forms defines and to which nothing refers, no two equal byte for byte. Contracts see them in order, each
/// with its place.
pub struct OwnNames {
    alloc: Global,
    places: IndexMap<Ident, u64>,
}

impl Drop for OwnNames {
    fn drop(self) {
        let OwnNames {
            alloc: _,
            places: _,
        } = self;
    }
}

impl Model for OwnNames {
    ghost use Rattle.std.specs.Prelude.{List, ℕ};

    ghost Value = { List (List ℕ × ℕ) };

    ghost view = { λ s. s.places.entries };
}

impl OwnNames {
    /// No names. Takes no memory.
    pub fn new(alloc: Global) -> OwnNames
        ensures { result ≡ [] }
    {
        OwnNames {
            alloc,
            places: IndexMap::new(alloc),
        }
    }

    /// Defines a name, which is not there yet; where an equal one is, the error is that the name is defined again.
    pub fn add(&mut self, name: &Ident, place: u64) -> Result<(), EdifError>
        ensures ok { OnOk result (DefinesName self.old name.now place self.new None) }
        ensures err { IfErr result (FailsBy (IsAgain self.old name.now place)) }
    {
        let key = name.copy(self.alloc)?;
        if let Some(earlier) = self.places.insert(key, place)? {
            return Err(clash(ClashKind::Duplicate, place, earlier));
        }
        Ok(())
    }
}

/// The same of the keys of one owner, of which there are mostly few.
pub struct Keys {
    alloc: Global,
    few: Vec<(Ident, u64)>,
    others: OwnNames,
}

impl Drop for Keys {
    fn drop(self) {
        let Keys {
            alloc: _,
            few: _,
            others: _,
        } = self;
    }
}

impl Model for Keys {
    ghost use Rattle.std.specs.Prelude.{◌≡◌, ◌<◌, ◌++◌, [], List, ℕ, length};

    ghost Value = { List (List ℕ × ℕ) };

    ghost view = { λ s. s.few.items ++ s.others };

    ghost invariant = { λ s. length s.few.items < 8 → s.others ≡ [] };
}

impl Keys {
    /// No keys. Takes no memory.
    pub fn new(alloc: Global) -> Keys
        ensures { result ≡ [] }
    {
        Keys {
            alloc,
            few: Vec::new(alloc),
            others: OwnNames::new(alloc),
        }
    }

    /// Defines a key, which is not there yet; where an equal one is, the error is that it is defined again.
    pub fn add(&mut self, name: &Ident, place: u64) -> Result<(), EdifError>
        ensures ok { OnOk result (DefinesName self.old name.now place self.new None) }
        ensures err { IfErr result (FailsBy (IsAgain self.old name.now place)) }
    {
        if let Some(earlier) = place_among(self.few.as_slice(), name) {
            return Err(clash(ClashKind::Duplicate, place, earlier));
        }
        if self.few.len() >= FEW {
            return self.others.add(name, place);
        }
        let key = name.copy(self.alloc)?;
        self.few.push((key, place))?;
        Ok(())
    }
}

/// The place of the equal one of a few names. Takes no memory.
pub(crate) fn place_among(few: &[(Ident, u64)], name: &Ident) -> Option<u64>
    ensures { result ≡ lookup (pointwise nat_eq name.now) few.now }
{
    for entry in few {
        if *name == entry.0 {
            return Some(entry.1);
        }
    }
    None
}
