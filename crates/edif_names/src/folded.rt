//! Names of a scope, looked up ignoring case.
ghost use Rattle.std.specs.Prelude.{◌≡◌, ◌∷◌, ◌++◌, [], List, ℕ, OnErr, OnOk, length, nat_eq};
ghost use Rattle.indexmap.specs.IndexMap.{get};
ghost use Rattle.netlist_schema.specs.Marks.{hash_of};
ghost use Rattle.edif_names.specs.Folded.{AreSpotsOf, Numbered};

use indexmap::IndexMap;
use netlist_schema::{Ident, NoMemory, hash_of};
use std::alloc::Global;

/// Of the names of one hash the first, by its place in the list of names, and whether it is the only one.
#[derive(Clone, Copy, Debug)]
pub struct Spot {
    pub first: u32,
    pub is_alone: bool,
}

/// The number of the first name that is the same ignoring case, and whether it is the only one.
#[derive(Clone, Copy, Debug)]
pub struct Noted {
    pub id: u32,
    pub is_only: bool,
}

/// The spots of a scope's names by a hash of their lower case. It keeps no names.
pub struct Folded {
    spots: IndexMap<u64, Spot>,
}

impl Drop for Folded {
    fn drop(self) {
        let Folded { spots: _ } = self;
    }
}

impl Folded {
    /// The spots of no names. Takes no memory.
    pub fn new(alloc: Global) -> Folded
        ensures { AreSpotsOf [] result }
    {
        Folded {
            spots: IndexMap::new(alloc),
        }
    }

    /// Adds the name that stands in a place behind the others. After `NoMemory` the spots are as before.
    pub fn add(&mut self, name: &Ident, place: u32) -> Result<(), NoMemory>
        ensures ok { OnOk result ((ns : List Numbered) (n : Numbered) → length ns ≡ place → n.name ≡ name.now → AreSpotsOf ns self.old → AreSpotsOf (ns ++ n ∷ []) self.new) }
        ensures err { OnErr result ((hash : ℕ) → get nat_eq self.new.spots hash ≡ get nat_eq self.old.spots hash) }
    {
        let hash = hash_of(name.as_slice());
        match self.spots.get_mut(&hash) {
            Some(spot) => {
                spot.is_alone = false;
                Ok(())
            }
            None => {
                let spot = Spot {
                    first: place,
                    is_alone: true,
                };
                self.spots.insert(hash, spot)?;
                Ok(())
            }
        }
    }

    /// The spot of a name's hash. Takes no memory.
    pub fn get(&self, name: &Ident) -> Option<Spot>
        ensures { result ≡ get nat_eq self.now.spots (hash_of name.now) }
    {
        self.spots.get(&hash_of(name.as_slice())).copied()
    }
}
