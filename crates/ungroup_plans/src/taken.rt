//! `Taken`: names that are taken.
ghost use Rattle.std.specs.Prelude.{◌≡◌, ◌∷◌, [], IfOk, OnOk, List, ℕ};
ghost use Rattle.netlist_schema.specs.Ident.{IsIdentifier};
ghost use Rattle.ungroup_plans.specs.Taken.{AreUsedUp, IsAdded, IsMadeFree, IsNamedUp, IsOf, IsTold};

use crate::bytes::{displayed, joined, lower_case, numbered};
use netlist_schema::{Ident, Name, NoMemory, Text};
use std::alloc::Global;
use std::collections::{BTreeMap, BTreeSet};
use std::marker::Model;

/// Names that are taken. Two names that differ in the case of letters alone count as one. Contracts see the names in lower
/// case, in order.
#[derive(Drop)]
pub struct Taken {
    alloc: Global,
    lower: BTreeSet<Vec<u8>>,
    /// For each name that was found taken, in lower case: all numbers from 1 below this one are taken with it.
    next: BTreeMap<Vec<u8>, u64>,
}

impl Model for Taken {
    ghost use Rattle.std.specs.Prelude.{List, ℕ, map};

    ghost Value = { List (List ℕ) };

    ghost view = { λ t. map (λ k. k.items) t.lower.keys };

    ghost use Rattle.ungroup_plans.specs.Taken.{AreKept};

    ghost invariant = { λ t. AreKept t.next (λ k. k.items) (map (λ k. k.items) t.lower.keys) };
}

impl Taken {
    /// No names. Takes no memory.
    pub fn new(alloc: Global) -> Taken
        ensures { IsOf result [] }
    {
        Taken {
            alloc,
            lower: BTreeSet::new(alloc),
            next: BTreeMap::new(alloc),
        }
    }

    /// Takes a name, and answers whether it was free.
    fn take_bytes(&mut self, name: &[u8]) -> Result<bool, NoMemory>
        ensures told { IfOk result (IsTold self.old name.now self.new) }
        ensures added { IfOk result (IsAdded self.old name.now self.new) }
    {
        let key = lower_case(self.alloc, name)?;
        Ok(self.lower.insert(key)?)
    }

    /// Takes a name. It takes time in proportion to the logarithm of the number of names.
    pub fn take(&mut self, name: &Ident) -> Result<(), NoMemory>
        ensures { OnOk result ((names : List (List ℕ)) → IsOf self.old names → IsOf self.new (name.now ∷ names)) }
    {
        let _is_new = self.take_bytes(name.as_slice())?;
        Ok(())
    }

    /// Makes a name free, and takes it: the name itself, or else with the least number from 1 with which it is free.
    fn free(&mut self, name: Vec<u8>) -> Result<Vec<u8>, NoMemory>
        ensures made { IfOk result (λ made. IsMadeFree self.old name.items made.items self.new) }
        ensures identifier { IfOk result (λ made. IsIdentifier name.items → IsIdentifier made.items) }
    {
        if self.take_bytes(name.as_slice())? {
            return Ok(name);
        }
        let letters = lower_case(self.alloc, name.as_slice())?;
        let first = self.next_number(&letters);
        for number in first..u64::MAX {
            let candidate = numbered(self.alloc, name.as_slice(), number)?;
            if self.take_bytes(candidate.as_slice())? {
                self.keep(letters, number + 1)?;
                return Ok(candidate);
            }
        }
        Err(NoMemory)
    }

    /// The number that is tried first with a name of these letters.
    fn next_number(&self, letters: &Vec<u8>) -> u64
        ensures { AreUsedUp self.now letters.now.items result }
    {
        match self.next.get(letters).copied() {
            Some(number) => number,
            None => 1,
        }
    }

    /// Keeps which number comes next with a name of these letters.
    fn keep(&mut self, letters: Vec<u8>, next: u64) -> Result<(), NoMemory>
        requires { AreUsedUp self.old letters.items next }
        ensures { self.new ≡ self.old }
    {
        self.next.insert(letters, next)?;
        Ok(())
    }

    /// The name of what moves up out of an instance with a name: the instance's identifier, `_` and its own, made free, which is
    /// taken from then on; and as text what is displayed for the two with `/` in between.
    ///
    /// A name is tried with one number after another, from the one behind the last that was given to a name that is the same ignoring
    /// case. A taken name is that of one wanted name with one number at most. So all together take no more tries than there are names.
    /// `NoMemory` comes where an allocation was refused, and after 2^64 - 2 numbers with which the name is taken.
    pub fn name_up(&mut self, inst: &Name, name: &Name) -> Result<Name, NoMemory>
        ensures { IfOk result (IsNamedUp self.old inst.now name.now self.new) }
    {
        let wanted = joined(self.alloc, inst.id.as_slice(), b'_', name.id.as_slice())?;
        let bytes = self.free(wanted)?;
        let Some(id) = Ident::of(self.alloc, bytes.as_slice())? else {
            unreachable!()
        };
        let shown = joined(self.alloc, displayed(inst), b'/', displayed(name))?;
        Ok(Name {
            id,
            shown: Some(Text::of(shown)),
        })
    }
}
