//! The words of a tree, each once.
ghost use Rattle.std.specs.Prelude.{◌≡◌, ◌<◌, [], ℕ, List, IfOk, IfSome, OnErr, OnOk, Some, nat_eq, slice_get, true};
ghost use Rattle.std.specs.Cmp.Lexicographic.{pointwise};
ghost use Rattle.indexmap.specs.IndexSet.{insert_key};
ghost use Rattle.netlist_schema.specs.Ident.{IsIdentifier};

use crate::word_list::WordList;
use edif_keywords::{Keyword, keyword};
use indexmap::IndexSet;
use netlist_schema::{Ident, NoMemory};
use std::alloc::Global;
use std::marker::Model;

/// For how many words it is kept where they stand, so that a word that comes often is mostly found without a hash.
const SLOTS: usize = 1_024;

/// Words, no two equal, and beside each the keyword that it spells. Contracts see the words in order.
pub struct Words {
    alloc: Global,
    names: IndexSet<Ident>,
    keywords: Vec<Option<Keyword>>,
    /// By slot the place of the word that came last.
    lately: [u32; SLOTS],
}

impl Drop for Words {
    fn drop(self) {
        let Words {
            alloc: _,
            names: _,
            keywords: _,
            lately: _,
        } = self;
    }
}

impl Model for Words {
    ghost use Rattle.std.specs.Prelude.{◌≡◌, List, ℕ, map};
    ghost use Rattle.edif_spec.specs.Keyword.{keyword};

    ghost Value = { List (List ℕ) };

    ghost view = { λ w. w.names.keys };

    ghost invariant = { λ w. w.keywords.items ≡ map keyword w.names.keys };
}

/// The identifier of these bytes.
fn named(alloc: Global, name: &[u8]) -> Result<Ident, NoMemory>
    requires { IsIdentifier name.now }
    ensures { IfOk result (λ made. made ≡ name.now) }
{
    match Ident::of(alloc, name)? {
        Some(name) => Ok(name),
        None => unreachable!(),
    }
}

impl Words {
    /// No words. Takes no memory.
    pub fn new(alloc: Global) -> Words
        ensures { result ≡ [] }
    {
        Words {
            alloc,
            names: IndexSet::new(alloc),
            keywords: Vec::new(alloc),
            lately: [0; SLOTS],
        }
    }

    /// The place of a word, where it is the one that came last to its slot.
    #[inline(always)]
    fn found_lately(&self, name: &[u8], slot: usize) -> Option<usize>
        requires { slot < 1024 }
        ensures { IfSome result (λ at. slice_get self.now at ≡ Some name.now) }
    {
        let at = self.lately[slot] as usize;
        let known = self.names.get_index(at)?;
        if known.as_slice() == name {
            return Some(at);
        }
        None
    }

    /// Keeps the place of the word that came last to a slot.
    #[inline(always)]
    fn keep_lately(&mut self, slot: usize, at: usize)
        requires { slot < 1024 }
        ensures { self.new ≡ self.old }
    {
        if let Ok(at) = u32::try_from(at) {
            self.lately[slot] = at;
        }
    }

    /// Adds a word, unless it is there, and tells its place. After `NoMemory` the words are as before.
    #[inline(always)]
    pub fn add(&mut self, name: &[u8]) -> Result<usize, NoMemory>
        requires { IsIdentifier name.now }
        ensures keys { OnOk result (self.new ≡ insert_key (pointwise nat_eq) self.old name.now) }
        ensures stored { IfOk result (λ at. (k : List ℕ) × (slice_get self.new at ≡ Some k) × (pointwise nat_eq name.now k ≡ true)) }
        ensures err { OnErr result (self.new ≡ self.old) }
    {
        let slot = slot_of(name);
        if let Some(at) = self.found_lately(name, slot) {
            return Ok(at);
        }
        self.add_to_slot(name, slot)
    }

    /// The same, whether it came lately or not. It is the word that came last to its slot from now on.
    #[cold]
    #[inline(never)]
    fn add_to_slot(&mut self, name: &[u8], slot: usize) -> Result<usize, NoMemory>
        requires named { IsIdentifier name.now }
        requires slot { slot < 1024 }
        ensures keys { OnOk result (self.new ≡ insert_key (pointwise nat_eq) self.old name.now) }
        ensures stored { IfOk result (λ at. (k : List ℕ) × (slice_get self.new at ≡ Some k) × (pointwise nat_eq name.now k ≡ true)) }
        ensures err { OnErr result (self.new ≡ self.old) }
    {
        let at = self.insert(named(self.alloc, name)?)?;
        self.keep_lately(slot, at);
        Ok(at)
    }

    /// The same of a word by itself.
    fn insert(&mut self, name: Ident) -> Result<usize, NoMemory>
        ensures keys { OnOk result (self.new ≡ insert_key (pointwise nat_eq) self.old name) }
        ensures stored { IfOk result (λ at. (k : List ℕ) × (slice_get self.new at ≡ Some k) × (pointwise nat_eq name k ≡ true)) }
        ensures err { OnErr result (self.new ≡ self.old) }
    {
        self.keywords.reserve(1)?;
        let (at, is_new) = self.names.insert_full(name)?;
        if !is_new {
            return Ok(at);
        }
        let found = keyword(&self.names.as_slice()[at]);
        self.keywords.push_reserved(found);
        Ok(at)
    }

    /// The same words, to which no others come. What finds a word by its bytes goes.
    pub fn finish(self) -> Result<WordList, NoMemory>
        ensures { IfOk result (λ list. list ≡ self) }
    {
        let Words {
            alloc,
            names,
            keywords,
            lately: _,
        } = self;
        WordList::of(alloc, names, keywords)
    }
}

/// The slot of a word. Words that differ in the last three digits of a number have slots of their own.
#[inline(always)]
fn slot_of(word: &[u8]) -> usize
    ensures { result < 1024 }
{
    match word {
        [first, .., hundreds, tens, ones] => {
            let end = 100 * usize::from(*hundreds) + 10 * usize::from(*tens) + usize::from(*ones);
            (usize::from(*first) + end + 5 * (word.len() % SLOTS)) % SLOTS
        }
        [first, .., last] => (usize::from(*first) + 16 * usize::from(*last)) % SLOTS,
        [only] => usize::from(*only),
        [] => 0,
    }
}
