//! The words of a tree that is whole.
ghost use Rattle.std.specs.Prelude.{◌≡◌, ◌<◌, IfOk, Some, length, map, option_map, slice_get};
ghost use Rattle.edif_spec.specs.Keyword.{keyword};

use edif_keywords::Keyword;
use indexmap::IndexSet;
use netlist_schema::{Ident, NoMemory};
use std::alloc::Global;
use std::marker::Model;

/// Words to which no others come, and beside each the keyword that it spells. They are found by their places alone. Contracts see the
/// words in order.
pub struct WordList {
    names: Vec<Ident>,
    keywords: Vec<Option<Keyword>>,
}

impl Drop for WordList {
    fn drop(self) {
        let WordList {
            names: _,
            keywords: _,
        } = self;
    }
}

impl Model for WordList {
    ghost use Rattle.std.specs.Prelude.{◌≡◌, List, ℕ, map};
    ghost use Rattle.edif_spec.specs.Keyword.{keyword};

    ghost Value = { List (List ℕ) };

    ghost view = { λ w. w.names.items };

    ghost invariant = { λ w. w.keywords.items ≡ map keyword w.names.items };
}

/// Words as a list, in the same order.
fn listed(alloc: Global, names: IndexSet<Ident>) -> Result<Vec<Ident>, NoMemory>
    ensures { IfOk result (λ list. list.items ≡ names.keys) }
{
    let mut list = Vec::with_capacity(alloc, names.len())?;
    for name in names {
        list.push(name)?;
    }
    Ok(list)
}

impl WordList {
    /// These words, with the keywords beside them.
    pub fn of(
        alloc: Global,
        names: IndexSet<Ident>,
        keywords: Vec<Option<Keyword>>,
    ) -> Result<WordList, NoMemory>
        requires { keywords.items ≡ map keyword names.keys }
        ensures { IfOk result (λ list. list ≡ names.keys) }
    {
        let names = listed(alloc, names)?;
        Ok(WordList { names, keywords })
    }

    /// The word at a place. Takes no memory.
    #[inline(always)]
    pub fn name(&self, at: usize) -> &Ident
        requires { at < length self.now }
        ensures { slice_get self.now at ≡ Some result.now }
    {
        &self.names[at]
    }

    /// The keyword that the word at a place spells, or `None` where it spells none. Takes no memory.
    #[inline(always)]
    pub fn keyword(&self, at: usize) -> Option<Keyword>
        requires { at < length self.now }
        ensures { option_map keyword (slice_get self.now at) ≡ Some result }
    {
        self.keywords[at]
    }
}
