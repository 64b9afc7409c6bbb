//! `Namer`: the places and names of copies, one after another.
ghost use Rattle.std.specs.Prelude.{◌≡◌, [], IfOk, List, OnOk, Some, cond, length, ℕ};
ghost use Rattle.std.specs.BTreeMap.{get, is_at};
ghost use Rattle.std.specs.Ordering.{nat_cmp};
ghost use Rattle.netlist_schema.specs.Design.{Design, cells_in};
ghost use Rattle.netlist_schema.specs.Hierarchy.{IsCell};
ghost use Rattle.uniquify_spec.specs.Copies.{Copy};
ghost use Rattle.edit_cells.specs.State.{HasReadSome};
ghost use Rattle.uniquify_copies.specs.declared.numbers.Stem.{Stem};
ghost use Rattle.uniquify_copies.specs.Known.{AreKnown, IsNext, count_of, next_of, stem_cmp};

use crate::numbers::{Stem, numbered_text, stem_of};
use crate::seek::{count_of, first_free, name_of};
use edit_cells::Cells;
use netlist_schema::{CellId, LibId, MOST_CELLS, Name, NoMemory};
use std::alloc::Global;
use std::collections::BTreeMap;

/// The place and the name of a copy.
#[derive(Debug, Drop)]
pub struct Twin {
    pub id: CellId,
    pub name: Name,
}

/// What is kept of the copies that got places and names so far.
pub struct Namer {
    /// The number of names of each library that has a copy, by the place of the library.
    slots: BTreeMap<u32, u32>,
    /// The next number of each identifier in lower case that was copied.
    numbers: BTreeMap<Stem, u64>,
}

impl Drop for Namer {
    fn drop(self) {
        let Namer {
            slots: _,
            numbers: _,
        } = self;
    }
}

impl Namer {
    /// Nothing was copied yet. Takes no memory.
    pub fn new(alloc: Global) -> Namer
        ensures { (d : Design) → AreKnown d [] result }
    {
        Namer {
            slots: BTreeMap::new(alloc),
            numbers: BTreeMap::new(alloc),
        }
    }

    /// The next number of a stem.
    fn next_number(&self, stem: &Stem) -> u64
        ensures { result ≡ next_of self.now stem.now }
    {
        match self.numbers.get(stem).copied() {
            Some(number) => number,
            None => 1,
        }
    }

    /// The number of names of a library.
    fn next_slot<C: Cells>(&self, cells: &mut C, lib: LibId) -> Result<u32, NoMemory>
        ensures value { IfOk result (λ n. n ≡ count_of self.now lib (length (cells_in (C.state cells.old).design lib))) }
        ensures some { HasReadSome (C.state cells.old) (C.state cells.new) }
    {
        match self.slots.get(&lib.0).copied() {
            Some(slot) => Ok(slot),
            None => count_of(cells, lib),
        }
    }

    /// Keeps that a library has so many names, and which number a stem has next.
    fn keep(&mut self, lib: LibId, slot: u32, stem: Stem, number: u64) -> Result<(), NoMemory>
        ensures slots { OnOk result ((q : ℕ) → get nat_cmp self.new.slots q ≡ cond (is_at (nat_cmp lib.0) q) (Some slot) (get nat_cmp self.old.slots q)) }
        ensures numbers { OnOk result ((q : Stem) → get stem_cmp self.new.numbers q ≡ cond (is_at (stem_cmp stem) q) (Some number) (get stem_cmp self.old.numbers q)) }
    {
        self.slots.insert(lib.0, slot)?;
        self.numbers.insert(stem, number)?;
        Ok(())
    }

    /// The place and the name of the next copy of a cell: it goes last in the cell's library, with the least number that is
    /// free there. `None` exactly where the library has no room for it. It looks at the names of the library and at the cell
    /// from outside, and at a number of a name once, over all copies. The one error is that an allocation was refused; what is
    /// kept may be of no use then.
    pub fn next_copy<C: Cells>(
        &mut self,
        alloc: Global,
        cells: &mut C,
        of: CellId,
    ) -> Result<Option<Twin>, NoMemory>
        requires { IsCell (C.state cells.old).design of }
        ensures next { IfOk result (λ twin. (made : List Copy) → AreKnown (C.state cells.old).design made self.old → IsNext (C.state cells.old).design made of self.new twin) }
        ensures some { HasReadSome (C.state cells.old) (C.state cells.new) }
    {
        let slot = self.next_slot(cells, of.lib)?;
        if slot as usize >= MOST_CELLS {
            return Ok(None);
        }
        let name = name_of(alloc, cells, of)?;
        let stem = stem_of(alloc, of.lib, &name.id)?;
        let from = self.next_number(&stem);
        let found = first_free(alloc, cells, of.lib, &name.id, from)?;
        let shown = numbered_text(alloc, &name.shown, found.number)?;
        self.keep(of.lib, slot + 1, stem, found.number + 1)?;
        Ok(Some(Twin {
            id: CellId { lib: of.lib, slot },
            name: Name {
                id: found.id,
                shown,
            },
        }))
    }
}
