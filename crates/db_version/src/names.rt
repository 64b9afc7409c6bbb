//! `NameList`: names that are found, exactly and ignoring case.
ghost use Rattle.std.specs.Prelude.{◌≡◌, ◌<◌, ◌++◌, [], nat_eq, length, map, IfOk, IfSome, OnErr, OnOk};
ghost use Rattle.std.specs.Arc.{arc_value};
ghost use Rattle.std.specs.Cmp.Lexicographic.{pointwise};
ghost use Rattle.std.specs.List.{list_any};
ghost use Rattle.edit_rules_spec.specs.Find.{is_same, place_of};
ghost use Rattle.indexmap.specs.IndexSet.{insert_key, spare};
ghost use Rattle.netlist_schema.specs.Names.{AreDistinct, cell_names};

use crate::lower::LowerName;
use indexmap::IndexSet;
use netlist_schema::{CellBody, Ident, NoMemory};
use std::alloc::Global;
use std::marker::Model;
use std::sync::Arc;

/// Names in order, no two of them equal byte for byte. Contracts see the list. A name is found by a hash, and so is whether one
/// is the same ignoring case.
pub struct NameList {
    names: IndexSet<Ident>,
    /// The names in lower case, each once.
    lower: IndexSet<LowerName>,
}

impl Drop for NameList {
    fn drop(self) {
        let NameList { names: _, lower: _ } = self;
    }
}

impl Model for NameList {
    ghost use Rattle.std.specs.Prelude.{List, ℕ};
    ghost use Rattle.db_version.specs.Lowered.{AreLowered};

    ghost Value = { List (List ℕ) };

    ghost view = { λ l. l.names.keys };

    ghost invariant = { λ l. AreLowered l.names.keys l.lower.keys };
}

impl NameList {
    /// No names. Takes no memory.
    pub fn new(alloc: Global) -> NameList
        ensures { result ≡ [] }
    {
        NameList {
            names: IndexSet::new(alloc),
            lower: IndexSet::new(alloc),
        }
    }

    /// The names of these cells, which differ.
    pub fn of(alloc: Global, cells: &[CellBody]) -> Result<NameList, NoMemory>
        requires { AreDistinct (cell_names cells.now) }
        ensures { IfOk result (λ made. made ≡ cell_names cells.now) }
    {
        let mut made = NameList::new(alloc);
        for cell in cells {
            made.add(alloc, &cell.name.id)?;
        }
        Ok(made)
    }

    /// The same names, in memory of their own.
    pub fn copy(&self, alloc: Global) -> Result<NameList, NoMemory>
        ensures { IfOk result (λ made. made ≡ self.now) }
    {
        let names = self.as_slice();
        let mut made = NameList::new(alloc);
        made.add_names(alloc, names)?;
        Ok(made)
    }

    /// Lends the names, in order.
    pub fn as_slice(&self) -> &[Ident]
        ensures value { result.now ≡ self.now }
        ensures distinct { AreDistinct self.now }
    {
        self.names.as_slice()
    }

    /// The number of names.
    pub fn len(&self) -> usize
        ensures { result ≡ length self.now }
    {
        self.names.len()
    }

    /// The place of a name. Takes no memory.
    pub fn place(&self, name: &Ident) -> Option<usize>
        ensures value { result ≡ place_of name.now self.now }
        ensures within { IfSome result (λ place. place < length self.now) }
    {
        self.names.get_index_of(name)
    }

    /// Whether a name is the same as this one when the case of ASCII letters is ignored. It takes memory only for a name of more
    /// than 16 bytes; where that is refused, all names are gone over.
    pub fn has_same(&self, name: &Ident) -> bool
        ensures { result ≡ list_any (λ other. is_same other name.now) self.now }
    {
        let alloc = *self.names.allocator();
        match LowerName::of(alloc, name) {
            Ok(lower) => self.lower.contains(&lower),
            Err(NoMemory) => any_same(self.names.as_slice(), name),
        }
    }

    /// Adds a name behind the last, unless it is there. Where memory is refused, the names stay.
    pub fn add(&mut self, alloc: Global, name: &Ident) -> Result<(), NoMemory>
        ensures ok { OnOk result (self.new ≡ insert_key (pointwise nat_eq) self.old name.now) }
        ensures err { OnErr result (self.new ≡ self.old) }
    {
        let lower = LowerName::of(alloc, name)?;
        let own = name.copy(alloc)?;
        self.names.reserve(1)?;
        self.lower.insert(lower)?;
        insert_within(&mut self.names, own);
        Ok(())
    }

    /// Adds names behind the last, which differ from each other and from those here. Where memory is refused, some may be added.
    pub fn add_names(&mut self, alloc: Global, names: &[Ident]) -> Result<(), NoMemory>
        requires { AreDistinct (self.old ++ names.now) }
        ensures { OnOk result (self.new ≡ self.old ++ names.now) }
    {
        for name in names {
            self.add(alloc, name)?;
        }
        Ok(())
    }

    /// Adds the names of cells behind the last, which differ from each other and from those here. Where memory is refused, some
    /// may be added.
    pub fn add_cells(&mut self, alloc: Global, cells: &[Arc<CellBody>]) -> Result<(), NoMemory>
        requires { AreDistinct (self.old ++ cell_names (map arc_value cells.now)) }
        ensures { OnOk result (self.new ≡ self.old ++ cell_names (map arc_value cells.now)) }
    {
        for cell in cells {
            self.add(alloc, &cell.name.id)?;
        }
        Ok(())
    }
}

/// Adds a name behind the last, unless it is there, where there is room for it.
fn insert_within(names: &mut IndexSet<Ident>, name: Ident)
    requires { 0 < spare names.old }
    ensures { names.new.keys ≡ insert_key (pointwise nat_eq) names.old.keys name }
{
    match names.insert(name) {
        Ok(_) => {}
        Err(_) => {
            prove!(false);
        }
    }
}

/// Whether one of the names is the same as this one when the case of ASCII letters is ignored.
fn any_same(names: &[Ident], name: &Ident) -> bool
    ensures { result ≡ list_any (λ other. is_same other name.now) names.now }
{
    names.iter().any(|other| other.same(name))
}
