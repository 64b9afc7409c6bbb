//! `Directory`: the names of a library's cells.
ghost use Rattle.std.specs.Prelude.{◌≡◌, ◌≤◌, ◌+◌, ◌++◌, ◌∷◌, [], length, map, IfOk, OnOk};
ghost use Rattle.std.specs.Arc.{arc_value};
ghost use Rattle.std.specs.List.{flat_map, list_any};
ghost use Rattle.edit_rules_spec.specs.Find.{is_same, place_of};
ghost use Rattle.netlist_schema.specs.Names.{AreDistinct, cell_names};
ghost use Rattle.netlist_schema.specs.declared.limits.TheConstants.{MOST_CELLS};

use crate::names::NameList;
use netlist_schema::{CellBody, Ident, NoMemory};
use std::alloc::Global;
use std::marker::Model;
use std::sync::Arc;

/// The names of a library's cells, in order, no two of them equal byte for byte, and at most 65,536. Contracts see the list.
///
/// They stand in parts, one after another, which directories share. Each part is longer than all behind it together, so there are
/// few: a look goes through their hashes, and in the long run a name that is added is hashed once for each doubling of its library.
pub struct Directory {
    parts: Vec<Arc<NameList>>,
    count: u32,
}

impl Drop for Directory {
    fn drop(self) {
        let Directory { parts: _, count: _ } = self;
    }
}

impl Model for Directory {
    ghost use Rattle.std.specs.Prelude.{List, ℕ};
    ghost use Rattle.std.specs.Arc.{arc_value};
    ghost use Rattle.std.specs.List.{flat_map};

    ghost Value = { List (List ℕ) };

    ghost use Rattle.db_version.specs.Directories.{IsDirectory};

    ghost view = { λ d. flat_map arc_value d.parts.items };

    ghost invariant = { IsDirectory };
}

impl Directory {
    /// The directory of these cells, whose names differ.
    pub fn of(alloc: Global, cells: &[CellBody]) -> Result<Directory, NoMemory>
        requires few { length cells.now ≤ MOST_CELLS }
        requires distinct { AreDistinct (cell_names cells.now) }
        ensures { IfOk result (λ d. d ≡ cell_names cells.now) }
    {
        let count = cells.len() as u32;
        let names = NameList::of(alloc, cells)?;
        let parts = with_part(alloc, &[], names)?;
        Ok(Directory { parts, count })
    }

    /// This directory with the names of more cells behind its last, which differ from each other and from those here.
    pub fn with(&self, alloc: Global, more: &[Arc<CellBody>]) -> Result<Directory, NoMemory>
        requires few { length (self.now ++ cell_names (map arc_value more.now)) ≤ MOST_CELLS }
        requires distinct { AreDistinct (self.now ++ cell_names (map arc_value more.now)) }
        ensures { IfOk result (λ made. made ≡ self.now ++ cell_names (map arc_value more.now)) }
    {
        let count = self.count + more.len() as u32;
        let parts = self.parts.as_slice();
        let kept = kept_parts(parts, more.len());
        let (front, back) = parts.split_at(kept);
        let names = joined(alloc, back, more)?;
        let parts = with_part(alloc, front, names)?;
        Ok(Directory { parts, count })
    }

    /// The number of names.
    pub fn len(&self) -> u32
        ensures value { result ≡ length self.now }
        ensures limit { result ≤ MOST_CELLS }
    {
        self.count
    }

    /// Whether a name is the same as this one when the case of ASCII letters is ignored. It takes memory only for a name of more
    /// than 16 bytes, and can do without.
    pub fn has_same(&self, name: &Ident) -> bool
        ensures { result ≡ list_any (λ other. is_same other name.now) self.now }
    {
        has_same(self.parts.as_slice(), name)
    }

    /// The place of a name. Takes no memory.
    pub fn place(&self, name: &Ident) -> Option<u32>
        ensures { result ≡ place_of name.now self.now }
    {
        place(self.parts.as_slice(), name)
    }
}

/// How many of the parts stay as they are where so many names are added: those that are longer than all behind them together.
fn kept_parts(parts: &[Arc<NameList>], more: usize) -> usize
    ensures { result ≤ length parts.now }
{
    let mut kept = parts.len();
    let mut behind = more;
    while kept > 0 && parts[kept - 1].len() <= behind {
        kept -= 1;
        behind = behind.saturating_add(parts[kept].len());
    }
    kept
}

/// The names of parts, and behind them those of cells, in one part.
fn joined(
    alloc: Global,
    parts: &[Arc<NameList>],
    cells: &[Arc<CellBody>],
) -> Result<NameList, NoMemory>
    requires { AreDistinct (flat_map arc_value parts.now ++ cell_names (map arc_value cells.now)) }
    ensures { IfOk result (λ made. made ≡ flat_map arc_value parts.now ++ cell_names (map arc_value cells.now)) }
{
    let mut names = NameList::new(alloc);
    add_parts(alloc, &mut names, parts)?;
    names.add_cells(alloc, cells)?;
    Ok(names)
}

/// Adds the names of parts behind the last, which differ from each other and from those there.
fn add_parts(alloc: Global, names: &mut NameList, parts: &[Arc<NameList>]) -> Result<(), NoMemory>
    requires { AreDistinct (names.old ++ flat_map arc_value parts.now) }
    ensures { OnOk result (names.new ≡ names.old ++ flat_map arc_value parts.now) }
{
    for part in parts {
        names.add_names(alloc, part.as_slice())?;
    }
    Ok(())
}

/// These parts, shared, with one more behind the last.
fn with_part(
    alloc: Global,
    parts: &[Arc<NameList>],
    names: NameList,
) -> Result<Vec<Arc<NameList>>, NoMemory>
    ensures { IfOk result (λ made. map arc_value made.items ≡ map arc_value parts.now ++ names ∷ []) }
{
    let mut made = Vec::with_capacity(alloc, parts.len().saturating_add(1))?;
    for part in parts {
        made.push(Arc::try_clone(part)?)?;
    }
    made.push(Arc::new(alloc, names)?)?;
    Ok(made)
}

/// Whether a name of one of the parts is the same as this one when the case of ASCII letters is ignored.
fn has_same(parts: &[Arc<NameList>], name: &Ident) -> bool
    ensures { result ≡ list_any (λ other. is_same other name.now) (flat_map arc_value parts.now) }
{
    for part in parts {
        if part.has_same(name) {
            return true;
        }
    }
    false
}

/// The place of a name in the parts, one after another.
fn place(parts: &[Arc<NameList>], name: &Ident) -> Option<u32>
    requires { length (flat_map arc_value parts.now) ≤ MOST_CELLS }
    ensures { result ≡ place_of name.now (flat_map arc_value parts.now) }
{
    let mut before = 0;
    for part in parts {
        match part.place(name) {
            Some(at) => return Some(before + at as u32),
            None => before += part.len() as u32,
        }
    }
    None
}
