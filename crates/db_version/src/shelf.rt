//! `Shelf`: a library of a version.
ghost use Rattle.std.specs.Prelude.{◌≡◌, ◌≤◌, ◌+◌, ◌++◌, length, map, slice_get, IfOk};
ghost use Rattle.std.specs.Arc.{arc_value};
ghost use Rattle.std.specs.Option.{option_copied};
ghost use Rattle.netlist_schema.specs.Names.{AreDistinct, cell_names};
ghost use Rattle.netlist_schema.specs.declared.limits.TheConstants.{MOST_CELLS};
ghost use Rattle.ver_table.specs.Entries.{pairs_of, IsInOrder};
ghost use Rattle.ver_table.specs.Rows.{numbered, set_all};
ghost use Rattle.db_version.specs.Changes.{cells_set, KeepNames};

use crate::directory::Directory;
use netlist_schema::{CellBody, Lib, LibHead, NoMemory};
use std::alloc::Global;
use std::marker::Model;
use std::sync::Arc;
use ver_table::{Entry, Table};

/// A library: its head, the directory of its cells, and their bodies by place. Contracts see the plain library. Libraries of
/// several versions share heads, directories and pages of bodies.
pub struct Shelf {
    head: Arc<LibHead>,
    directory: Arc<Directory>,
    cells: Table<CellBody, 64>,
}

impl Drop for Shelf {
    fn drop(self) {
        let Shelf {
            head: _,
            directory: _,
            cells: _,
        } = self;
    }
}

impl Model for Shelf {
    ghost use Rattle.netlist_schema.specs.Types.{Lib};

    ghost Value = { Lib };

    ghost use Rattle.db_version.specs.Inside.{lib_of, IsShelf};

    ghost view = { lib_of };

    ghost invariant = { IsShelf };
}

impl Shelf {
    /// The library of these parts, whose cells have names that differ.
    pub fn of(alloc: Global, lib: Lib) -> Result<Shelf, NoMemory>
        requires distinct { AreDistinct (cell_names lib.cells) }
        requires few { length lib.cells ≤ MOST_CELLS }
        ensures { IfOk result (λ shelf. shelf ≡ lib) }
    {
        let Lib { head, cells } = lib;
        let directory = Directory::of(alloc, cells.as_slice())?;
        let bodies = shared(alloc, cells.into_vec())?;
        let head = Arc::new(alloc, head)?;
        let directory = Arc::new(alloc, directory)?;
        let cells = Table::of(alloc, bodies)?;
        Ok(Shelf {
            head,
            directory,
            cells,
        })
    }

    /// This library with other bodies in the place of some of its cells, whose names they have. Their slots rise.
    /// What is not changed is shared.
    pub fn with_changed(&self, changes: &[Entry<CellBody>]) -> Result<Shelf, NoMemory>
        requires rising { IsInOrder (pairs_of changes.now) }
        requires named { KeepNames (cell_names self.now.cells) (pairs_of changes.now) }
        ensures { IfOk result (λ made. made ≡ record self.now { cells = cells_set self.now.cells (pairs_of changes.now) }) }
    {
        let head = Arc::try_clone(&self.head)?;
        let directory = Arc::try_clone(&self.directory)?;
        let cells = self.cells.put_all(changes)?;
        Ok(Shelf {
            head,
            directory,
            cells,
        })
    }

    /// This library with more cells behind its last, whose names differ from each other and from those here. What is not
    /// changed is shared.
    pub fn with_more(&self, alloc: Global, bodies: &[Arc<CellBody>]) -> Result<Shelf, NoMemory>
        requires few { length (self.now.cells ++ map arc_value bodies.now) ≤ MOST_CELLS }
        requires distinct { AreDistinct (cell_names (self.now.cells ++ map arc_value bodies.now)) }
        ensures { IfOk result (λ made. made ≡ record self.now { cells = self.now.cells ++ map arc_value bodies.now }) }
    {
        let head = Arc::try_clone(&self.head)?;
        let directory = Arc::new(alloc, self.directory.with(alloc, bodies)?)?;
        let cells = with_behind(alloc, &self.cells, self.cell_count(), bodies)?;
        Ok(Shelf {
            head,
            directory,
            cells,
        })
    }

    /// The library without its cells.
    pub fn head(&self) -> &LibHead
        ensures { result.now ≡ self.now.head }
    {
        &*self.head
    }

    /// The directory.
    pub fn directory(&self) -> &Directory
        ensures { result.now ≡ cell_names self.now.cells }
    {
        &*self.directory
    }

    /// The number of cells.
    pub fn cell_count(&self) -> u32
        ensures value { result ≡ length self.now.cells }
        ensures limit { result ≤ MOST_CELLS }
    {
        self.directory().len()
    }

    /// The cell at a place.
    pub fn cell(&self, slot: u32) -> Option<&CellBody>
        ensures { option_copied result ≡ slice_get self.now.cells slot }
    {
        self.cells.get(slot)
    }
}

/// These cells with more bodies, from a first slot on.
fn with_behind(
    alloc: Global,
    cells: &Table<CellBody, 64>,
    first: u32,
    bodies: &[Arc<CellBody>],
) -> Result<Table<CellBody, 64>, NoMemory>
    requires { first + length bodies.now ≤ MOST_CELLS }
    ensures { IfOk result (λ made. made ≡ set_all cells.now (numbered first (map arc_value bodies.now))) }
{
    let entries = entries_from(alloc, first, bodies)?;
    cells.put_all(entries.as_slice())
}

/// The bodies with their slots, from a first one on.
fn entries_from(
    alloc: Global,
    first: u32,
    bodies: &[Arc<CellBody>],
) -> Result<Vec<Entry<CellBody>>, NoMemory>
    requires { first + length bodies.now ≤ MOST_CELLS }
    ensures { IfOk result (λ entries. pairs_of entries.items ≡ numbered first (map arc_value bodies.now)) }
{
    let mut entries = Vec::with_capacity(alloc, bodies.len())?;
    let mut slot = first;
    for body in bodies {
        entries.push(Entry {
            slot,
            item: Arc::try_clone(body)?,
        })?;
        slot += 1;
    }
    Ok(entries)
}

/// The bodies, each shared.
fn shared(alloc: Global, bodies: Vec<CellBody>) -> Result<Vec<Arc<CellBody>>, NoMemory>
    ensures { IfOk result (λ arcs. map arc_value arcs.items ≡ bodies.items) }
{
    let mut arcs = Vec::with_capacity(alloc, bodies.len())?;
    for body in bodies {
        arcs.push(Arc::new(alloc, body)?)?;
    }
    Ok(arcs)
}
