//! `Version`: a design in shared parts.
ghost use Rattle.std.specs.Prelude.{◌≡◌, ◌≤◌, length, map, position, IfOk};
ghost use Rattle.std.specs.Arc.{arc_value};
ghost use Rattle.std.specs.List.{All};
ghost use Rattle.netlist_schema.specs.Names.{AreDistinct, cell_names};
ghost use Rattle.db_version.specs.Shelves.{shelf_name};
ghost use Rattle.std.specs.Option.{option_copied, option_map, option_map_or};
ghost use Rattle.netlist_schema.specs.Design.{lib_at, cell_at};
ghost use Rattle.netlist_schema.specs.Valid.{IsValid};
ghost use Rattle.netlist_schema.specs.declared.limits.TheConstants.{MOST_CELLS};
ghost use Rattle.edit_rules_spec.specs.Find.{is_name, lib_named, cell_in};

use crate::shelf::Shelf;
use netlist_schema::{
    CellBody, CellId, Design, Ident, Lib, LibHead, LibId, Name, NoMemory, Note, Row, Shown, TopHead,
};
use std::alloc::Global;
use std::marker::Model;
use std::sync::Arc;

/// What no operation changes of a design, its libraries aside: the title and the top.
pub struct Heads {
    pub title: Name,
    pub top: Option<TopHead>,
}

impl Drop for Heads {
    fn drop(self) {
        let Heads { title: _, top: _ } = self;
    }
}

/// A valid design, whose parts other versions may share. Contracts see the plain design.
pub struct Version {
    heads: Arc<Heads>,
    shelves: Vec<Arc<Shelf>>,
    notes: Arc<Row<Note>>,
}

impl Drop for Version {
    fn drop(self) {
        let Version {
            heads: _,
            shelves: _,
            notes: _,
        } = self;
    }
}

impl Model for Version {
    ghost use Rattle.netlist_schema.specs.Design.{Design as Parts};
    ghost use Rattle.netlist_schema.specs.Valid.{IsValid};

    ghost Value = { Parts };

    ghost use Rattle.db_version.specs.Inside.{design_of};

    ghost view = { design_of };

    ghost invariant = { λ version. IsValid (design_of version) };
}

impl Version {
    /// The version that has this design.
    pub fn of(alloc: Global, design: Design) -> Result<Version, NoMemory>
        ensures { IfOk result (λ made. made ≡ design) }
    {
        let (title, libs, top, notes) = design.into_parts();
        let shelves = shelved(alloc, libs.into_vec())?;
        let heads = Arc::new(alloc, Heads { title, top })?;
        let notes = Arc::new(alloc, notes)?;
        Ok(Version {
            heads,
            shelves,
            notes,
        })
    }

    /// This version with these libraries, and with these notes where they are given. Title and top are shared, and so are notes
    /// that stay.
    pub fn with(
        &self,
        shelves: Vec<Arc<Shelf>>,
        notes: Option<Arc<Row<Note>>>,
    ) -> Result<Version, NoMemory>
        requires valid { IsValid (record self.now { libs = map arc_value shelves.items; notes = option_map_or arc_value notes self.now.notes }) }
        ensures { IfOk result (λ made. made ≡ record self.now { libs = map arc_value shelves.items; notes = option_map_or arc_value notes self.now.notes }) }
    {
        let heads = Arc::try_clone(&self.heads)?;
        let notes = match notes {
            Some(notes) => notes,
            None => Arc::try_clone(&self.notes)?,
        };
        Ok(Version {
            heads,
            shelves,
            notes,
        })
    }

    /// The library at a place, shared.
    pub fn share_shelf(&self, lib: LibId) -> Result<Option<Arc<Shelf>>, NoMemory>
        ensures { IfOk result (λ shelf. option_map arc_value shelf ≡ lib_at self.now lib) }
    {
        match self.shelves.as_slice().get(lib.0 as usize) {
            Some(shelf) => Ok(Some(Arc::try_clone(shelf)?)),
            None => Ok(None),
        }
    }

    /// The library at a place.
    pub fn shelf(&self, lib: LibId) -> Option<&Shelf>
        ensures value { option_copied result ≡ lib_at self.now lib }
        ensures valid { IsValid self.now }
    {
        match self.shelves.as_slice().get(lib.0 as usize) {
            Some(shelf) => Some(&**shelf),
            None => None,
        }
    }

    /// The library with this name.
    pub fn lib_named(&self, name: &Ident) -> Option<LibId>
        ensures value { result ≡ lib_named self.now name.now }
        ensures valid { IsValid self.now }
    {
        match lib_place(self.shelves.as_slice(), name) {
            Some(place) => Some(LibId(place as u32)),
            None => None,
        }
    }

    /// A cell, where there is such a cell.
    fn body(&self, id: CellId) -> Option<&CellBody>
        ensures value { option_copied result ≡ cell_at self.now id }
        ensures valid { IsValid self.now }
    {
        match self.shelf(id.lib) {
            Some(shelf) => shelf.cell(id.slot),
            None => None,
        }
    }

    /// The cell with this name in a library. Takes no memory.
    pub fn find(&self, lib: LibId, name: &Ident) -> Option<CellId>
        ensures { result ≡ cell_in self.now name.now lib }
    {
        let shelf = self.shelf(lib)?;
        let slot = shelf.directory().place(name)?;
        Some(CellId { lib, slot })
    }
}

/// The libraries, each shared.
fn shelved(alloc: Global, libs: Vec<Lib>) -> Result<Vec<Arc<Shelf>>, NoMemory>
    requires distinct { All (λ lib. AreDistinct (cell_names lib.cells)) libs.items }
    requires few { All (λ lib. length lib.cells ≤ MOST_CELLS) libs.items }
    ensures { IfOk result (λ shelves. map arc_value shelves.items ≡ libs.items) }
{
    let mut shelves = Vec::with_capacity(alloc, libs.len())?;
    for lib in libs {
        let shelf = Shelf::of(alloc, lib)?;
        shelves.push(Arc::new(alloc, shelf)?)?;
    }
    Ok(shelves)
}

/// The place of the first of these libraries that has the name.
fn lib_place(shelves: &[Arc<Shelf>], name: &Ident) -> Option<usize>
    ensures { result ≡ position (λ shelf. is_name (shelf_name shelf) name.now) shelves.now }
{
    shelves
        .iter()
        .position(|shelf| shelf.head().name.id == *name)
}

impl Shown for Version {
    ghost design = { λ version. version };

    fn title(&self) -> &Name {
        &self.heads.title
    }

    fn lib_count(&self) -> u32 {
        self.shelves.len() as u32
    }

    fn lib(&self, lib: LibId) -> Option<&LibHead> {
        match self.shelf(lib) {
            Some(shelf) => Some(shelf.head()),
            None => None,
        }
    }

    fn cell_count(&self, lib: LibId) -> u32 {
        match self.shelf(lib) {
            Some(shelf) => shelf.cell_count(),
            None => 0,
        }
    }

    #[tactic(auto, using(netlist_schema::proofs::Cells::lent_cell_is_valid))]
    fn cell(&self, id: CellId) -> Option<&CellBody> {
        self.body(id)
    }

    fn top(&self) -> Option<&TopHead> {
        self.heads.top.as_ref()
    }

    fn notes(&self) -> &Row<Note> {
        &*self.notes
    }
}
