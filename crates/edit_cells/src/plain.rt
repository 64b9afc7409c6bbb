//! `PlainCells`: a design in memory, with lists of what was read and written.
ghost use Rattle.std.specs.Prelude.{◌≡◌, [], Some};
ghost use Rattle.netlist_schema.specs.Names.{AreDistinct};
ghost use Rattle.edit_cells.specs.State.{State};

use crate::cells::Cells;
use crate::change::Change;
use crate::face::Face;
use crate::look::{contents_of, face_of, object_for};
use crate::marks::Marks;
use crate::parts::{contents_object, face_object};
use crate::put::put_change;
use crate::seek::{cell_in, is_free, lib_named};
use netlist_schema::{
    CellBody, CellId, Contents, Design, Ident, LibHead, LibId, NoMemory, Note, Object, Row, Shown,
};
use std::alloc::Global;
use std::marker::Model;
use std::snapshot::Snapshot;

/// A design that is read and edited cell by cell. One net or one instance is written in its place; any other write copies
/// the libraries: it is made to be plain, and not fast.
pub struct PlainCells {
    alloc: Global,
    base: Snapshot<Design>,
    design: Design,
    reads: Marks,
    written: Marks,
}

impl Drop for PlainCells {
    fn drop(self) {
        let PlainCells {
            alloc: _,
            base: _,
            design: _,
            reads: _,
            written: _,
        } = self;
    }
}

impl Model for PlainCells {
    ghost use Rattle.edit_cells.specs.State.{State};

    ghost Value = { State };

    ghost view = { λ p. record { base = p.base.value; design = p.design; reads = p.reads; written = p.written } };
}

impl PlainCells {
    /// The cells of a design, of which nothing was read or written. Takes no memory.
    pub fn new(alloc: Global, design: Design) -> PlainCells
        ensures { result ≡ record { base = design; design = design; reads = []; written = [] } }
    {
        PlainCells {
            alloc,
            base: Snapshot::of(&design),
            design,
            reads: Marks::new(alloc),
            written: Marks::new(alloc),
        }
    }

    /// The design as it is now.
    pub fn design(&self) -> &Design
        ensures { result.now ≡ self.now.design }
    {
        &self.design
    }

    /// The objects that were read, each once, in the order of their first reads.
    pub fn reads(&self) -> &Row<Object>
        ensures value { result.now ≡ self.now.reads }
        ensures distinct { AreDistinct self.now.reads }
    {
        self.reads.row()
    }

    /// The objects that were written, each once.
    pub fn written(&self) -> &Row<Object>
        ensures value { result.now ≡ self.now.written }
        ensures distinct { AreDistinct self.now.written }
    {
        self.written.row()
    }
}

impl Cells for PlainCells {
    ghost state = { λ p. p };

    fn lib_named(&self, name: &Ident) -> Option<LibId> {
        lib_named(&self.design, name)
    }

    fn lib_head(&self, lib: LibId) -> Option<&LibHead> {
        self.design.lib(lib)
    }

    fn top_cell(&self) -> Option<CellId> {
        match self.design.top() {
            Some(top) => Some(top.cell),
            None => None,
        }
    }

    fn find(&mut self, lib: LibId, name: &Ident) -> Result<Option<CellId>, NoMemory> {
        let found = cell_in(&self.design, lib, name);
        self.reads.add(object_for(lib, found))?;
        Ok(found)
    }

    fn count(&mut self, lib: LibId) -> Result<u32, NoMemory> {
        self.reads.add(Object::Directory(lib))?;
        Ok(self.design.cell_count(lib))
    }

    fn name_free(&mut self, lib: LibId, name: &Ident) -> Result<bool, NoMemory> {
        self.reads.add(Object::Directory(lib))?;
        Ok(is_free(&self.design, lib, name))
    }

    fn face(&mut self, id: CellId) -> Result<Option<Face<'_>>, NoMemory> {
        self.reads.add(face_object(id))?;
        Ok(face_of(&self.design, id))
    }

    fn contents(&mut self, id: CellId) -> Result<Option<&Contents>, NoMemory> {
        self.reads.add(contents_object(id))?;
        Ok(contents_of(&self.design, id))
    }

    fn cell(&mut self, id: CellId) -> Result<Option<&CellBody>, NoMemory> {
        self.reads.add_two(face_object(id), contents_object(id))?;
        Ok(self.design.cell(id))
    }

    fn notes(&mut self) -> Result<&Row<Note>, NoMemory> {
        self.reads.add(Object::Notes)?;
        Ok(self.design.notes())
    }

    fn write(&mut self, change: Change) -> Result<(), NoMemory> {
        let before = self.written.count();
        self.written.add_written(&change)?;
        match put_change(self.alloc, &mut self.design, change) {
            Ok(()) => Ok(()),
            Err(refused) => {
                self.written.cut(before);
                Err(refused)
            }
        }
    }

    fn mark(&self) -> u64 {
        self.reads.count() as u64
    }

    fn back(&mut self, mark: u64) {
        self.reads.cut(mark as usize);
    }
}
