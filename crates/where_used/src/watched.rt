//! `Watched`: cells of a design that keep an index of their uses.
ghost use Rattle.std.specs.Prelude.{◌≡◌, [], IfOk};
ghost use Rattle.netlist_schema.specs.Names.{AreDistinct};
ghost use Rattle.used_spec.specs.Uses.{uses};

use crate::indexed::Indexed;
use crate::used::Used;
use edit_cells::{
    Cells, Change, Face, Marks, cell_in, contents_object, contents_of, face_object, face_of,
    is_free, lib_named, object_for,
};
use netlist_schema::{
    CellBody, CellId, Contents, Design, Ident, LibHead, LibId, NoMemory, Note, Object, Row, Shown,
};
use std::alloc::Global;
use std::marker::Model;
use std::snapshot::Snapshot;

/// A design that is read and edited cell by cell, with the index of its uses, which is that of the design after every call.
pub struct Watched {
    alloc: Global,
    base: Snapshot<Design>,
    indexed: Indexed,
    reads: Marks,
    written: Marks,
}

impl Drop for Watched {
    fn drop(self) {
        let Watched {
            alloc: _,
            base: _,
            indexed: _,
            reads: _,
            written: _,
        } = self;
    }
}

impl Model for Watched {
    ghost use Rattle.edit_cells.specs.State.{State};

    ghost Value = { State };

    ghost view = { λ w. record { base = w.base.value; design = w.indexed; reads = w.reads; written = w.written } };
}

impl Watched {
    /// The cells of a design, of which nothing was read or written, with its index. The one error is that an allocation was refused;
    /// the design is dropped then.
    pub fn new(alloc: Global, design: Design) -> Result<Watched, NoMemory>
        ensures { IfOk result (λ made. made ≡ record { base = design; design = design; reads = []; written = [] }) }
    {
        let base = Snapshot::of(&design);
        let indexed = Indexed::new(alloc, design)?;
        Ok(Watched {
            alloc,
            base,
            indexed,
            reads: Marks::new(alloc),
            written: Marks::new(alloc),
        })
    }

    /// Lends the design as it is now.
    pub fn design(&self) -> &Design
        ensures { result.now ≡ self.now.design }
    {
        self.indexed.design()
    }

    /// Lends the index: the uses of the design as it is now.
    pub fn used(&self) -> &Used
        ensures { result.now ≡ uses self.now.design }
    {
        self.indexed.used()
    }

    /// The objects that were read, each once, in the order of their first reads.
    pub fn reads(&self) -> &Row<Object>
        ensures value { result.now ≡ self.now.reads }
        ensures distinct { AreDistinct self.now.reads }
    {
        self.reads.row()
    }

    /// The objects that were written, each once.
    pub fn written(&self) -> &Row<Object>
        ensures value { result.now ≡ self.now.written }
        ensures distinct { AreDistinct self.now.written }
    {
        self.written.row()
    }
}

impl Cells for Watched {
    ghost state = { λ w. w };

    fn lib_named(&self, name: &Ident) -> Option<LibId> {
        lib_named(self.indexed.design(), name)
    }

    fn lib_head(&self, lib: LibId) -> Option<&LibHead> {
        self.indexed.design().lib(lib)
    }

    fn top_cell(&self) -> Option<CellId> {
        match self.indexed.design().top() {
            Some(top) => Some(top.cell),
            None => None,
        }
    }

    fn find(&mut self, lib: LibId, name: &Ident) -> Result<Option<CellId>, NoMemory> {
        let found = cell_in(self.indexed.design(), lib, name);
        self.reads.add(object_for(lib, found))?;
        Ok(found)
    }

    fn count(&mut self, lib: LibId) -> Result<u32, NoMemory> {
        self.reads.add(Object::Directory(lib))?;
        Ok(self.indexed.design().cell_count(lib))
    }

    fn name_free(&mut self, lib: LibId, name: &Ident) -> Result<bool, NoMemory> {
        self.reads.add(Object::Directory(lib))?;
        Ok(is_free(self.indexed.design(), lib, name))
    }

    fn face(&mut self, id: CellId) -> Result<Option<Face<'_>>, NoMemory> {
        self.reads.add(face_object(id))?;
        Ok(face_of(self.indexed.design(), id))
    }

    fn contents(&mut self, id: CellId) -> Result<Option<&Contents>, NoMemory> {
        self.reads.add(contents_object(id))?;
        Ok(contents_of(self.indexed.design(), id))
    }

    fn cell(&mut self, id: CellId) -> Result<Option<&CellBody>, NoMemory> {
        self.reads.add_two(face_object(id), contents_object(id))?;
        Ok(self.indexed.design().cell(id))
    }

    fn notes(&mut self) -> Result<&Row<Note>, NoMemory> {
        self.reads.add(Object::Notes)?;
        Ok(self.indexed.design().notes())
    }

    fn write(&mut self, change: Change) -> Result<(), NoMemory> {
        let before = self.written.count();
        self.written.add_written(&change)?;
        match self.indexed.make(self.alloc, change) {
            Ok(()) => Ok(()),
            Err(refused) => {
                self.written.cut(before);
                Err(refused)
            }
        }
    }

    fn mark(&self) -> u64 {
        self.reads.count() as u64
    }

    fn back(&mut self, mark: u64) {
        self.reads.cut(mark as usize);
    }
}
