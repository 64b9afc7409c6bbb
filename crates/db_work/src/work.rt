//! `Work`: a version that is edited.
ghost use Rattle.std.specs.Prelude.{◌≡◌, ◌≤◌, [], length, IfOk, IfSome};
ghost use Rattle.std.specs.Option.{option_copied, option_map};
ghost use Rattle.netlist_schema.specs.Design.{cell_at, cells_in};
ghost use Rattle.netlist_schema.specs.Names.{AreDistinct};
ghost use Rattle.netlist_schema.specs.Valid.{IsValidCell};
ghost use Rattle.netlist_schema.specs.declared.limits.TheConstants.{MOST_CELLS, MOST_PORTS};
ghost use Rattle.edit_rules_spec.specs.Seen.{contents_at};
ghost use Rattle.edit_cells.specs.Parts.{HasLimits, seen_at, shown_by};
ghost use Rattle.edit_rules_spec.specs.Find.{cell_in};

use db_draft::Draft;
use db_version::{Snapshot, Version};
use edit_cells::{
    Cells, Change, Face, Marks, contents_object, face_object, inside, object_for, seen,
};
use netlist_schema::{
    CellBody, CellId, Contents, Ident, LibHead, LibId, NoMemory, Note, Object, Row, Shown,
    design_is_valid,
};
use std::alloc::Global;
use std::marker::Model;
use std::sync::Arc;

/// A version that is edited, with the objects that were read and written.
pub struct Work {
    alloc: Global,
    draft: Draft,
    reads: Marks,
    written: Marks,
}

impl Drop for Work {
    fn drop(self) {
        let Work {
            alloc: _,
            draft: _,
            reads: _,
            written: _,
        } = self;
    }
}

impl Model for Work {
    ghost use Rattle.edit_cells.specs.State.{State};

    ghost Value = { State };

    ghost use Rattle.db_work.specs.Work.{state_of, IsWork};

    ghost view = { state_of };

    ghost invariant = { IsWork };
}

impl Work {
    /// Work on this version, of which nothing was read or written.
    pub fn new(alloc: Global, base: Snapshot) -> Result<Work, NoMemory>
        ensures { IfOk result (λ work. work ≡ record { base = base.design; design = base.design; reads = []; written = [] }) }
    {
        design_is_valid(&base);
        let draft = Draft::new(alloc, base)?;
        Ok(Work {
            alloc,
            draft,
            reads: Marks::new(alloc),
            written: Marks::new(alloc),
        })
    }

    /// The version with the changes over it.
    pub fn draft(&self) -> &Draft
        ensures { result.now.design ≡ self.now.design }
    {
        &self.draft
    }

    /// The version that the work makes of the one that it began with, where nothing else is to be brought in: it takes the cells
    /// that were written as they are here, without a copy, and shares all others.
    pub fn version(&self, alloc: Global) -> Result<Version, NoMemory>
        ensures { IfOk result (λ made. made ≡ self.now.design) }
    {
        self.draft.version(alloc)
    }

    /// The objects that were read, each once.
    pub fn reads(&self) -> &Row<Object>
        ensures value { result.now ≡ self.now.reads }
        ensures distinct { AreDistinct self.now.reads }
    {
        self.reads.row()
    }

    /// The objects that were written, each once.
    pub fn written(&self) -> &Row<Object>
        ensures value { result.now ≡ self.now.written }
        ensures distinct { AreDistinct self.now.written }
    {
        self.written.row()
    }

    /// The cell with this name in a library.
    fn place(&self, lib: LibId, name: &Ident) -> Option<CellId>
        ensures { result ≡ cell_in self.now.design name.now lib }
    {
        match self.draft.place(lib, name) {
            Some(place) => Some(CellId {
                lib,
                slot: place as u32,
            }),
            None => None,
        }
    }

    /// The number of cells of a library, 0 where there is none.
    pub fn cell_count(&self, lib: LibId) -> u32
        ensures value { result ≡ length (cells_in self.now.design lib) }
        ensures limit { result ≤ MOST_CELLS }
    {
        self.draft.count(lib) as u32
    }

    /// A cell, where there is such a cell, which is valid.
    #[tactic(auto, using(netlist_schema::proofs::Cells::lent_cell_is_valid))]
    fn valid_body(&self, id: CellId) -> Option<&CellBody>
        ensures value { option_copied result ≡ cell_at self.now.design id }
        ensures valid { IfSome result (λ body. IsValidCell self.now.design id body.now) }
    {
        self.draft.body(id)
    }

    /// A cell from outside.
    #[tactic(auto, using(edit_cells::proofs::Looks::found_face, edit_cells::proofs::Looks::no_face))]
    fn face_of(&self, id: CellId) -> Option<Face<'_>>
        ensures found { option_map shown_by result ≡ seen_at self.now.design id }
        ensures limit { IfSome result (λ face. length face.ports.now ≤ MOST_PORTS) }
    {
        match self.valid_body(id) {
            Some(body) => Some(seen(body)),
            None => None,
        }
    }

    /// What is inside a cell.
    fn contents_of(&self, id: CellId) -> Option<&Contents>
        ensures found { option_copied result ≡ contents_at self.now.design id }
        ensures limits { IfSome result (λ contents. HasLimits contents.now) }
    {
        match self.valid_body(id) {
            Some(body) => inside(body),
            None => None,
        }
    }
}

impl Cells for Work {
    ghost state = { λ work. work };

    fn lib_named(&self, name: &Ident) -> Option<LibId> {
        self.draft.lib_named(name)
    }

    fn lib_head(&self, lib: LibId) -> Option<&LibHead> {
        self.draft.lib_head(lib)
    }

    fn top_cell(&self) -> Option<CellId> {
        match self.draft.top() {
            Some(top) => Some(top.cell),
            None => None,
        }
    }

    fn find(&mut self, lib: LibId, name: &Ident) -> Result<Option<CellId>, NoMemory> {
        let found = self.place(lib, name);
        self.reads.add(object_for(lib, found))?;
        Ok(found)
    }

    fn count(&mut self, lib: LibId) -> Result<u32, NoMemory> {
        let count = self.cell_count(lib);
        self.reads.add(Object::Directory(lib))?;
        Ok(count)
    }

    fn name_free(&mut self, lib: LibId, name: &Ident) -> Result<bool, NoMemory> {
        let free = self.draft.is_free(lib, name);
        self.reads.add(Object::Directory(lib))?;
        Ok(free)
    }

    fn face(&mut self, id: CellId) -> Result<Option<Face<'_>>, NoMemory> {
        self.reads.add(face_object(id))?;
        Ok(self.face_of(id))
    }

    fn contents(&mut self, id: CellId) -> Result<Option<&Contents>, NoMemory> {
        self.reads.add(contents_object(id))?;
        Ok(self.contents_of(id))
    }

    fn cell(&mut self, id: CellId) -> Result<Option<&CellBody>, NoMemory> {
        self.reads.add_two(face_object(id), contents_object(id))?;
        Ok(self.valid_body(id))
    }

    fn notes(&mut self) -> Result<&Row<Note>, NoMemory> {
        self.reads.add(Object::Notes)?;
        Ok(self.draft.notes())
    }

    fn write(&mut self, change: Change) -> Result<(), NoMemory> {
        let before = self.written.count();
        self.written.add_written(&change)?;
        match self.draft.make(self.alloc, change) {
            Ok(()) => Ok(()),
            Err(refused) => {
                self.written.cut(before);
                Err(refused)
            }
        }
    }

    fn mark(&self) -> u64 {
        self.reads.count() as u64
    }

    fn back(&mut self, mark: u64) {
        self.reads.cut(mark as usize);
    }
}
