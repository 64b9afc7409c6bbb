//! `Design`: a valid netlist.
ghost use Rattle.std.specs.Prelude.{◌≡◌, ◌≤◌, IsSomeAnd, OnErr, OnOk, length, unwrap_or};
ghost use Rattle.netlist_schema.specs.Change.{with_inside, with_inst_put, with_net_put};
ghost use Rattle.std.specs.Option.{option_copied};
ghost use Rattle.netlist_schema.specs.Design.{cell_at};
ghost use Rattle.netlist_schema.specs.Valid.{IsValid};

use crate::cell::{CellBody, Inst, Net};
use crate::ids::{CellId, LibId};
use crate::inside::{put_inst_in, put_net_in};
use crate::library::{Lib, LibHead, Note, TopHead};
use crate::property::Name;
use crate::shown::Shown;
use netlist_pages::NoMemory;
use netlist_parts::Row;
use std::marker::Model;

/// A hierarchical netlist: a title, libraries of cells, the top where there is one, and notes.
///
/// It is always valid: limits hold; places, bits and ids are in range; each bit stands at most once in the nets of its
/// contents; the names of a scope differ byte for byte; an instance is of a cell whose library is not later than its own;
/// each note's path has a step and resolves from the top, and no two notes have both the same path and the same key; there
/// are notes only with a top; and no cell is below itself.
#[derive(Debug)]
pub struct Design {
    title: Name,
    libs: Row<Lib>,
    top: Option<TopHead>,
    notes: Row<Note>,
}

impl Drop for Design {
    fn drop(self) {
        let Design {
            title: _,
            libs: _,
            top: _,
            notes: _,
        } = self;
    }
}

impl Model for Design {
    ghost use Rattle.netlist_schema.specs.Design.{Design as Parts};
    ghost use Rattle.netlist_schema.specs.Valid.{IsValid};

    ghost Value = { Parts };

    ghost view = { λ d. record { title = d.title; libs = d.libs; top = d.top; notes = d.notes } };

    ghost invariant = { λ d. IsValid (record { title = d.title; libs = d.libs; top = d.top; notes = d.notes }) };
}

impl Design {
    /// The design of these parts, which together have to be valid. Takes no memory.
    pub fn of(title: Name, libs: Row<Lib>, top: Option<TopHead>, notes: Row<Note>) -> Design
        requires { IsValid (record { title = title; libs = libs; top = top; notes = notes }) }
        ensures { result ≡ record { title = title; libs = libs; top = top; notes = notes } }
    {
        Design {
            title,
            libs,
            top,
            notes,
        }
    }

    /// Gives the parts back. Takes no memory.
    pub fn into_parts(self) -> (Name, Row<Lib>, Option<TopHead>, Row<Note>)
        ensures parts { self ≡ record { title = result.0; libs = result.1; top = result.2; notes = result.3 } }
        ensures valid { IsValid self }
    {
        let Design {
            title,
            libs,
            top,
            notes,
        } = self;
        (title, libs, top, notes)
    }

    /// Lends the libraries, in order.
    pub fn libs(&self) -> &Row<Lib>
        ensures value { result.now ≡ self.now.libs }
        ensures valid { IsValid self.now }
    {
        &self.libs
    }

    /// Puts other libraries and notes in place, with which the design has to be valid. Takes no memory.
    pub fn put(&mut self, libs: Row<Lib>, notes: Option<Row<Note>>)
        requires { IsValid (record self.old { libs = libs; notes = unwrap_or notes self.old.notes }) }
        ensures { self.new ≡ record self.old { libs = libs; notes = unwrap_or notes self.old.notes } }
    {
        self.libs = libs;
        if let Some(notes) = notes {
            self.notes = notes;
        }
    }

    /// Puts a net at a place in the contents of a cell that is no leaf: it replaces the one there, or goes behind the last,
    /// where the place is their number. The design has to be valid with it. It takes memory, and where that is
    /// refused, the design stays.
    pub fn put_net(&mut self, id: CellId, place: usize, net: Net) -> Result<(), NoMemory>
        requires there { IsSomeAnd (cell_at self.old id) (λ body. IsSomeAnd body.contents (λ contents. place ≤ length contents.nets)) }
        requires valid { IsValid (with_inside self.old id (with_net_put place net)) }
        ensures ok { OnOk result (self.new ≡ with_inside self.old id (with_net_put place net)) }
        ensures err { OnErr result (self.new ≡ self.old) }
    {
        put_net_in(&mut self.libs, id, place, net)
    }

    /// Puts an instance at a place in the contents of a cell that is no leaf: it replaces the one there, or goes behind the
    /// last, where the place is their number. The design has to be valid with it. It takes memory, and where that is
    /// refused, the design stays.
    pub fn put_inst(&mut self, id: CellId, place: usize, inst: Inst) -> Result<(), NoMemory>
        requires there { IsSomeAnd (cell_at self.old id) (λ body. IsSomeAnd body.contents (λ contents. place ≤ length contents.insts)) }
        requires valid { IsValid (with_inside self.old id (with_inst_put place inst)) }
        ensures ok { OnOk result (self.new ≡ with_inside self.old id (with_inst_put place inst)) }
        ensures err { OnErr result (self.new ≡ self.old) }
    {
        put_inst_in(&mut self.libs, id, place, inst)
    }

    /// A cell, where there is such a cell.
    fn find(&self, id: CellId) -> Option<&CellBody>
        ensures value { option_copied result ≡ cell_at self.now id }
        ensures valid { IsValid self.now }
    {
        self.libs
            .as_slice()
            .get(id.lib.0 as usize)?
            .cells
            .as_slice()
            .get(id.slot as usize)
    }
}

impl Shown for Design {
    ghost design = { λ d. d };

    fn title(&self) -> &Name {
        &self.title
    }

    fn lib_count(&self) -> u32 {
        self.libs.as_slice().len() as u32
    }

    fn lib(&self, lib: LibId) -> Option<&LibHead> {
        match self.libs.as_slice().get(lib.0 as usize) {
            Some(found) => Some(&found.head),
            None => None,
        }
    }

    fn cell_count(&self, lib: LibId) -> u32 {
        match self.libs.as_slice().get(lib.0 as usize) {
            Some(found) => found.cells.as_slice().len() as u32,
            None => 0,
        }
    }

    #[tactic(auto, using(crate::proofs::Cells::lent_cell_is_valid))]
    fn cell(&self, id: CellId) -> Option<&CellBody> {
        self.find(id)
    }

    fn top(&self) -> Option<&TopHead> {
        self.top.as_ref()
    }

    fn notes(&self) -> &Row<Note> {
        &self.notes
    }
}
