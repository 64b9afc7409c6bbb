//! Changes made in a draft.
ghost use Rattle.std.specs.Prelude.{◌≡◌, ◌∷◌, [], IfOk, IsSomeAnd, MatchResult, OnErr, OnOk, option_map};
ghost use Rattle.std.specs.Arc.{arc_value};
ghost use Rattle.netlist_schema.specs.Design.{cell_at, cells_in};
ghost use Rattle.netlist_schema.specs.Names.{AreDistinct, cell_names};
ghost use Rattle.netlist_schema.specs.Types.{LibId as Lib'};
ghost use Rattle.netlist_schema.specs.Valid.{IsValid};
ghost use Rattle.edit_rules_spec.specs.Edit.{edited, edited_once, with_changed_cell, with_contents};
ghost use Rattle.edit_cells.specs.Change.{CanAllBeMade, CanBeMade, cell_edits, edit_of, edits_of};
ghost use Rattle.edit_cells.specs.Patch.{body_after};
ghost use Rattle.db_draft.specs.Make.{CanFit};

use crate::draft::Draft;
use crate::place::Tried;
use edit_cells::{CellChange, Change};
use netlist_schema::{CellBody, CellId, Contents, Copied, NoMemory, Note, Row};
use std::alloc::Global;
use std::sync::Arc;

/// Changes a body. Where memory is refused, it stays.
pub(crate) fn change_body(body: &mut CellBody, change: CellChange) -> Result<(), NoMemory>
    requires { CanFit change body.old }
    ensures ok { OnOk result (body.new ≡ body_after change body.old) }
    ensures err { OnErr result (body.new ≡ body.old) }
{
    match change {
        CellChange::Fresh { .. } => Ok(()),
        CellChange::Face { id: _, properties } => {
            body.properties = properties;
            Ok(())
        }
        CellChange::Inner { id: _, contents } => set_contents(body, contents),
        CellChange::Net { id: _, place, net } => body.put_net(place as usize, net),
        CellChange::Inst { id: _, place, inst } => body.put_inst(place as usize, inst),
    }
}

/// Puts other contents in the place of those there, where there are any.
fn set_contents(body: &mut CellBody, contents: Contents) -> Result<(), NoMemory>
    ensures ok { OnOk result (body.new ≡ with_contents contents body.old) }
    ensures err { OnErr result (body.new ≡ body.old) }
{
    body.set_contents(contents)
}

/// The change, where it is the only one.
fn only(changes: Vec<CellChange>) -> Result<CellChange, Vec<CellChange>>
    ensures { MatchResult result (λ change. changes.items ≡ change ∷ []) (λ rest. rest.items ≡ changes.items) }
{
    let mut rest = changes;
    if rest.len() != 1 {
        return Err(rest);
    }
    match rest.pop() {
        Some(change) => Ok(change),
        None => Err(rest),
    }
}

/// Notes, shared, where they are given.
fn shared_notes(alloc: Global, notes: Option<Row<Note>>) -> Result<Option<Arc<Row<Note>>>, NoMemory>
    ensures { IfOk result (λ made. option_map arc_value made ≡ notes) }
{
    match notes {
        Some(notes) => Ok(Some(Arc::new(alloc, notes)?)),
        None => Ok(None),
    }
}

impl Draft {
    /// Makes a change, all of it or nothing. Where memory is refused, the draft stays.
    pub fn make(&mut self, alloc: Global, change: Change) -> Result<(), NoMemory>
        requires can { CanAllBeMade self.old.design change.cells }
        requires valid { IsValid (edited self.old.design (edits_of self.old.design change)) }
        ensures ok { OnOk result (self.new ≡ record self.old { design = edited self.old.design (edits_of self.old.design change) }) }
        ensures err { OnErr result (self.new ≡ self.old) }
    {
        let Change { cells, notes } = change;
        let notes = shared_notes(alloc, notes)?;
        self.make_cells(alloc, cells.into_vec())?;
        match notes {
            Some(notes) => self.set_notes(notes),
            None => {}
        }
        Ok(())
    }

    /// Makes changes of cells, one after the other, all of them or none.
    fn make_cells(&mut self, alloc: Global, changes: Vec<CellChange>) -> Result<(), NoMemory>
        requires can { CanAllBeMade self.old.design changes.items }
        requires distinct { (lib : Lib') → AreDistinct (cell_names (cells_in (edited self.old.design (cell_edits self.old.design changes.items)) lib)) }
        ensures ok { OnOk result (self.new ≡ record self.old { design = edited self.old.design (cell_edits self.old.design changes.items) }) }
        ensures err { OnErr result (self.new ≡ self.old) }
    {
        match only(changes) {
            Ok(one) => self.make_one(alloc, one),
            Err(more) => self.make_all(alloc, more),
        }
    }

    /// Makes several changes in a copy, which then takes the place of this draft. Where memory is refused, the draft stays.
    fn make_all(&mut self, alloc: Global, changes: Vec<CellChange>) -> Result<(), NoMemory>
        requires can { CanAllBeMade self.old.design changes.items }
        requires distinct { (lib : Lib') → AreDistinct (cell_names (cells_in (edited self.old.design (cell_edits self.old.design changes.items)) lib)) }
        ensures ok { OnOk result (self.new ≡ record self.old { design = edited self.old.design (cell_edits self.old.design changes.items) }) }
        ensures err { OnErr result (self.new ≡ self.old) }
    {
        let mut next = self.copy(alloc)?;
        next.make_each(alloc, changes)?;
        *self = next;
        Ok(())
    }

    /// Makes changes of cells, one after the other. Where memory is refused, some may be made.
    fn make_each(&mut self, alloc: Global, changes: Vec<CellChange>) -> Result<(), NoMemory>
        requires can { CanAllBeMade self.old.design changes.items }
        requires distinct { (lib : Lib') → AreDistinct (cell_names (cells_in (edited self.old.design (cell_edits self.old.design changes.items)) lib)) }
        ensures { OnOk result (self.new ≡ record self.old { design = edited self.old.design (cell_edits self.old.design changes.items) }) }
    {
        for change in changes {
            self.make_one(alloc, change)?;
        }
        Ok(())
    }

    /// Makes a change of one cell. Where memory is refused, the draft stays.
    fn make_one(&mut self, alloc: Global, change: CellChange) -> Result<(), NoMemory>
        requires can { CanBeMade self.old.design change }
        requires distinct { (lib : Lib') → AreDistinct (cell_names (cells_in (edited_once self.old.design (edit_of self.old.design change)) lib)) }
        ensures ok { OnOk result (self.new ≡ record self.old { design = edited_once self.old.design (edit_of self.old.design change) }) }
        ensures err { OnErr result (self.new ≡ self.old) }
    {
        match change {
            CellChange::Fresh { id, body } => {
                let body = Arc::new(alloc, body)?;
                self.push(alloc, id.lib, body)
            }
            CellChange::Face { id, properties } => {
                self.edit(alloc, id, CellChange::Face { id, properties })
            }
            CellChange::Inner { id, contents } => {
                self.edit(alloc, id, CellChange::Inner { id, contents })
            }
            CellChange::Net { id, place, net } => {
                self.edit(alloc, id, CellChange::Net { id, place, net })
            }
            CellChange::Inst { id, place, inst } => {
                self.edit(alloc, id, CellChange::Inst { id, place, inst })
            }
        }
    }

    /// Changes a cell that is there. The first change of a cell copies its body; later ones are made in place.
    fn edit(&mut self, alloc: Global, id: CellId, change: CellChange) -> Result<(), NoMemory>
        requires { IsSomeAnd (cell_at self.old.design id) (CanFit change) }
        ensures ok { OnOk result (self.new ≡ record self.old { design = with_changed_cell self.old.design id (body_after change) }) }
        ensures err { OnErr result (self.new ≡ self.old) }
    {
        match self.try_change(id, change) {
            Tried::Made => Ok(()),
            Tried::Refused => Err(NoMemory),
            Tried::NotHere(change) => self.edit_copy(alloc, id, change),
        }
    }

    /// Changes a copy of a cell that is there, which then takes its place.
    fn edit_copy(&mut self, alloc: Global, id: CellId, change: CellChange) -> Result<(), NoMemory>
        requires { IsSomeAnd (cell_at self.old.design id) (CanFit change) }
        ensures ok { OnOk result (self.new ≡ record self.old { design = with_changed_cell self.old.design id (body_after change) }) }
        ensures err { OnErr result (self.new ≡ self.old) }
    {
        let mut made = match self.body(id) {
            Some(body) => body.copy(alloc)?,
            None => unreachable!(),
        };
        change_body(&mut made, change)?;
        self.set(id, Arc::new(alloc, made)?)
    }
}
