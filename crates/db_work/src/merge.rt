//! Work that is brought to a later version.
ghost use Rattle.std.specs.Prelude.{◌≡◌, ◌+◌, ◌<◌, ◌≤◌, IfOk, IsTrue, OnOk, length, option_map, Contains};
ghost use Rattle.std.specs.Arc.{arc_value};
ghost use Rattle.netlist_schema.specs.Design.{Design, cell_at, cells_in};
ghost use Rattle.netlist_schema.specs.Types.{LibId as LibId'};
ghost use Rattle.netlist_schema.specs.declared.ids.Object.TheVariants.{Directory, Interface, Contents as Inside, Notes};
ghost use Rattle.db_work.specs.Becomes.{AreNewMet, AreOldOrNew, CanBecome, IsBehind, HasTargetNames, IsFuller, IsNear, IsNearer, Meets, joined, put_together};

use crate::outside::has_same_outside;
use crate::work::Work;
use db_draft::Draft;
use db_version::{Snapshot, Version};
use netlist_schema::{CellBody, CellId, Copied, LibId, NoMemory, Object, Shown};
use std::alloc::Global;
use std::sync::Arc;

impl Work {
    /// What the work comes to on a later version: the objects that were written as they are here, and all others as they are
    /// there. It costs what was written; a library of which nothing was written is shared.
    pub fn onto(&self, alloc: Global, head: &Snapshot) -> Result<Version, NoMemory>
        requires { (target : Design) × CanBecome head.now.design self.now target }
        ensures { IfOk result (λ made. (target : Design) → CanBecome head.now.design self.now target → made ≡ target) }
    {
        let mut moved = Draft::new(alloc, head.share()?)?;
        self.add_all(alloc, &mut moved)?;
        self.bring_all(alloc, head, &mut moved)?;
        moved.version(alloc)
    }

    /// Adds all cells that the work adds.
    fn add_all(&self, alloc: Global, moved: &mut Draft) -> Result<(), NoMemory>
        requires { (target : Design) × IsBehind self.now target moved.old.design }
        ensures { OnOk result ((target : Design) → IsBehind self.now target moved.old.design → IsNear self.now target moved.new.design × AreOldOrNew target moved.old.design moved.new.design) }
    {
        for object in self.written().as_slice() {
            self.add_for(alloc, moved, *object)?;
        }
        Ok(())
    }

    /// Adds the cells of a directory that was written.
    fn add_for(&self, alloc: Global, moved: &mut Draft, object: Object) -> Result<(), NoMemory>
        requires written { Contains self.now.written object }
        requires behind { (target : Design) × IsBehind self.now target moved.old.design }
        ensures { OnOk result ((target : Design) → IsBehind self.now target moved.old.design → IsFuller self.now target moved.old.design moved.new.design × ((lib : LibId') → object ≡ Directory lib → HasTargetNames target moved.new.design lib)) }
    {
        match object {
            Object::Directory(lib) => self.add_behind(alloc, moved, lib),
            _ => Ok(()),
        }
    }

    /// Adds the cells that a library has here behind the last there.
    fn add_behind(&self, alloc: Global, moved: &mut Draft, lib: LibId) -> Result<(), NoMemory>
        requires written { Contains self.now.written (Directory lib) }
        requires behind { (target : Design) × IsBehind self.now target moved.old.design }
        ensures { OnOk result ((target : Design) → IsBehind self.now target moved.old.design → IsFuller self.now target moved.old.design moved.new.design × HasTargetNames target moved.new.design lib) }
    {
        let count = self.cell_count(lib);
        let first = moved.count(lib) as u32;
        for slot in first..count {
            self.add_next(alloc, moved, CellId { lib, slot })?;
        }
        Ok(())
    }

    /// Adds a cell at the next place of a library.
    fn add_next(&self, alloc: Global, moved: &mut Draft, id: CellId) -> Result<(), NoMemory>
        requires written { Contains self.now.written (Directory id.lib) }
        requires next { id.slot ≡ length (cells_in moved.old.design id.lib) }
        requires within { id.slot < length (cells_in self.now.design id.lib) }
        requires behind { (target : Design) × IsBehind self.now target moved.old.design }
        ensures fuller { OnOk result ((target : Design) → IsBehind self.now target moved.old.design → IsFuller self.now target moved.old.design moved.new.design) }
        ensures count { OnOk result (length (cells_in moved.new.design id.lib) ≡ id.slot + 1) }
    {
        match self.draft().share(alloc, id)? {
            Some(body) => moved.push(alloc, id.lib, body),
            None => unreachable!(),
        }
    }

    /// Brings over all parts of cells that were written, and the notes.
    fn bring_all(&self, alloc: Global, head: &Snapshot, moved: &mut Draft) -> Result<(), NoMemory>
        requires { (target : Design) × IsNear self.now target moved.old.design × AreNewMet head.now.design target moved.old.design }
        ensures { OnOk result ((target : Design) → IsNear self.now target moved.old.design → AreNewMet head.now.design target moved.old.design → moved.new.design ≡ target) }
    {
        for object in self.written().as_slice() {
            self.bring(alloc, head, moved, *object)?;
        }
        Ok(())
    }

    /// Brings over a part of a cell, or the notes. Cells that the work adds are there already, inside and out.
    fn bring(
        &self,
        alloc: Global,
        head: &Snapshot,
        moved: &mut Draft,
        object: Object,
    ) -> Result<(), NoMemory>
        requires written { Contains self.now.written object }
        requires near { (target : Design) × IsNear self.now target moved.old.design × AreNewMet head.now.design target moved.old.design }
        ensures { OnOk result ((target : Design) → IsNear self.now target moved.old.design → AreNewMet head.now.design target moved.old.design → IsNearer self.now target moved.old.design moved.new.design object) }
    {
        if is_part_of_new(head, object) {
            return Ok(());
        }
        self.bring_old(alloc, moved, object)
    }

    /// Brings over a part of a cell that is there, or the notes.
    fn bring_old(&self, alloc: Global, moved: &mut Draft, object: Object) -> Result<(), NoMemory>
        requires written { Contains self.now.written object }
        requires near { (target : Design) × IsNear self.now target moved.old.design }
        ensures { OnOk result ((target : Design) → IsNear self.now target moved.old.design → IsNearer self.now target moved.old.design moved.new.design object) }
    {
        match object {
            Object::Directory(_) => Ok(()),
            Object::Interface(id) => self.bring_outside(alloc, moved, id),
            Object::Contents(id) => self.bring_inside(alloc, moved, id),
            Object::Notes => self.bring_notes(alloc, moved),
        }
    }

    /// Brings over what is seen of a cell from outside.
    fn bring_outside(&self, alloc: Global, moved: &mut Draft, id: CellId) -> Result<(), NoMemory>
        requires written { Contains self.now.written (Interface id) }
        requires near { (target : Design) × IsNear self.now target moved.old.design }
        ensures { OnOk result ((target : Design) → IsNear self.now target moved.old.design → IsNearer self.now target moved.old.design moved.new.design (Interface id)) }
    {
        match both(alloc, self.draft(), moved, id)? {
            Some(body) => moved.set(id, body),
            None => Ok(()),
        }
    }

    /// Brings over what is inside a cell.
    fn bring_inside(&self, alloc: Global, moved: &mut Draft, id: CellId) -> Result<(), NoMemory>
        requires written { Contains self.now.written (Inside id) }
        requires near { (target : Design) × IsNear self.now target moved.old.design }
        ensures { OnOk result ((target : Design) → IsNear self.now target moved.old.design → IsNearer self.now target moved.old.design moved.new.design (Inside id)) }
    {
        match both(alloc, moved, self.draft(), id)? {
            Some(body) => moved.set(id, body),
            None => Ok(()),
        }
    }

    /// Brings over the notes.
    fn bring_notes(&self, alloc: Global, moved: &mut Draft) -> Result<(), NoMemory>
        requires written { Contains self.now.written Notes }
        ensures { OnOk result ((target : Design) → IsNear self.now target moved.old.design → IsNearer self.now target moved.old.design moved.new.design Notes) }
    {
        let notes = self.draft().share_notes(alloc)?;
        moved.set_notes(notes);
        Ok(())
    }
}

/// Whether an object is a part of a cell that comes behind those of a version.
fn is_part_of_new(head: &Snapshot, object: Object) -> bool
    ensures { IsTrue result → (target now : Design) → AreNewMet head.now.design target now → Meets now target object }
{
    match object {
        Object::Interface(id) => is_new(head, id),
        Object::Contents(id) => is_new(head, id),
        _ => false,
    }
}

/// Whether a cell comes behind those of a version.
fn is_new(head: &Snapshot, id: CellId) -> bool
    ensures { IsTrue result → length (cells_in head.now.design id.lib) ≤ id.slot }
{
    head.cell_count(id.lib) <= id.slot
}

/// A cell with the outside that it has in the one and the inside that it has in the other, where both have it. Where the two
/// outsides are the same, it is the other's cell, which is shared.
fn both(
    alloc: Global,
    outer: &Draft,
    inner: &Draft,
    id: CellId,
) -> Result<Option<Arc<CellBody>>, NoMemory>
    ensures { IfOk result (λ made. option_map arc_value made ≡ joined (cell_at outer.now.design id) (cell_at inner.now.design id)) }
{
    let Some(a) = outer.body(id) else {
        return Ok(None);
    };
    let Some(b) = inner.body(id) else {
        return Ok(None);
    };
    if has_same_outside(a, b) {
        return inner.share(alloc, id);
    }
    Ok(Some(Arc::new(alloc, body_of(alloc, a, b)?)?))
}

/// A body with the outside of the one and the inside of the other, in memory of its own.
fn body_of(alloc: Global, outer: &CellBody, inner: &CellBody) -> Result<CellBody, NoMemory>
    ensures { IfOk result (λ made. made ≡ put_together outer.now inner.now) }
{
    Ok(CellBody {
        name: outer.name.copy(alloc)?,
        kind: outer.kind,
        properties: outer.properties.copy(alloc)?,
        view: outer.view.copy(alloc)?,
        view_properties: outer.view_properties.copy(alloc)?,
        interface_properties: outer.interface_properties.copy(alloc)?,
        ports: outer.ports.copy(alloc)?,
        contents: inner.contents.copy(alloc)?,
    })
}
