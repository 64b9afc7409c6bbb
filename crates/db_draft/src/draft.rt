//! `Draft`: a version with changes over it.
ghost use Rattle.std.specs.Prelude.{◌≡◌, ◌+◌, ◌<◌, ◌++◌, [], ◌∷◌, false, not, length, map, slice_get, IfOk, IfSome, IsNone, IsSome, IsSomeAnd, OnErr, OnOk, Some};
ghost use Rattle.std.specs.Arc.{arc_value};
ghost use Rattle.std.specs.List.{list_any};
ghost use Rattle.std.specs.Option.{option_copied, option_map};
ghost use Rattle.netlist_schema.specs.Design.{cell_at, cells_in, lib_at};
ghost use Rattle.netlist_schema.specs.Names.{AreDistinct, cell_names};
ghost use Rattle.netlist_schema.specs.Valid.{IsValid};
ghost use Rattle.edit_rules_spec.specs.Edit.{with_changed_cell, with_more_cell};
ghost use Rattle.edit_rules_spec.specs.Find.{is_name, is_same, lib_named, place_of};
ghost use Rattle.db_draft.specs.Drafts.{AllSuit, AreSameLayers, AreSound, HasNewLayer, IsAt};
ghost use Rattle.db_draft.specs.Laid.{libs_laid};
ghost use Rattle.db_draft.specs.Make.{CanFit};
ghost use Rattle.db_draft.specs.Place.{IsTriedCell};
ghost use Rattle.db_draft.specs.Layers.{over_of, HasAdded, IsPut, IsSameLayer};

use crate::layer::{Layer, empty_layers};
use crate::place::{Tried, try_in};
use db_version::{Shelf, Snapshot, Version};
use edit_cells::CellChange;
use netlist_schema::{
    CellBody, CellId, Copied, Ident, LibHead, LibId, NoMemory, Note, Row, Shown, TopHead,
};
use std::alloc::Global;
use std::marker::Model;
use std::sync::Arc;

/// A version with a layer over each of its libraries, and with other notes where there are any. What is not changed is read
/// from the version.
pub struct Draft {
    base: Snapshot,
    layers: Vec<Layer>,
    notes: Option<Arc<Row<Note>>>,
}

impl Drop for Draft {
    fn drop(self) {
        let Draft {
            base: _,
            layers: _,
            notes: _,
        } = self;
    }
}

impl Model for Draft {
    ghost use Rattle.db_draft.specs.Drafts.{Drafted};

    ghost Value = { Drafted };

    ghost use Rattle.db_draft.specs.Drafts.{drafted_of, IsDraft};

    ghost view = { drafted_of };

    ghost invariant = { IsDraft };
}

impl Draft {
    /// This version, without a change.
    pub fn new(alloc: Global, base: Snapshot) -> Result<Draft, NoMemory>
        ensures { IfOk result (λ draft. draft ≡ record { base = base.design; design = base.design }) }
    {
        let layers = empty_layers(alloc, base.lib_count())?;
        Ok(Draft {
            base,
            layers,
            notes: None,
        })
    }

    /// The library with this name.
    pub fn lib_named(&self, name: &Ident) -> Option<LibId>
        ensures { result ≡ lib_named self.now.design name.now }
    {
        self.base.parts().lib_named(name)
    }

    /// The head of a library.
    pub fn lib_head(&self, lib: LibId) -> Option<&LibHead>
        ensures { option_copied result ≡ option_map (λ l. l.head) (lib_at self.now.design lib) }
    {
        self.base.lib(lib)
    }

    /// The top.
    pub fn top(&self) -> Option<&TopHead>
        ensures { option_copied result ≡ self.now.design.top }
    {
        self.base.top()
    }

    /// A library with the layer over it.
    fn at(&self, lib: LibId) -> Option<(&Shelf, &Layer)>
        ensures none { IsNone result → cells_in self.now.design lib ≡ [] }
        ensures some { IfSome result (λ found. IsAt self.now.design lib found.0.now found.1.now) }
    {
        let shelf = match self.base.parts().shelf(lib) {
            Some(shelf) => shelf,
            None => return None,
        };
        match layer_at(self.layers.as_slice(), lib) {
            Some(layer) => Some((shelf, layer)),
            None => None,
        }
    }

    /// A cell, where there is such a cell.
    pub fn body(&self, id: CellId) -> Option<&CellBody>
        ensures { option_copied result ≡ cell_at self.now.design id }
    {
        match self.at(id.lib) {
            Some((shelf, layer)) => layer.cell(shelf, id.slot),
            None => None,
        }
    }

    /// A cell, where there is such a cell, shared; one that is not changed is copied.
    pub fn share(&self, alloc: Global, id: CellId) -> Result<Option<Arc<CellBody>>, NoMemory>
        ensures { IfOk result (λ body. option_map arc_value body ≡ cell_at self.now.design id) }
    {
        match self.at(id.lib) {
            Some((shelf, layer)) => layer.share(alloc, shelf, id.slot),
            None => Ok(None),
        }
    }

    /// The place of a name in the directory of a library.
    pub fn place(&self, lib: LibId, name: &Ident) -> Option<usize>
        ensures { result ≡ place_of name.now (cell_names (cells_in self.now.design lib)) }
    {
        match self.at(lib) {
            Some((shelf, layer)) => layer.place(shelf, name),
            None => None,
        }
    }

    /// The number of cells of a library, 0 where there is none.
    pub fn count(&self, lib: LibId) -> usize
        ensures { result ≡ length (cells_in self.now.design lib) }
    {
        match self.at(lib) {
            Some((shelf, layer)) => shelf.cell_count() as usize + layer.count(),
            None => 0,
        }
    }

    /// Whether no cell of the library has this name, where the case of ASCII letters is ignored.
    pub fn is_free(&self, lib: LibId, name: &Ident) -> bool
        ensures { result ≡ not (list_any (λ other. is_same other name.now) (cell_names (cells_in self.now.design lib))) }
    {
        match self.at(lib) {
            Some((shelf, layer)) => !layer.has_same(shelf, name),
            None => true,
        }
    }

    /// The notes.
    pub fn notes(&self) -> &Row<Note>
        ensures { result.now ≡ self.now.design.notes }
    {
        match &self.notes {
            Some(notes) => &**notes,
            None => self.base.notes(),
        }
    }
}

impl Draft {
    /// A draft that is equal, and shares the bodies.
    pub fn copy(&self, alloc: Global) -> Result<Draft, NoMemory>
        ensures { IfOk result (λ made. made ≡ self.now) }
    {
        let base = self.base.share()?;
        let layers = copied_layers(alloc, self.layers.as_slice())?;
        let notes = shared_notes(&self.notes)?;
        Ok(Draft {
            base,
            layers,
            notes,
        })
    }

    /// Puts another body of the same name in the place of a cell. Where memory is refused, all stays.
    pub fn set(&mut self, id: CellId, body: Arc<CellBody>) -> Result<(), NoMemory>
        requires { slice_get (cell_names (cells_in self.old.design id.lib)) id.slot ≡ Some (arc_value body).name.id }
        ensures ok { OnOk result (self.new ≡ record self.old { design = with_changed_cell self.old.design id (λ _. arc_value body) }) }
        ensures err { OnErr result (self.new ≡ self.old) }
    {
        let count = match self.base.parts().shelf(id.lib) {
            Some(shelf) => shelf.cell_count(),
            None => unreachable!(),
        };
        put_in(&mut self.layers, id.lib, count, id.slot, body)
    }

    /// Changes a cell that is there in place, where its layer has a body for it that nobody else has.
    pub fn try_change(&mut self, id: CellId, change: CellChange) -> Tried
        requires { IsSomeAnd (cell_at self.old.design id) (CanFit change) }
        ensures { IsTriedCell self.old self.new id change result }
    {
        let count = match self.base.parts().shelf(id.lib) {
            Some(shelf) => shelf.cell_count(),
            None => unreachable!(),
        };
        try_in(&mut self.layers, id.lib, count, id.slot, change)
    }

    /// Adds a cell behind the last of a library, whose name is none of those there. Where memory is refused, all stays.
    pub fn push(&mut self, alloc: Global, lib: LibId, body: Arc<CellBody>) -> Result<(), NoMemory>
        requires there { IsSome (lib_at self.old.design lib) }
        requires distinct { AreDistinct (cell_names (cells_in self.old.design lib ++ arc_value body ∷ [])) }
        ensures ok { OnOk result (self.new ≡ record self.old { design = with_more_cell self.old.design lib (arc_value body) }) }
        ensures err { OnErr result (self.new ≡ self.old) }
    {
        push_in(alloc, &mut self.layers, lib, body)
    }

    /// Puts other notes in the place of those there. Takes no memory.
    pub fn set_notes(&mut self, notes: Arc<Row<Note>>)
        ensures { self.new ≡ record self.old { design = record self.old.design { notes = arc_value notes } } }
    {
        self.notes = Some(notes);
    }
}

impl Draft {
    /// The notes, shared; notes that are not changed are copied.
    pub fn share_notes(&self, alloc: Global) -> Result<Arc<Row<Note>>, NoMemory>
        ensures { IfOk result (λ notes. arc_value notes ≡ self.now.design.notes) }
    {
        match &self.notes {
            Some(notes) => Ok(Arc::try_clone(notes)?),
            None => Ok(Arc::new(alloc, self.base.notes().copy(alloc)?)?),
        }
    }

    /// The version that this comes to. A library that is not changed is shared.
    pub fn version(&self, alloc: Global) -> Result<Version, NoMemory>
        requires { IsValid self.now.design }
        ensures { IfOk result (λ made. made ≡ self.now.design) }
    {
        let shelves = shelves_laid(alloc, self.base.parts(), self.layers.as_slice())?;
        let notes = shared_notes(&self.notes)?;
        self.base.parts().with(shelves, notes)
    }
}

/// Puts another body in the place of a cell of a library, by the number of cells that the library has without its layer.
fn put_in(
    layers: &mut Vec<Layer>,
    lib: LibId,
    count: u32,
    slot: u32,
    body: Arc<CellBody>,
) -> Result<(), NoMemory>
    requires { IsSomeAnd (slice_get layers.old.items lib.0) (λ layer. slot < count + length (over_of layer).added) }
    ensures ok { OnOk result (HasNewLayer layers.old.items layers.new.items lib.0 (λ old new. IsPut old new count slot (arc_value body))) }
    ensures err { OnErr result (HasNewLayer layers.old.items layers.new.items lib.0 IsSameLayer) }
{
    layers[lib.0 as usize].put(count, slot, body)
}

/// Adds a cell behind the last of a library.
fn push_in(
    alloc: Global,
    layers: &mut Vec<Layer>,
    lib: LibId,
    body: Arc<CellBody>,
) -> Result<(), NoMemory>
    requires { IsSomeAnd (slice_get layers.old.items lib.0) (λ layer. list_any (is_name (arc_value body).name.id) layer.names ≡ false) }
    ensures ok { OnOk result (HasNewLayer layers.old.items layers.new.items lib.0 (λ old new. HasAdded old new ((over_of old).added ++ arc_value body ∷ []) (old.names ++ (arc_value body).name.id ∷ []))) }
    ensures err { OnErr result (HasNewLayer layers.old.items layers.new.items lib.0 IsSameLayer) }
{
    layers[lib.0 as usize].push(alloc, body)
}

/// The same notes, shared.
fn shared_notes(notes: &Option<Arc<Row<Note>>>) -> Result<Option<Arc<Row<Note>>>, NoMemory>
    ensures { IfOk result (λ made. option_map arc_value made ≡ option_map arc_value notes.now) }
{
    match notes {
        Some(notes) => Ok(Some(Arc::try_clone(notes)?)),
        None => Ok(None),
    }
}

/// Layers that are equal.
fn copied_layers(alloc: Global, layers: &[Layer]) -> Result<Vec<Layer>, NoMemory>
    ensures { IfOk result (λ made. AreSameLayers layers.now made.items) }
{
    let mut made = Vec::with_capacity(alloc, layers.len())?;
    for layer in layers {
        made.push(layer.copy(alloc)?)?;
    }
    Ok(made)
}

/// The layer of a library.
fn layer_at(layers: &[Layer], lib: LibId) -> Option<&Layer>
    ensures { option_copied result ≡ slice_get layers.now lib.0 }
{
    layers.get(lib.0 as usize)
}

/// The library at a place of a version, with its layer over it.
fn shelf_laid(
    alloc: Global,
    base: &Version,
    layers: &[Layer],
    lib: LibId,
) -> Result<Option<Arc<Shelf>>, NoMemory>
    requires suit { AllSuit base.now.libs layers.now }
    requires sound { AreSound (libs_laid (map over_of layers.now) base.now.libs) }
    ensures { IfOk result (λ shelf. option_map arc_value shelf ≡ slice_get (libs_laid (map over_of layers.now) base.now.libs) lib.0) }
{
    let layer = match layer_at(layers, lib) {
        Some(layer) => layer,
        None => return Ok(None),
    };
    match base.share_shelf(lib)? {
        Some(shelf) => Ok(Some(layer.laid(alloc, shelf)?)),
        None => Ok(None),
    }
}

/// The libraries of a version, each with its layer over it.
fn shelves_laid(
    alloc: Global,
    base: &Version,
    layers: &[Layer],
) -> Result<Vec<Arc<Shelf>>, NoMemory>
    requires suit { AllSuit base.now.libs layers.now }
    requires sound { AreSound (libs_laid (map over_of layers.now) base.now.libs) }
    ensures { IfOk result (λ shelves. map arc_value shelves.items ≡ libs_laid (map over_of layers.now) base.now.libs) }
{
    let mut shelves = Vec::with_capacity(alloc, layers.len())?;
    for place in 0..base.lib_count() {
        match shelf_laid(alloc, base, layers, LibId(place))? {
            Some(shelf) => shelves.push(shelf)?,
            None => {}
        }
    }
    Ok(shelves)
}
