//! `Layer`: what a transaction changes of a library.
ghost use Rattle.std.specs.Prelude.{◌≡◌, ◌+◌, ◌^◌, ◌++◌, [], ◌∷◌, ◌<◌, ◌≤◌, false, length, map, slice_get, slice_set, vec_len, All, IfOk, IfSome, IsTrue, OnErr, OnOk};
ghost use Rattle.std.specs.Arc.{arc_value};
ghost use Rattle.std.specs.Option.{option_copied, option_map};
ghost use Rattle.netlist_schema.specs.Names.{AreDistinct, cell_names};
ghost use Rattle.std.specs.BTreeMap.{IsOrdered};
ghost use Rattle.std.specs.Ordering.{nat_cmp};
ghost use Rattle.ver_table.specs.Entries.{pairs_of};
ghost use Rattle.edit_rules_spec.specs.Find.{is_name, is_same, place_of};
ghost use Rattle.std.specs.List.{list_any};
ghost use Rattle.db_draft.specs.Laid.{Fits, cells_laid};
ghost use Rattle.netlist_schema.specs.Types.{CellBody as CellBody'};
ghost use Rattle.netlist_schema.specs.declared.limits.TheConstants.{MOST_CELLS};
ghost use Rattle.db_draft.specs.Make.{CanFit};
ghost use Rattle.db_draft.specs.Place.{HasBody, IsTriedIn};
ghost use Rattle.db_draft.specs.Layers.{changes_of, over_of, HasAdded, HasChanged, IsBlank, IsEmpty, IsNamed, IsPut, IsSameLayer};

use crate::place::{Tried, try_added, try_changed};
use db_version::{NameList, Shelf};
use edit_cells::CellChange;
use netlist_schema::{CellBody, Copied, Ident, NoMemory};
use std::alloc::Global;
use std::collections::BTreeMap;
use std::sync::Arc;
use ver_table::Entry;

/// A layer over a library: other bodies of its cells, and cells that go after its last. The library itself stays as it is.
pub struct Layer {
    /// The other body of a cell, by its place.
    changed: BTreeMap<u32, Arc<CellBody>>,
    /// The names of the cells added, for look-ups.
    names: NameList,
    cells: Vec<Arc<CellBody>>,
}

impl Drop for Layer {
    fn drop(self) {
        let Layer {
            changed: _,
            names: _,
            cells: _,
        } = self;
    }
}

impl Layer {
    /// A layer of nothing. Takes no memory.
    pub fn new(alloc: Global) -> Layer
        ensures { IsEmpty result }
    {
        Layer {
            changed: BTreeMap::new(alloc),
            names: NameList::new(alloc),
            cells: Vec::new(alloc),
        }
    }

    /// The other body of a cell.
    fn changed(&self, slot: u32) -> Option<&CellBody>
        ensures { option_copied result ≡ (over_of self.now).changed slot }
    {
        match self.changed.get(&slot) {
            Some(body) => Some(&**body),
            None => None,
        }
    }

    /// A cell added, by its place among them.
    fn added(&self, place: u32) -> Option<&CellBody>
        ensures { option_copied result ≡ slice_get (over_of self.now).added place }
    {
        match self.cells.as_slice().get(place as usize) {
            Some(body) => Some(&**body),
            None => None,
        }
    }

    /// The place of a name among the cells added.
    fn added_place(&self, name: &Ident) -> Option<usize>
        requires named { IsNamed self.now }
        ensures value { result ≡ place_of name.now (cell_names (over_of self.now).added) }
        ensures within { IfSome result (λ place. place < length (over_of self.now).added) }
    {
        self.names.place(name)
    }

    /// The cell at a place of a library with this layer over it.
    pub fn cell<'a>(&'a self, shelf: &'a Shelf, slot: u32) -> Option<&'a CellBody>
        ensures { option_copied result ≡ slice_get (cells_laid (over_of self.now) shelf.now.cells) slot }
    {
        let count = shelf.cell_count();
        if slot >= count {
            return self.added(slot - count);
        }
        match self.changed(slot) {
            Some(body) => Some(body),
            None => shelf.cell(slot),
        }
    }

    /// The place of a name in the directory of a library with this layer over it. Takes no memory.
    pub fn place(&self, shelf: &Shelf, name: &Ident) -> Option<usize>
        requires named { IsNamed self.now }
        requires fits { Fits shelf.now.cells (over_of self.now) }
        ensures { result ≡ place_of name.now (cell_names (cells_laid (over_of self.now) shelf.now.cells)) }
    {
        if let Some(place) = shelf.directory().place(name) {
            return Some(place as usize);
        }
        match self.added_place(name) {
            Some(place) => Some(shelf.cell_count() as usize + place),
            None => None,
        }
    }

    /// The number of cells added.
    pub fn count(&self) -> usize
        ensures value { result ≡ length (over_of self.now).added }
        ensures limit { result < 2 ^ 63 }
    {
        self.cells.len()
    }

    /// Shares the cell at a place of a library with this layer over it; a cell that the layer does not change is copied.
    pub fn share(
        &self,
        alloc: Global,
        shelf: &Shelf,
        slot: u32,
    ) -> Result<Option<Arc<CellBody>>, NoMemory>
        ensures { IfOk result (λ body. option_map arc_value body ≡ slice_get (cells_laid (over_of self.now) shelf.now.cells) slot) }
    {
        let count = shelf.cell_count();
        if slot >= count {
            return self.share_added(slot - count);
        }
        match self.changed.get(&slot) {
            Some(body) => Ok(Some(Arc::try_clone(body)?)),
            None => match shelf.cell(slot) {
                Some(body) => Ok(Some(Arc::new(alloc, body.copy(alloc)?)?)),
                None => Ok(None),
            },
        }
    }

    /// Shares a cell added, by its place among them.
    fn share_added(&self, place: u32) -> Result<Option<Arc<CellBody>>, NoMemory>
        ensures { IfOk result (λ body. option_map arc_value body ≡ slice_get (over_of self.now).added place) }
    {
        match self.cells.as_slice().get(place as usize) {
            Some(body) => Ok(Some(Arc::try_clone(body)?)),
            None => Ok(None),
        }
    }

    /// A layer that is equal, and shares the bodies.
    pub fn copy(&self, alloc: Global) -> Result<Layer, NoMemory>
        ensures { IfOk result (IsSameLayer self.now) }
    {
        let changed = self.changed.clone()?;
        let names = self.names.copy(alloc)?;
        let cells = shared(alloc, self.cells.as_slice())?;
        Ok(Layer {
            changed,
            names,
            cells,
        })
    }

    /// Puts another body in the place of a cell of the library.
    fn put_changed(&mut self, slot: u32, body: Arc<CellBody>) -> Result<(), NoMemory>
        ensures ok { OnOk result (HasChanged self.old self.new slot (arc_value body)) }
        ensures err { OnErr result (IsSameLayer self.old self.new) }
    {
        self.changed.insert(slot, body)?;
        Ok(())
    }

    /// Puts another body in the place of a cell added.
    fn put_added(&mut self, place: usize, body: Arc<CellBody>)
        requires { place < length (over_of self.old).added }
        ensures { HasAdded self.old self.new (slice_set (over_of self.old).added place (arc_value body)) self.old.names }
    {
        self.cells[place] = body;
    }

    /// Puts another body in the place of a cell of a library of this many cells with this layer over it.
    pub fn put(&mut self, count: u32, slot: u32, body: Arc<CellBody>) -> Result<(), NoMemory>
        requires { slot < count + length (over_of self.old).added }
        ensures ok { OnOk result (IsPut self.old self.new count slot (arc_value body)) }
        ensures err { OnErr result (IsSameLayer self.old self.new) }
    {
        if slot >= count {
            self.put_added((slot - count) as usize, body);
            return Ok(());
        }
        self.put_changed(slot, body)
    }

    /// Changes a cell of a library of this many cells in place, where this layer has a body for it that nobody else has.
    pub fn try_change(&mut self, count: u32, slot: u32, change: CellChange) -> Tried
        requires { (body : CellBody') → HasBody self.old count slot body → CanFit change body }
        ensures { IsTriedIn self.old self.new count slot change result }
    {
        if slot >= count {
            return try_added(&mut self.cells, (slot - count) as usize, change);
        }
        try_changed(&mut self.changed, slot, change)
    }

    /// Adds a cell behind the last, of a name that none of the cells added has.
    pub fn push(&mut self, alloc: Global, body: Arc<CellBody>) -> Result<(), NoMemory>
        requires { list_any (is_name (arc_value body).name.id) self.old.names ≡ false }
        ensures ok { OnOk result (HasAdded self.old self.new ((over_of self.old).added ++ arc_value body ∷ []) (self.old.names ++ (arc_value body).name.id ∷ [])) }
        ensures err { OnErr result (IsSameLayer self.old self.new) }
    {
        self.cells.reserve(1)?;
        self.names.add(alloc, &body.name.id)?;
        self.cells.push_reserved(body);
        Ok(())
    }

    /// Whether a name in the directory of a library with this layer over it is the same as this one when the case of ASCII
    /// letters is ignored.
    pub fn has_same(&self, shelf: &Shelf, name: &Ident) -> bool
        requires named { IsNamed self.now }
        requires fits { Fits shelf.now.cells (over_of self.now) }
        ensures { result ≡ list_any (λ other. is_same other name.now) (cell_names (cells_laid (over_of self.now) shelf.now.cells)) }
    {
        shelf.directory().has_same(name) || self.names.has_same(name)
    }

    /// Whether nothing is changed and nothing added.
    fn is_blank(&self) -> bool
        ensures { IsTrue result → IsBlank self.now }
    {
        self.changed.is_empty() && self.cells.is_empty()
    }

    /// The other bodies, by their places, which rise.
    fn entries(&self, alloc: Global) -> Result<Vec<Entry<CellBody>>, NoMemory>
        ensures pairs { IfOk result (λ entries. pairs_of entries.items ≡ changes_of self.now) }
        ensures ordered { IsOrdered nat_cmp self.now.changed }
    {
        let mut entries = Vec::with_capacity(alloc, self.changed.len())?;
        for (slot, body) in &self.changed {
            entries.push(Entry {
                slot: *slot,
                item: Arc::try_clone(body)?,
            })?;
        }
        Ok(entries)
    }

    /// The library with this layer over it. What the layer leaves is shared.
    pub fn laid(&self, alloc: Global, shelf: Arc<Shelf>) -> Result<Arc<Shelf>, NoMemory>
        requires fits { Fits (arc_value shelf).cells (over_of self.now) }
        requires few { length (cells_laid (over_of self.now) (arc_value shelf).cells) ≤ MOST_CELLS }
        requires distinct { AreDistinct (cell_names (cells_laid (over_of self.now) (arc_value shelf).cells)) }
        ensures { IfOk result (λ made. arc_value made ≡ record (arc_value shelf) { cells = cells_laid (over_of self.now) (arc_value shelf).cells }) }
    {
        if self.is_blank() {
            return Ok(shelf);
        }
        let entries = self.entries(alloc)?;
        let changed = shelf.with_changed(entries.as_slice())?;
        if self.count() == 0 {
            return Ok(Arc::new(alloc, changed)?);
        }
        Ok(Arc::new(alloc, changed.with_more(alloc, self.cells.as_slice())?)?)
    }
}

/// The same bodies, shared.
fn shared(alloc: Global, bodies: &[Arc<CellBody>]) -> Result<Vec<Arc<CellBody>>, NoMemory>
    ensures { IfOk result (λ made. map arc_value made.items ≡ map arc_value bodies.now) }
{
    let mut made = Vec::with_capacity(alloc, bodies.len())?;
    for body in bodies {
        made.push(Arc::try_clone(body)?)?;
    }
    Ok(made)
}

/// Layers of nothing.
pub(crate) fn empty_layers(alloc: Global, count: u32) -> Result<Vec<Layer>, NoMemory>
    ensures { IfOk result (λ layers. (vec_len layers ≡ count) × All IsEmpty layers.items) }
{
    let mut layers = Vec::with_capacity(alloc, count as usize)?;
    for _place in 0..count {
        layers.push(Layer::new(alloc))?;
    }
    Ok(layers)
}
