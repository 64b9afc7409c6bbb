//! `Marks`: objects that were read or written.
ghost use Rattle.std.specs.Prelude.{◌≡◌, ◌⊎◌, [], length, take, ◌↔◌, IsTrue, MatchResult};
ghost use Rattle.std.specs.List.{Contains};
ghost use Rattle.netlist_schema.specs.Design.{Design};
ghost use Rattle.netlist_schema.specs.Names.{AreDistinct};
ghost use Rattle.netlist_schema.specs.declared.ids.Object.TheVariants.{Notes};
ghost use Rattle.edit_rules_spec.specs.Edit.{IsChanged, IsChangedBy};
ghost use Rattle.edit_rules_spec.specs.Objects.{IsPrefix};
ghost use Rattle.edit_cells.specs.Change.{cell_edits, edit_of, edits_of};
ghost use Rattle.edit_cells.specs.State.{GrowsBy};
ghost use Rattle.edit_cells.specs.Marks.{IsPlaced};

use crate::change::{CellChange, Change};
use crate::parts::{contents_object, face_object};
use netlist_schema::{NoMemory, Object, Row};
use std::alloc::Global;
use std::collections::BTreeMap;
use std::marker::Model;

/// A list of objects, each once, with a place for each, so that an object is found in it without a walk. Contracts see the
/// list.
pub struct Marks {
    list: Row<Object>,
    places: BTreeMap<Object, u64>,
}

impl Drop for Marks {
    fn drop(self) {
        let Marks { list: _, places: _ } = self;
    }
}

impl Model for Marks {
    ghost use Rattle.std.specs.Prelude.{List};
    ghost use Rattle.netlist_schema.specs.Types.{Object as Object'};

    ghost Value = { List Object' };

    ghost view = { λ m. m.list };

    ghost use Rattle.edit_cells.specs.Marks.{IsPlaced};

    ghost invariant = { λ m. IsPlaced m.list m.places };
}

impl Marks {
    /// No object. Takes no memory.
    pub fn new(alloc: Global) -> Marks
        ensures { result ≡ [] }
    {
        Marks {
            list: Row::of(Vec::new(alloc)),
            places: BTreeMap::new(alloc),
        }
    }

    /// Lends the list. No object stands in it twice.
    pub fn row(&self) -> &Row<Object>
        ensures value { result.now ≡ self.now }
        ensures distinct { AreDistinct self.now }
    {
        &self.list
    }

    /// The number of objects.
    pub fn count(&self) -> usize
        ensures { result ≡ length self.now }
    {
        self.list.as_slice().len()
    }

    /// Cuts the list back to its first `count` objects, where there are more. It costs what is cut off.
    pub fn cut(&mut self, count: usize)
        ensures { self.new ≡ take count self.old }
    {
        forget(&mut self.places, self.list.as_slice(), count);
        self.list.cut(count);
    }

    /// Adds an object, where the list does not have it. Where memory is refused, the list stays.
    pub fn add(&mut self, object: Object) -> Result<(), NoMemory>
        ensures { MatchResult result (λ _. GrowsBy self.old self.new (λ o. o ≡ object)) (λ _. self.new ≡ self.old) }
    {
        if self.has(object) {
            return Ok(());
        }
        let place = self.count();
        self.list.push(object)?;
        match self.places.insert(object, place as u64) {
            Ok(_) => Ok(()),
            Err(_) => {
                self.list.cut(place);
                Err(NoMemory)
            }
        }
    }

    /// Whether the list has an object.
    fn has(&self, object: Object) -> bool
        ensures { IsTrue result ↔ Contains self.now object }
    {
        match self.places.get(&object) {
            Some(_place) => true,
            None => false,
        }
    }

    /// Adds two objects, or none.
    pub fn add_two(&mut self, first: Object, second: Object) -> Result<(), NoMemory>
        ensures { MatchResult result (λ _. GrowsBy self.old self.new (λ o. (o ≡ first) ⊎ (o ≡ second))) (λ _. self.new ≡ self.old) }
    {
        let before = self.count();
        self.add(first)?;
        match self.add(second) {
            Ok(()) => Ok(()),
            Err(refused) => {
                self.cut(before);
                Err(refused)
            }
        }
    }

    /// Adds the objects that a change writes, or none.
    pub fn add_written(&mut self, change: &Change) -> Result<(), NoMemory>
        ensures { MatchResult result (λ _. (d : Design) → GrowsBy self.old self.new (IsChanged (edits_of d change.now))) (λ _. self.new ≡ self.old) }
    {
        let before = self.count();
        match self.add_all(change) {
            Ok(()) => Ok(()),
            Err(refused) => {
                self.cut(before);
                Err(refused)
            }
        }
    }

    /// Adds the objects that a change writes. Where memory is refused, the list may have gone on.
    fn add_all(&mut self, change: &Change) -> Result<(), NoMemory>
        ensures { MatchResult result (λ _. (d : Design) → GrowsBy self.old self.new (IsChanged (edits_of d change.now))) (λ _. IsPrefix self.old self.new) }
    {
        self.add_changes(&change.cells)?;
        match &change.notes {
            Some(_) => self.add_notes(),
            None => Ok(()),
        }
    }

    /// Adds the objects that changes of cells write. Where memory is refused, the list may have gone on.
    fn add_changes(&mut self, changes: &Row<CellChange>) -> Result<(), NoMemory>
        ensures { MatchResult result (λ _. (d : Design) → GrowsBy self.old self.new (IsChanged (cell_edits d changes.now))) (λ _. IsPrefix self.old self.new) }
    {
        for change in changes.as_slice() {
            self.add_change(change)?;
        }
        Ok(())
    }

    /// Adds the objects that a change of a cell writes. Where memory is refused, the list may have gone on.
    #[tactic(auto, using(crate::proofs::Growing::grows_twice, crate::proofs::Growing::prefix_twice))]
    fn add_change(&mut self, change: &CellChange) -> Result<(), NoMemory>
        ensures { MatchResult result (λ _. (d : Design) → GrowsBy self.old self.new (IsChangedBy (edit_of d change.now))) (λ _. IsPrefix self.old self.new) }
    {
        match change {
            CellChange::Fresh { id, .. } => {
                self.add(Object::Directory(id.lib))?;
                self.add_two(face_object(*id), contents_object(*id))
            }
            CellChange::Face { id, .. } => self.add(face_object(*id)),
            CellChange::Inner { id, .. } => self.add(contents_object(*id)),
            CellChange::Net { id, .. } => self.add(contents_object(*id)),
            CellChange::Inst { id, .. } => self.add(contents_object(*id)),
        }
    }

    /// Adds the notes. Where memory is refused, the list stays.
    fn add_notes(&mut self) -> Result<(), NoMemory>
        ensures { MatchResult result (λ _. GrowsBy self.old self.new (λ o. o ≡ Notes)) (λ _. IsPrefix self.old self.new) }
    {
        self.add(Object::Notes)
    }
}

/// Takes the places of the objects from a first one on away.
fn forget(places: &mut BTreeMap<Object, u64>, list: &[Object], first: usize)
    requires { IsPlaced list.now places.old }
    ensures { IsPlaced (take first list.now) places.new }
{
    for place in first..list.len() {
        places.remove(&list[place]);
    }
}
