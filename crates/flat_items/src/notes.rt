//! `PlacedNotes`: which notes are for which occurrence.
ghost use Rattle.std.specs.Prelude.{◌≡◌, IfOk, OnOk};
ghost use Rattle.std.specs.List.{All};
ghost use Rattle.netlist_schema.specs.Hierarchy.{Resolves};
ghost use Rattle.netlist_schema.specs.Valid.{IsValid};
ghost use Rattle.flat_items.specs.Placed.{ArePlaced, IsAdded, places_in};

use crate::named::NamedPlaces;
use crate::steps::{Steps, steps_of};
use netlist_schema::{CellId, NoMemory, Shown};
use std::alloc::Global;
use std::collections::BTreeMap;

/// The notes of a design by the occurrences for which they are: for each of these the places of its notes among all, in order.
pub struct PlacedNotes {
    table: BTreeMap<Steps, Vec<u32>>,
}

impl Drop for PlacedNotes {
    fn drop(self) {
        let PlacedNotes { table: _ } = self;
    }
}

impl PlacedNotes {
    /// The notes of a design whose top has this cell. The one error is that an allocation was refused.
    ///
    /// It takes time and memory in proportion to the steps of the notes and to the instances of the cells at which they are, times
    /// the logarithms of these numbers.
    pub fn of<S: Shown>(alloc: Global, design: &S, top: CellId) -> Result<PlacedNotes, NoMemory>
        requires valid { IsValid (S.design design.now) }
        requires notes { All (λ note. Resolves (S.design design.now) top note.path) (S.design design.now).notes }
        ensures { IfOk result (ArePlaced (S.design design.now) top) }
    {
        let mut notes = PlacedNotes {
            table: BTreeMap::new(alloc),
        };
        let mut named = NamedPlaces::new(alloc);
        for (place, note) in design.notes().as_slice().iter().enumerate() {
            let steps = steps_of(alloc, design, top, note, &mut named)?;
            notes.add(alloc, steps, place as u32)?;
        }
        Ok(notes)
    }

    /// Adds a note for the occurrence at these steps.
    fn add(&mut self, alloc: Global, steps: Steps, place: u32) -> Result<(), NoMemory>
        ensures { OnOk result (IsAdded self.old steps place self.new) }
    {
        let mut places = match self.table.remove(&steps) {
            Some(places) => places,
            None => Vec::new(alloc),
        };
        places.push(place)?;
        self.table.insert(steps, places)?;
        Ok(())
    }

    /// The places of the notes for the occurrence at these steps, in order. It takes time in proportion to the steps times the logarithm
    /// of the number of notes, and no memory.
    #[inline(always)]
    pub fn find(&self, steps: &Steps) -> &[u32]
        ensures { result.now ≡ places_in self.now steps.now }
    {
        match self.table.get(steps) {
            Some(places) => places.as_slice(),
            None => &[],
        }
    }
}
