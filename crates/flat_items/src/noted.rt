//! The properties of notes.
ghost use Rattle.std.specs.Prelude.{◌≡◌, ◌++◌, ◌∷◌, [], IfOk, OnOk, slice_get};
ghost use Rattle.std.specs.Option.{option_copied};
ghost use Rattle.annot_view.specs.Lent.{lent};
ghost use Rattle.flat_items.specs.Placed.{properties_at};

use netlist_schema::{NoMemory, Note, Property};
use std::alloc::Global;

/// The note with that place.
fn note_at(notes: &[Note], place: u32) -> Option<&Note>
    ensures { option_copied result ≡ slice_get notes.now place }
{
    notes.get(place as usize)
}

/// Adds the property of the note with that place.
fn add_noted<'a>(
    notes: &'a [Note],
    place: u32,
    found: &mut Vec<&'a Property>,
) -> Result<(), NoMemory>
    ensures { OnOk result (lent found.new.items ≡ lent found.old.items ++ properties_at notes.now (place ∷ [])) }
{
    let Some(note) = note_at(notes, place) else {
        return Ok(());
    };
    found.push(&note.property)?;
    Ok(())
}

/// The properties of the notes at these places.
pub(crate) fn noted<'a>(
    alloc: Global,
    notes: &'a [Note],
    places: &[u32],
) -> Result<Vec<&'a Property>, NoMemory>
    ensures { IfOk result (λ found. lent found.items ≡ properties_at notes.now places.now) }
{
    let mut found = Vec::new(alloc);
    for place in places {
        add_noted(notes, *place, &mut found)?;
    }
    Ok(found)
}
