//! Notes that are planned.
ghost use Rattle.edit_spec.specs.SetNote.{note_set};
ghost use Rattle.edit_spec.specs.DropNote.{note_dropped, no_note_dropped};
ghost use Rattle.std.specs.Prelude.{◌≡◌, ◌<◌, ◌&&◌, IfSome, length, nat_eq, position};
ghost use Rattle.std.specs.Cmp.Lexicographic.{pointwise};
ghost use Rattle.edit_rules_spec.specs.Find.{is_name};
ghost use Rattle.edit_rules_spec.specs.Rule.{first};
ghost use Rattle.edit_rules_spec.specs.Notes.{note_place};
ghost use Rattle.eco_reads.specs.Outcome.{UnlessNoMemory};
ghost use Rattle.eco_reads.specs.Plan.{AreNotesPlanned};
ghost use Rattle.eco_plans.specs.Notes.{no_note_set};

use eco_reads::OpError;
use edit_spec::Reply;
use netlist_schema::{Copied, Ident, MOST_NOTES, Note, Property, Row};
use std::alloc::Global;

/// Whether two paths are equal.
fn is_same_path(a: &Row<Ident>, b: &Row<Ident>) -> bool
    ensures { result ≡ pointwise (pointwise nat_eq) a.now b.now }
{
    *a == *b
}

/// Whether a note has this path and key.
fn is_note(note: &Note, path: &Row<Ident>, key: &Ident) -> bool
    ensures { result ≡ (pointwise (pointwise nat_eq) note.now.path path.now && is_name note.now.property.key.id key.now) }
{
    is_same_path(&note.path, path) && note.property.key.id == *key
}

/// The place of the note of this path and key.
fn note_place(notes: &Row<Note>, path: &Row<Ident>, key: &Ident) -> Option<usize>
    ensures value { result ≡ note_place path.now key.now notes.now }
    ensures within { IfSome result (λ place. place < length notes.now) }
{
    note_position(notes, path, key)
}

fn note_position(notes: &Row<Note>, path: &Row<Ident>, key: &Ident) -> Option<usize>
    ensures { result ≡ position (λ note. pointwise (pointwise nat_eq) note.path path.now && is_name note.property.key.id key.now) notes.now }
{
    notes
        .as_slice()
        .iter()
        .position(|note| is_note(note, path, key))
}

/// The notes with one set, in place of that of equal path and key, else at the end; or why there are none.
#[tactic(auto, using(crate::proofs::NotesPlanned::no_path, crate::proofs::NotesPlanned::full_notes, crate::proofs::NotesPlanned::replaced_note, crate::proofs::NotesPlanned::added_note))]
pub(crate) fn with_note(
    alloc: Global,
    notes: &Row<Note>,
    path: &Row<Ident>,
    property: &Property,
    leads: bool,
) -> Result<Row<Note>, OpError>
    ensures { UnlessNoMemory (AreNotesPlanned (first (no_note_set leads notes.now path.now property.now)) (note_set notes.now path.now property.now)) result }
{
    if path.as_slice().is_empty() || !leads {
        return Err(OpError::Refused(Reply::NoPath));
    }
    let note = Note {
        path: path.copy(alloc)?,
        property: property.copy(alloc)?,
    };
    match note_place(notes, path, &property.key.id) {
        Some(place) => {
            let mut made = notes.copy(alloc)?;
            made.set(place, note);
            Ok(made)
        }
        None => {
            if notes.as_slice().len() >= MOST_NOTES {
                return Err(OpError::Refused(Reply::TooMany {
                    limit: MOST_NOTES as u64,
                }));
            }
            let mut made = notes.copy(alloc)?;
            made.push(note)?;
            Ok(made)
        }
    }
}

/// The notes without that of a path and a key; or why there are none.
#[tactic(auto, using(crate::proofs::NotesPlanned::no_such_note, crate::proofs::NotesPlanned::dropped_note))]
pub(crate) fn without_note(
    alloc: Global,
    notes: &Row<Note>,
    path: &Row<Ident>,
    key: &Ident,
) -> Result<Row<Note>, OpError>
    ensures { UnlessNoMemory (AreNotesPlanned (first (no_note_dropped notes.now path.now key.now)) (note_dropped notes.now path.now key.now)) result }
{
    let Some(place) = note_place(notes, path, key) else {
        return Err(OpError::Refused(Reply::NoNote));
    };
    let mut made = notes.copy(alloc)?.into_vec();
    let _gone = made.remove(place);
    Ok(Row::of(made))
}
