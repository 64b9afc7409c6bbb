//! The notes afterwards.
ghost use Rattle.std.specs.Prelude.{◌≡◌, ◌≤◌, ◌++◌, List, ℕ, IfOk, OnOk, Some, is_some, length, nat_eq, option_to_list, take};
ghost use Rattle.std.specs.Cmp.Lexicographic.{pointwise};
ghost use Rattle.std.specs.List.{list_any};
ghost use Rattle.edit_rules_spec.specs.Find.{inst_place};
ghost use Rattle.indexmap.specs.IndexMap.{get};
ghost use Rattle.netlist_schema.specs.Types.{Inst as InstType};
ghost use Rattle.netlist_schema.specs.declared.limits.TheConstants.{MOST_INSTS};
ghost use Rattle.ungroup_plans.specs.Moved.{new_id, note_moved, notes_moved, path_moved};

use eco_reads::places_by_name;
use indexmap::IndexMap;
use netlist_schema::{Copied, Each, Ident, Inst, Listed, NoMemory, Note, Parts, Row};
use std::alloc::Global;

/// The new identifier of a child: that of the instance now in its place.
fn new_id(
    alloc: Global,
    places: &IndexMap<Ident, u32>,
    children: &[Listed<Inst>],
    name: &Ident,
) -> Result<Ident, NoMemory>
    ensures { IfOk result (λ id. (within : List InstType) → ((q : List ℕ) → get (pointwise nat_eq) places.now q ≡ inst_place q within)
        → id ≡ new_id within children.now name.now) }
{
    let Some(place) = places.get(name).copied() else {
        return name.copy(alloc);
    };
    match children.get(place as usize) {
        Some(child) => child.name.id.copy(alloc),
        None => name.copy(alloc),
    }
}

/// Adds equal identifiers.
fn add_copies(alloc: Global, ids: &[Ident], made: &mut Vec<Ident>) -> Result<(), NoMemory>
    ensures { OnOk result (made.new.items ≡ made.old.items ++ ids.now) }
{
    for id in ids {
        made.push(id.copy(alloc)?)?;
    }
    Ok(())
}

/// The path with the step at a place and the one behind it as one step; none where the path ends there.
fn moved_path(
    alloc: Global,
    places: &IndexMap<Ident, u32>,
    children: &[Listed<Inst>],
    path: &[Ident],
    place: usize,
) -> Result<Option<Row<Ident>>, NoMemory>
    ensures { IfOk result (λ made. (within : List InstType) → ((q : List ℕ) → get (pointwise nat_eq) places.now q ≡ inst_place q within)
        → made ≡ path_moved within children.now (Some place) path.now) }
{
    if path.len() <= place || path.len() - place <= 1 {
        return Ok(None);
    }
    let mut made = Vec::new(alloc);
    add_copies(alloc, &path[..place], &mut made)?;
    made.push(new_id(alloc, places, children, &path[place + 1])?)?;
    add_copies(alloc, &path[place + 2..], &mut made)?;
    Ok(Some(Row::of(made)))
}

/// The note afterwards: none where its path ends at the instance.
fn moved_note(
    alloc: Global,
    places: &IndexMap<Ident, u32>,
    children: &[Listed<Inst>],
    note: &Note,
    place: Option<usize>,
) -> Result<Option<Note>, NoMemory>
    ensures { IfOk result (λ made. (within : List InstType) → ((q : List ℕ) → get (pointwise nat_eq) places.now q ≡ inst_place q within)
        → made ≡ note_moved within children.now note.now place) }
{
    let Some(place) = place else {
        return Ok(Some(note.copy(alloc)?));
    };
    match moved_path(alloc, places, children, note.path.as_slice(), place)? {
        Some(path) => Ok(Some(Note {
            path,
            property: note.property.copy(alloc)?,
        })),
        None => Ok(None),
    }
}

/// Adds the note afterwards, where there is one.
fn add_moved(
    alloc: Global,
    places: &IndexMap<Ident, u32>,
    children: &[Listed<Inst>],
    note: &Note,
    place: Option<usize>,
    made: &mut Vec<Note>,
) -> Result<(), NoMemory>
    ensures { OnOk result ((within : List InstType) → ((q : List ℕ) → get (pointwise nat_eq) places.now q ≡ inst_place q within)
        → made.new.items ≡ made.old.items ++ option_to_list (note_moved within children.now note.now place)) }
{
    match moved_note(alloc, places, children, note, place)? {
        Some(moved) => made.push(moved)?,
        None => {}
    }
    Ok(())
}

/// Whether there is a place.
fn has_place(places: &[Option<usize>]) -> bool
    ensures { result ≡ list_any is_some places.now }
{
    places.iter().any(|place| place.is_some())
}

/// The first so many of the instances, shared.
fn first_insts(
    alloc: Global,
    insts: Each<'_, Listed<Inst>>,
    count: usize,
) -> Result<Vec<Listed<Inst>>, NoMemory>
    ensures { IfOk result (λ made. made.items ≡ take count insts.entry) }
{
    let mut made = Vec::new(alloc);
    for inst in insts {
        if made.len() >= count {
            return Ok(made);
        }
        made.push(inst.share()?)?;
    }
    Ok(made)
}

/// The notes afterwards, where the path of one goes through the instance, in whose place the children stand first among those that are
/// given: for each note stands the place of the step that is the instance, if there is one. A note whose path ends there is gone; any other
/// path has that step and the one behind it as one.
pub(crate) fn moved_notes(
    alloc: Global,
    notes: &[Note],
    places: &[Option<usize>],
    within: &Parts<Listed<Inst>>,
    behind: Each<'_, Listed<Inst>>,
) -> Result<Option<Row<Note>>, NoMemory>
    requires few { length within.now ≤ MOST_INSTS }
    requires long { length places.now ≡ length notes.now }
    ensures { IfOk result (λ made. made ≡ notes_moved within.now (take (length within.now) behind.entry) notes.now places.now) }
{
    if !has_place(places) {
        return Ok(None);
    }
    let by_name = places_by_name(alloc, within)?;
    let kids = first_insts(alloc, behind, within.len())?;
    let children = kids.as_slice();
    let mut made = Vec::new(alloc);
    for (k, note) in notes.iter().enumerate() {
        add_moved(alloc, &by_name, children, note, places[k], &mut made)?;
    }
    Ok(Some(Row::of(made)))
}
