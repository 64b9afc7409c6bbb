//! The notes, and where their paths go through an instance.
ghost use Rattle.std.specs.Prelude.{◌≡◌, ◌++◌, [], ◌∷◌, IfOk, MatchResult, None, OnOk, Some, map, option_map};
ghost use Rattle.std.specs.Option.{option_copied};
ghost use Rattle.netlist_schema.specs.Design.{insts_in};
ghost use Rattle.netlist_schema.specs.declared.ids.Object.TheVariants.{Notes};
ghost use Rattle.edit_rules_spec.specs.Find.{inst_named};
ghost use Rattle.edit_rules_spec.specs.Reading.{IsForNotes, IsReached, IsReachedBy};
ghost use Rattle.edit_cells.specs.State.{HasRead, HasReadSome};
ghost use Rattle.eco_reads.specs.Named.{AreNamed};
ghost use Rattle.ungroup_op.specs.Crossing.{crossing, crossings, first_place, is_inst};
ghost use Rattle.ungroup_op.specs.Read.{AreRead};

use eco_reads::{Crossed, NamedInsts, inst_place};
use edit_cells::Cells;
use netlist_schema::{CellId, Contents, Copied, Ident, NoMemory, Note, Row};
use std::alloc::Global;

/// Notes, and for each the place of the step of its path that is an instance, if there is one.
#[derive(Debug, Drop)]
pub struct ReadNotes {
    pub notes: Row<Note>,
    pub places: Vec<Option<usize>>,
}

/// The cell of the instance with this name.
pub(crate) fn cell_of_inst(contents: Option<&Contents>, name: &Ident) -> Option<CellId>
    ensures { result ≡ option_map (λ inst. inst.of) (inst_named name.now (insts_in (option_copied contents.entry))) }
{
    let contents = contents?;
    let place = inst_place(&contents.insts, name)?;
    Some(contents.insts.at(place).of)
}

/// Whether a step is the instance of a cell.
fn is_inst(cell: CellId, inst: &Ident, at: CellId, step: &Ident) -> bool
    ensures { result ≡ is_inst cell inst.now at step.now }
{
    at.lib.0 == cell.lib.0 && at.slot == cell.slot && *step == *inst
}

/// The place that was found before, or else this one, where the step there is the instance.
fn first_place(found: Option<usize>, is_here: bool, place: usize) -> Option<usize>
    ensures { result ≡ first_place found is_here place }
{
    match found {
        Some(before) => Some(before),
        None => { if is_here { Some(place) } else { None } }
    }
}

/// Reads what is inside the cells that a path reaches, and answers the place of the first step that is the instance of a cell.
#[tactic(auto, using(eco_reads::proofs::NamedLemmas::still_named, eco_reads::proofs::NamedLemmas::named_still))]
fn crossing<C: Cells>(
    alloc: Global,
    cells: &mut C,
    named: &mut NamedInsts,
    crossed: &Crossed<'_>,
    path: &Row<Ident>,
) -> Result<Option<usize>, NoMemory>
    requires { AreNamed (C.state cells.old).design named.old }
    ensures named { AreNamed (C.state cells.old).design named.new }
    ensures found { IfOk result (λ found. found ≡ crossing (C.state cells.old).design crossed.now.cell crossed.now.inst.now crossed.now.top path.now) }
    ensures reads { MatchResult result (λ _. HasRead (C.state cells.old) (C.state cells.new) (IsReached (C.state cells.old).design crossed.now.top path.now)) (λ _. HasReadSome (C.state cells.old) (C.state cells.new)) }
{
    let mut at = crossed.top;
    let mut found = None;
    let _top = cells.contents(crossed.top)?;
    for (place, step) in path.as_slice().iter().enumerate() {
        found = first_place(found, is_inst(crossed.cell, crossed.inst, at, step), place);
        let Some(of) = named.next_cell(alloc, cells, at, step)? else {
            return Ok(found);
        };
        let _next = cells.contents(of)?;
        at = of;
    }
    Ok(found)
}

/// Adds the place for a note.
fn add_crossing<C: Cells>(
    alloc: Global,
    cells: &mut C,
    named: &mut NamedInsts,
    crossed: &Crossed<'_>,
    note: &Note,
    places: &mut Vec<Option<usize>>,
) -> Result<(), NoMemory>
    requires { AreNamed (C.state cells.old).design named.old }
    ensures named { AreNamed (C.state cells.old).design named.new }
    ensures places { OnOk result (places.new.items ≡ places.old.items ++ crossings (C.state cells.old).design crossed.now.cell crossed.now.inst.now crossed.now.top (note.now ∷ [])) }
    ensures reads { MatchResult result (λ _. HasRead (C.state cells.old) (C.state cells.new) (IsReached (C.state cells.old).design crossed.now.top note.now.path)) (λ _. HasReadSome (C.state cells.old) (C.state cells.new)) }
{
    let found = crossing(alloc, cells, named, crossed, &note.path)?;
    places.push(found)?;
    Ok(())
}

/// Reads what is inside the cells that the paths of notes reach, and answers the place for each.
fn list_crossings<C: Cells>(
    alloc: Global,
    cells: &mut C,
    cell: CellId,
    inst: &Ident,
    top: CellId,
    notes: &Row<Note>,
) -> Result<Vec<Option<usize>>, NoMemory>
    ensures places { IfOk result (λ places. places.items ≡ crossings (C.state cells.old).design cell inst.now top notes.now) }
    ensures reads { MatchResult result (λ _. HasRead (C.state cells.old) (C.state cells.new) (IsReachedBy (C.state cells.old).design top notes.now)) (λ _. HasReadSome (C.state cells.old) (C.state cells.new)) }
{
    let mut places = Vec::new(alloc);
    let mut named = NamedInsts::new(alloc);
    let crossed = Crossed { top, cell, inst };
    for note in notes.as_slice() {
        let Ok(()) = add_crossing(alloc, cells, &mut named, &crossed, note, &mut places) else {
            return Err(NoMemory);
        };
    }
    Ok(places)
}

/// So many notes without a place.
fn no_places(alloc: Global, notes: &Row<Note>) -> Result<Vec<Option<usize>>, NoMemory>
    ensures { IfOk result (λ places. places.items ≡ map (λ _. None) notes.now) }
{
    let mut places = Vec::new(alloc);
    for _note in notes.as_slice() {
        places.push(None)?;
    }
    Ok(places)
}

/// A copy of the notes.
fn copy_notes<C: Cells>(alloc: Global, cells: &mut C) -> Result<Row<Note>, NoMemory>
    ensures value { IfOk result (λ notes. notes ≡ (C.state cells.old).design.notes) }
    ensures reads { MatchResult result (λ _. HasRead (C.state cells.old) (C.state cells.new) (λ o. o ≡ Notes)) (λ _. HasReadSome (C.state cells.old) (C.state cells.new)) }
{
    cells.notes()?.copy(alloc)
}

/// Reads the notes, and what is inside the cells that their paths reach.
pub(crate) fn read_notes<C: Cells>(
    alloc: Global,
    cells: &mut C,
    cell: CellId,
    inst: &Ident,
) -> Result<ReadNotes, NoMemory>
    ensures notes { IfOk result (AreRead (C.state cells.old).design cell inst.now) }
    ensures reads { MatchResult result (λ _. HasRead (C.state cells.old) (C.state cells.new) (IsForNotes (C.state cells.old).design (Some cell) (C.state cells.old).design.top)) (λ _. HasReadSome (C.state cells.old) (C.state cells.new)) }
{
    let found = cells.top_cell();
    let notes = copy_notes(alloc, cells)?;
    let Some(top) = found else {
        let places = no_places(alloc, &notes)?;
        return Ok(ReadNotes { notes, places });
    };
    let places = list_crossings(alloc, cells, cell, inst, top, &notes)?;
    Ok(ReadNotes { notes, places })
}
