//! Operations on instances.
ghost use Rattle.std.specs.Prelude.{◌≡◌, ◌++◌, [], ◌∷◌, Bool, cond, filter, length, map, not, OnOk, IfOk, MatchResult, Some, option_map, option_to_list};
ghost use Rattle.std.specs.List.{list_all};
ghost use Rattle.edit_rules_spec.specs.Paths.{goes_through};
ghost use Rattle.netlist_schema.specs.Types.{Note as Note'};
ghost use Rattle.netlist_schema.specs.declared.ids.Object.TheVariants.{Notes};
ghost use Rattle.edit_rules_spec.specs.Edit.{noted};
ghost use Rattle.edit_rules_spec.specs.Reading.{IsForNotes, IsReached, IsReachedBy};
ghost use Rattle.edit_spec.specs.DropInst.{set_notes, without_inst};
ghost use Rattle.edit_rules_spec.specs.Notes.{other_notes};
ghost use Rattle.edit_spec.specs.Typed.{IsTypedOp};
ghost use Rattle.edit_cells.specs.State.{HasRead, HasReadSome};
ghost use Rattle.eco_reads.specs.Outcome.{IsDoneOrRefused};
ghost use Rattle.eco_reads.specs.Named.{AreNamed};
ghost use Rattle.eco_ops.specs.Insts.{is_other};

use crate::inst_plans::{plan_inst, without_inst};
use eco_reads::{
    Crossed, NamedInsts, OpError, find_named, goes_through, put_plan, reaches, read_named,
};
use edit_cells::Cells;
use edit_spec::{CellName, Op, Reply};
use netlist_schema::{CellId, Copied, Ident, NoMemory, Note, Row};
use std::alloc::Global;

/// Adds an instance of a cell.
pub(crate) fn add_inst<C: Cells>(
    alloc: Global,
    cells: &mut C,
    name: &CellName,
    inst: &Ident,
    of: &CellName,
) -> Result<Reply, OpError>
    requires { IsTypedOp (Op.AddInst name.now inst.now of.now) }
    ensures { IsDoneOrRefused result (C.state cells.old) (C.state cells.new) (Op.AddInst name.now inst.now of.now) }
{
    let holder = find_named(cells, name)?;
    let placed = find_named(cells, of)?;
    let id = match holder {
        Ok(id) => id,
        Err(refusal) => return Err(OpError::Refused(refusal)),
    };
    let of = match placed {
        Ok(of) => of,
        Err(refusal) => return Err(OpError::Refused(refusal)),
    };
    let cyclic = reaches(alloc, cells, of, id)?;
    let later = id.lib.0 < of.lib.0;
    let plan = plan_inst(alloc, cells.contents(id)?, inst, of, later, cyclic)?;
    put_plan(alloc, cells, id, plan, None)
}

/// The paths of notes.
fn paths_of(alloc: Global, notes: &Row<Note>) -> Result<Vec<Row<Ident>>, NoMemory>
    ensures { IfOk result (λ paths. paths.items ≡ map (λ note. note.path) notes.now) }
{
    let mut paths = Vec::new(alloc);
    for note in notes.as_slice() {
        paths.push(note.path.copy(alloc)?)?;
    }
    Ok(paths)
}

/// Reads the notes, and gives their paths.
fn read_paths<C: Cells>(alloc: Global, cells: &mut C) -> Result<Vec<Row<Ident>>, NoMemory>
    ensures value { IfOk result (λ paths. paths.items ≡ map (λ note. note.path) (C.state cells.old).design.notes) }
    ensures reads { MatchResult result (λ _. HasRead (C.state cells.old) (C.state cells.new) (λ o. o ≡ Notes)) (λ _. HasReadSome (C.state cells.old) (C.state cells.new)) }
{
    paths_of(alloc, cells.notes()?)
}

/// Puts on a list whether a path does not go through an instance.
fn tell_other<C: Cells>(
    alloc: Global,
    cells: &mut C,
    named: &mut NamedInsts,
    crossed: &Crossed<'_>,
    path: &Row<Ident>,
    others: &mut Vec<bool>,
) -> Result<(), NoMemory>
    requires { AreNamed (C.state cells.old).design named.old }
    ensures named { AreNamed (C.state cells.old).design named.new }
    ensures told { OnOk result (others.new.items ≡ others.old.items ++ not (goes_through (C.state cells.old).design crossed.now.cell crossed.now.inst.now crossed.now.top path.now) ∷ []) }
    ensures reads { MatchResult result (λ _. HasRead (C.state cells.old) (C.state cells.new) (IsReached (C.state cells.old).design crossed.now.top path.now)) (λ _. HasReadSome (C.state cells.old) (C.state cells.new)) }
{
    let gone = goes_through(alloc, cells, named, crossed, path)?;
    others.push(!gone)?;
    Ok(())
}

/// For each note, by its path, whether it does not go through an instance.
fn list_others<C: Cells>(
    alloc: Global,
    cells: &mut C,
    id: CellId,
    inst: &Ident,
    top: CellId,
    paths: &[Row<Ident>],
) -> Result<Vec<bool>, NoMemory>
    requires { paths.now ≡ map (λ note. note.path) (C.state cells.old).design.notes }
    ensures told { IfOk result (λ others. others.items ≡ map (is_other (C.state cells.old).design id inst.now top) (C.state cells.old).design.notes) }
    ensures reads { MatchResult result (λ _. HasRead (C.state cells.old) (C.state cells.new) (IsReachedBy (C.state cells.old).design top (C.state cells.old).design.notes)) (λ _. HasReadSome (C.state cells.old) (C.state cells.new)) }
{
    let mut others = Vec::new(alloc);
    let mut named = NamedInsts::new(alloc);
    let crossed = Crossed {
        top,
        cell: id,
        inst,
    };
    for path in paths {
        let Ok(()) = tell_other(alloc, cells, &mut named, &crossed, path, &mut others) else {
            return Err(NoMemory);
        };
    }
    Ok(others)
}

/// Whether all are told to stay.
fn all_stay(others: &[bool]) -> bool
    ensures { result ≡ list_all (λ stays. stays) others.now }
{
    others.iter().all(|stays| *stays)
}

/// Adds a copy of a note, where it stays.
fn add_left(alloc: Global, left: &mut Vec<Note>, note: &Note, stays: bool) -> Result<(), NoMemory>
    ensures { OnOk result (left.new.items ≡ left.old.items ++ cond stays (note.now ∷ []) []) }
{
    if stays {
        left.push(note.copy(alloc)?)?;
    }
    Ok(())
}

/// Copies of the notes that are told to stay.
fn left_notes(alloc: Global, notes: &Row<Note>, others: &[bool]) -> Result<Vec<Note>, NoMemory>
    requires { length others.now ≡ length notes.now }
    ensures { IfOk result (λ left. (keep : Note' → Bool) → others.now ≡ map keep notes.now → left.items ≡ filter keep notes.now) }
{
    let items = notes.as_slice();
    let mut left = Vec::new(alloc);
    for place in 0..items.len() {
        add_left(alloc, &mut left, &items[place], others[place])?;
    }
    Ok(left)
}

/// Reads the notes, and gives copies of those that are told to stay.
fn read_left<C: Cells>(alloc: Global, cells: &mut C, others: &[bool]) -> Result<Vec<Note>, NoMemory>
    requires { length others.now ≡ length (C.state cells.old).design.notes }
    ensures value { IfOk result (λ left. (keep : Note' → Bool) → others.now ≡ map keep (C.state cells.old).design.notes → left.items ≡ filter keep (C.state cells.old).design.notes) }
    ensures reads { MatchResult result (λ _. HasRead (C.state cells.old) (C.state cells.new) (λ o. o ≡ Notes)) (λ _. HasReadSome (C.state cells.old) (C.state cells.new)) }
{
    left_notes(alloc, cells.notes()?, others)
}

/// The notes whose paths do not go through an instance, where they are fewer. Where none goes through it, only the paths of the
/// notes are copied.
fn other_notes<C: Cells>(
    alloc: Global,
    cells: &mut C,
    id: CellId,
    inst: &Ident,
) -> Result<Option<Row<Note>>, NoMemory>
    ensures notes { IfOk result (λ made. let d = (C.state cells.old).design in set_notes d.notes (other_notes d (Some id) inst.now) ≡ option_to_list (option_map noted made)) }
    ensures reads { MatchResult result (λ _. HasRead (C.state cells.old) (C.state cells.new) (IsForNotes (C.state cells.old).design (Some id) (C.state cells.old).design.top)) (λ _. HasReadSome (C.state cells.old) (C.state cells.new)) }
{
    let found = cells.top_cell();
    let paths = read_paths(alloc, cells)?;
    let Some(top) = found else {
        return Ok(None);
    };
    let others = list_others(alloc, cells, id, inst, top, paths.as_slice())?;
    if all_stay(others.as_slice()) {
        return Ok(None);
    }
    let Ok(left) = read_left(alloc, cells, others.as_slice()) else {
        return Err(NoMemory);
    };
    if left.len() == others.len() {
        return Ok(None);
    }
    Ok(Some(Row::of(left)))
}

/// Removes an instance, its ends, and each note whose path goes through it or ends at it.
pub(crate) fn drop_inst<C: Cells>(
    alloc: Global,
    cells: &mut C,
    name: &CellName,
    inst: &Ident,
) -> Result<Reply, OpError>
    ensures { IsDoneOrRefused result (C.state cells.old) (C.state cells.new) (Op.DropInst name.now inst.now) }
{
    let id = read_named(cells, name)?;
    let others = other_notes(alloc, cells, id, inst)?;
    let plan = without_inst(alloc, cells.contents(id)?, inst)?;
    put_plan(alloc, cells, id, plan, others)
}
