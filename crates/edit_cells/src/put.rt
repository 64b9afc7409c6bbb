//! Changes put into a design.
ghost use Rattle.std.specs.Prelude.{◌≡◌, [], ◌∷◌, MatchResult, None, OnErr, OnOk};
ghost use Rattle.netlist_schema.specs.Valid.{IsValid};
ghost use Rattle.edit_rules_spec.specs.Edit.{edited};
ghost use Rattle.edit_cells.specs.Change.{CanAllBeMade, CanBeMade, edits_of};

use crate::change::{CellChange, Change};
use crate::patch::patched;
use netlist_schema::{Design, NoMemory, Note, Row};
use std::alloc::Global;

/// The change, where it is the only one.
fn only(changes: Vec<CellChange>) -> Result<CellChange, Vec<CellChange>>
    ensures { MatchResult result (λ change. changes.items ≡ change ∷ []) (λ rest. rest.items ≡ changes.items) }
{
    let mut rest = changes;
    if rest.len() != 1 {
        return Err(rest);
    }
    match rest.pop() {
        Some(change) => Ok(change),
        None => Err(rest),
    }
}

/// Puts changes into a design, in a copy of its libraries.
fn put_copied(
    alloc: Global,
    design: &mut Design,
    cells: &[CellChange],
    notes: Option<Row<Note>>,
) -> Result<(), NoMemory>
    requires { IsValid (edited design.old (edits_of design.old (record { cells = cells.now; notes = notes }))) }
    ensures ok { OnOk result (design.new ≡ edited design.old (edits_of design.old (record { cells = cells.now; notes = notes }))) }
    ensures err { OnErr result (design.new ≡ design.old) }
{
    let libs = patched(alloc, design.libs(), cells)?;
    design.put(libs, notes);
    Ok(())
}

/// Puts one change into a design. A net or an instance goes in its place; for another change the libraries are copied.
fn put_one(alloc: Global, design: &mut Design, change: CellChange) -> Result<(), NoMemory>
    requires can { CanBeMade design.old change }
    requires valid { IsValid (edited design.old (edits_of design.old (record { cells = change ∷ []; notes = None }))) }
    ensures ok { OnOk result (design.new ≡ edited design.old (edits_of design.old (record { cells = change ∷ []; notes = None }))) }
    ensures err { OnErr result (design.new ≡ design.old) }
{
    match change {
        CellChange::Net { id, place, net } => design.put_net(id, place as usize, net),
        CellChange::Inst { id, place, inst } => design.put_inst(id, place as usize, inst),
        other => put_copied(alloc, design, &[other], None),
    }
}

/// Puts a change into a design. One net or one instance goes in its place; for another change the libraries are copied.
pub(crate) fn put_change(alloc: Global, design: &mut Design, change: Change) -> Result<(), NoMemory>
    requires can { CanAllBeMade design.old change.cells }
    requires valid { IsValid (edited design.old (edits_of design.old change)) }
    ensures ok { OnOk result (design.new ≡ edited design.old (edits_of design.old change)) }
    ensures err { OnErr result (design.new ≡ design.old) }
{
    let Change { cells, notes } = change;
    if notes.is_some() {
        return put_copied(alloc, design, cells.as_slice(), notes);
    }
    match only(cells.into_vec()) {
        Ok(one) => put_one(alloc, design, one),
        Err(more) => put_copied(alloc, design, more.as_slice(), None),
    }
}
