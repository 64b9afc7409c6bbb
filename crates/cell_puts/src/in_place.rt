//! Changes put into a design, each cell in its place.
ghost use Rattle.std.specs.Prelude.{◌≡◌, [], ◌∷◌, IfOk, IsTrue, MatchResult, None, OnErr, OnOk, unwrap_or};
ghost use Rattle.netlist_schema.specs.Valid.{IsValid};
ghost use Rattle.edit_rules_spec.specs.Edit.{changed_at, edited, with_contents, with_properties};
ghost use Rattle.edit_cells.specs.Change.{CanAllBeMade, CanBeMade, edits_of};
ghost use Rattle.edit_cells.specs.Patch.{cells_after, lib_after, place_of};
ghost use Rattle.cell_puts.specs.Whole.{IsWhole};

use edit_cells::{CellChange, Change, patched};
use netlist_schema::{
    CellBody, Contents, Copied, Design, Lib, Name, NoMemory, Note, Property, Row, Shared, Shown,
    TopHead, design_is_valid,
};
use std::alloc::Global;

/// Gives the cell at a place other properties, where there is one.
#[tactic(auto, using(edit_cells::proofs::Patches::changed_at_end, edit_cells::proofs::Patches::changed_at_place))]
fn set_properties(bodies: &mut Vec<CellBody>, slot: u32, properties: Row<Property>)
    ensures { bodies.new.items ≡ changed_at (with_properties properties) slot bodies.old.items }
{
    let slot = slot as usize;
    if slot < bodies.len() {
        bodies[slot].properties = properties;
    }
}

/// Gives a cell other contents, where it has any. Where memory is refused, it stays.
fn set_inside(alloc: Global, body: &mut CellBody, contents: Contents) -> Result<(), NoMemory>
    ensures ok { OnOk result (body.new ≡ with_contents contents body.old) }
    ensures err { OnErr result (body.new ≡ body.old) }
{
    if body.contents.is_none() {
        return Ok(());
    }
    body.contents = Some(Shared::of(alloc, contents)?);
    Ok(())
}

/// The same for the cell at a place, where there is one.
#[tactic(auto, using(edit_cells::proofs::Patches::changed_at_end, edit_cells::proofs::Patches::changed_at_place))]
fn set_contents(
    alloc: Global,
    bodies: &mut Vec<CellBody>,
    slot: u32,
    contents: Contents,
) -> Result<(), NoMemory>
    ensures ok { OnOk result (bodies.new.items ≡ changed_at (with_contents contents) slot bodies.old.items) }
    ensures err { OnErr result (bodies.new.items ≡ bodies.old.items) }
{
    let slot = slot as usize;
    if slot >= bodies.len() {
        return Ok(());
    }
    set_inside(alloc, &mut bodies[slot], contents)
}

/// Adds a cell, or changes one. Where memory is refused, the cells stay.
fn change_bodies(
    alloc: Global,
    bodies: &mut Vec<CellBody>,
    change: CellChange,
) -> Result<(), NoMemory>
    requires { IsWhole change }
    ensures ok { OnOk result (bodies.new.items ≡ cells_after change bodies.old.items) }
    ensures err { OnErr result (bodies.new.items ≡ bodies.old.items) }
{
    match change {
        CellChange::Fresh { id: _, body } => match bodies.push(body) {
            Ok(()) => Ok(()),
            Err(_) => Err(NoMemory),
        },
        CellChange::Face { id, properties } => {
            set_properties(bodies, id.slot, properties);
            Ok(())
        }
        CellChange::Inner { id, contents } => set_contents(alloc, bodies, id.slot, contents),
        _ => unreachable!(),
    }
}

/// The same in a library. No other cell is copied.
fn change_lib(alloc: Global, lib: &mut Lib, change: CellChange) -> Result<(), NoMemory>
    requires { IsWhole change }
    ensures ok { OnOk result (lib.new ≡ lib_after change lib.old) }
    ensures err { OnErr result (lib.new ≡ lib.old) }
{
    let mut bodies = std::mem::replace(&mut lib.cells, Row::of(Vec::new(alloc))).into_vec();
    let done = change_bodies(alloc, &mut bodies, change);
    lib.cells = Row::of(bodies);
    done
}

/// The place of the library of a change.
fn place(change: &CellChange) -> usize
    ensures { result ≡ place_of change.now }
{
    match change {
        CellChange::Fresh { id, .. } => id.lib.0 as usize,
        CellChange::Face { id, .. } => id.lib.0 as usize,
        CellChange::Inner { id, .. } => id.lib.0 as usize,
        CellChange::Net { id, .. } => id.lib.0 as usize,
        CellChange::Inst { id, .. } => id.lib.0 as usize,
    }
}

/// The same in the library of the change, where there is one.
#[tactic(auto, using(edit_cells::proofs::Patches::changed_at_end, edit_cells::proofs::Patches::changed_at_place))]
fn change_libs(alloc: Global, libs: &mut Vec<Lib>, change: CellChange) -> Result<(), NoMemory>
    requires { IsWhole change }
    ensures ok { OnOk result (libs.new.items ≡ changed_at (lib_after change) (place_of change) libs.old.items) }
    ensures err { OnErr result (libs.new.items ≡ libs.old.items) }
{
    let place = place(&change);
    if place >= libs.len() {
        return Ok(());
    }
    change_lib(alloc, &mut libs[place], change)
}

/// A design with the title of another, and nothing else.
fn titled(alloc: Global, design: &Design) -> Result<Design, NoMemory>
    ensures { IfOk result (λ made. made ≡ record { title = design.now.title; libs = []; top = None; notes = [] }) }
{
    design_is_valid(design);
    let title = design.title().copy(alloc)?;
    Ok(Design::of(
        title,
        Row::of(Vec::new(alloc)),
        None,
        Row::of(Vec::new(alloc)),
    ))
}

/// The notes that are given, else the others.
fn given_or(given: Option<Row<Note>>, others: Row<Note>) -> Row<Note>
    ensures { result ≡ unwrap_or given others }
{
    match given {
        Some(notes) => notes,
        None => others,
    }
}

/// Puts a design of these parts in place.
fn put_parts(
    design: &mut Design,
    title: Name,
    libs: Vec<Lib>,
    top: Option<TopHead>,
    notes: Row<Note>,
)
    requires { IsValid (record { title = title; libs = libs.items; top = top; notes = notes }) }
    ensures { design.new ≡ record { title = title; libs = libs.items; top = top; notes = notes } }
{
    *design = Design::of(title, Row::of(libs), top, notes);
}

/// Adds a cell to a design, or changes one, and puts other notes where they are given. No other cell is copied.
fn put_whole(
    alloc: Global,
    design: &mut Design,
    change: CellChange,
    notes: Option<Row<Note>>,
) -> Result<(), NoMemory>
    requires whole { IsWhole change }
    requires valid { IsValid (edited design.old (edits_of design.old (record { cells = change ∷ []; notes = notes }))) }
    ensures ok { OnOk result (design.new ≡ edited design.old (edits_of design.old (record { cells = change ∷ []; notes = notes }))) }
    ensures err { OnErr result (design.new ≡ design.old) }
{
    let spare = titled(alloc, design)?;
    let (title, libs, top, old) = std::mem::replace(design, spare).into_parts();
    let mut libs = libs.into_vec();
    match change_libs(alloc, &mut libs, change) {
        Ok(()) => {
            put_parts(design, title, libs, top, given_or(notes, old));
            Ok(())
        }
        Err(refused) => {
            put_parts(design, title, libs, top, old);
            Err(refused)
        }
    }
}

/// Puts other notes into a design, where they are given. No cell is copied.
fn put_notes(alloc: Global, design: &mut Design, notes: Option<Row<Note>>) -> Result<(), NoMemory>
    requires { IsValid (edited design.old (edits_of design.old (record { cells = []; notes = notes }))) }
    ensures ok { OnOk result (design.new ≡ edited design.old (edits_of design.old (record { cells = []; notes = notes }))) }
    ensures err { OnErr result (design.new ≡ design.old) }
{
    let spare = titled(alloc, design)?;
    let (title, libs, top, old) = std::mem::replace(design, spare).into_parts();
    *design = Design::of(title, libs, top, given_or(notes, old));
    Ok(())
}

/// Whether a change adds a cell, or gives one other properties or other contents.
fn is_whole(change: &CellChange) -> bool
    ensures { IsTrue result → IsWhole change.now }
{
    match change {
        CellChange::Fresh { .. } => true,
        CellChange::Face { .. } => true,
        CellChange::Inner { .. } => true,
        _ => false,
    }
}

/// Puts one change into a design, in its place.
fn put_one(alloc: Global, design: &mut Design, change: CellChange) -> Result<(), NoMemory>
    requires can { CanBeMade design.old change }
    requires valid { IsValid (edited design.old (edits_of design.old (record { cells = change ∷ []; notes = None }))) }
    ensures ok { OnOk result (design.new ≡ edited design.old (edits_of design.old (record { cells = change ∷ []; notes = None }))) }
    ensures err { OnErr result (design.new ≡ design.old) }
{
    match change {
        CellChange::Net { id, place, net } => design.put_net(id, place as usize, net),
        CellChange::Inst { id, place, inst } => design.put_inst(id, place as usize, inst),
        other => put_whole(alloc, design, other, None),
    }
}

/// The change, where it is the only one.
fn only(changes: Vec<CellChange>) -> Result<CellChange, Vec<CellChange>>
    ensures { MatchResult result (λ change. changes.items ≡ change ∷ []) (λ rest. rest.items ≡ changes.items) }
{
    let mut rest = changes;
    if rest.len() != 1 {
        return Err(rest);
    }
    match rest.pop() {
        Some(change) => Ok(change),
        None => Err(rest),
    }
}

/// Puts changes into a design, in a copy of its libraries.
fn put_copied(
    alloc: Global,
    design: &mut Design,
    cells: &[CellChange],
    notes: Option<Row<Note>>,
) -> Result<(), NoMemory>
    requires { IsValid (edited design.old (edits_of design.old (record { cells = cells.now; notes = notes }))) }
    ensures ok { OnOk result (design.new ≡ edited design.old (edits_of design.old (record { cells = cells.now; notes = notes }))) }
    ensures err { OnErr result (design.new ≡ design.old) }
{
    let libs = patched(alloc, design.libs(), cells)?;
    design.put(libs, notes);
    Ok(())
}

/// Puts a change of one cell into a design, with other notes.
fn put_noted(
    alloc: Global,
    design: &mut Design,
    change: CellChange,
    notes: Option<Row<Note>>,
) -> Result<(), NoMemory>
    requires { IsValid (edited design.old (edits_of design.old (record { cells = change ∷ []; notes = notes }))) }
    ensures ok { OnOk result (design.new ≡ edited design.old (edits_of design.old (record { cells = change ∷ []; notes = notes }))) }
    ensures err { OnErr result (design.new ≡ design.old) }
{
    if is_whole(&change) {
        return put_whole(alloc, design, change, notes);
    }
    put_copied(alloc, design, &[change], notes)
}

/// Puts a change into a design. A change of one cell goes in its place, and so do other notes; for changes of several cells, and
/// where a net or an instance comes with notes, the libraries are copied.
pub fn put_in_place(alloc: Global, design: &mut Design, change: Change) -> Result<(), NoMemory>
    requires can { CanAllBeMade design.old change.cells }
    requires valid { IsValid (edited design.old (edits_of design.old change)) }
    ensures ok { OnOk result (design.new ≡ edited design.old (edits_of design.old change)) }
    ensures err { OnErr result (design.new ≡ design.old) }
{
    let Change { cells, notes } = change;
    let cells = cells.into_vec();
    if cells.is_empty() {
        return put_notes(alloc, design, notes);
    }
    match only(cells) {
        Ok(one) => {
            if notes.is_some() {
                return put_noted(alloc, design, one, notes);
            }
            put_one(alloc, design, one)
        }
        Err(more) => put_copied(alloc, design, more.as_slice(), notes),
    }
}
