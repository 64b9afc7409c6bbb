//! `Indexed`: a design with the index of its uses.
ghost use Rattle.std.specs.Prelude.{◌≡◌, [], IfOk, IfSome, IsSomeAnd, IsTrue, OnErr, OnOk, option_map, slice_get, unwrap_or};
ghost use Rattle.std.specs.List.{All};
ghost use Rattle.std.specs.Option.{option_map_or};
ghost use Rattle.netlist_schema.specs.Design.{insts_of};
ghost use Rattle.netlist_schema.specs.Hierarchy.{insts_at};
ghost use Rattle.netlist_schema.specs.Valid.{IsValid};
ghost use Rattle.edit_rules_spec.specs.Edit.{edited};
ghost use Rattle.edit_cells.specs.Change.{CanAllBeMade, edits_of};
ghost use Rattle.used_spec.specs.Uses.{uses};
ghost use Rattle.where_used.specs.Changes.{KeepsInsts, KeepsUses};
ghost use Rattle.where_used.specs.Moves.{AreMoves, IsRefilled};
ghost use Rattle.where_used.specs.Rows.{IsBlank, IsTurn, drop_in};

use crate::moves::{Move, drop_news, drop_olds, moves_of, put_news};
use crate::used::Used;
use cell_puts::put_in_place;
use design_copy::top_of;
use edit_cells::{CellChange, Change, patched};
use flat_lookup::{inst_at, insts_at};
use netlist_schema::{
    CellBody, CellId, Contents, Copied, Design, Lib, LibId, NoMemory, Note, Row, Shown,
    design_is_valid,
};
use std::alloc::Global;
use std::marker::Model;
use used_spec::UsedAt;

/// A design and an index.
#[derive(Drop)]
struct Pair {
    design: Design,
    used: Used,
}

/// A design with the index of its uses.
pub struct Indexed {
    pair: Pair,
}

impl Drop for Indexed {
    fn drop(self) {
        let Indexed { pair: _ } = self;
    }
}

impl Model for Indexed {
    ghost use Rattle.netlist_schema.specs.Design.{Design as Parts};
    ghost use Rattle.std.specs.Prelude.{◌≡◌};
    ghost use Rattle.used_spec.specs.Uses.{uses};

    ghost Value = { Parts };

    ghost view = { λ i. i.pair.design };

    ghost invariant = { λ i. i.pair.used ≡ uses i.pair.design };
}

impl Indexed {
    /// A design, with its index.
    pub fn new(alloc: Global, design: Design) -> Result<Indexed, NoMemory>
        ensures { IfOk result (λ made. made ≡ design) }
    {
        let used = Used::of(alloc, &design)?;
        Ok(Indexed {
            pair: Pair { design, used },
        })
    }

    /// Lends the design.
    pub fn design(&self) -> &Design
        ensures { result.now ≡ self.now }
    {
        &self.pair.design
    }

    /// Lends the index of its uses.
    pub fn used(&self) -> &Used
        ensures { result.now ≡ uses self.now }
    {
        &self.pair.used
    }

    /// Makes a change, all of it or nothing. A change of one cell, of the notes or of both goes in its place, and no other cell is copied.
    /// Where no instance is added, taken away or given another cell, the index stays. One instance that is put at a place costs the lists
    /// of its cell and of the cell of the one that stood there, a new cell without instances an empty list, and other contents of a
    /// cell the lists of the cells of which an instance stands there at another place than before, or no longer. Else, and where more
    /// than a thousand instances would change their places so, the index is made anew.
    pub fn make(&mut self, alloc: Global, change: Change) -> Result<(), NoMemory>
        requires can { CanAllBeMade self.old change.cells }
        requires valid { IsValid (edited self.old (edits_of self.old change)) }
        ensures ok { OnOk result (self.new ≡ edited self.old (edits_of self.old change)) }
        ensures err { OnErr result (self.new ≡ self.old) }
    {
        make(alloc, &mut self.pair, change)
    }
}

/// Makes a change of a design, and keeps its index.
fn make(alloc: Global, pair: &mut Pair, change: Change) -> Result<(), NoMemory>
    requires index { pair.old.used ≡ uses pair.old.design }
    requires can { CanAllBeMade pair.old.design change.cells }
    requires valid { IsValid (edited pair.old.design (edits_of pair.old.design change)) }
    ensures index { pair.new.used ≡ uses pair.new.design }
    ensures ok { OnOk result (pair.new.design ≡ edited pair.old.design (edits_of pair.old.design change)) }
    ensures err { OnErr result (pair.new.design ≡ pair.old.design) }
{
    if keeps_uses(&pair.design, &change) {
        return put_in_place(alloc, &mut pair.design, change);
    }
    if let Some(turn) = turn_of(&pair.design, &change) {
        return make_turn(alloc, pair, change, turn);
    }
    if let Some(lib) = blank_of(&change) {
        return make_blank(alloc, pair, change, lib);
    }
    match refill_of(alloc, &pair.design, &change)? {
        Some(refill) => make_refill(alloc, pair, change, &refill),
        None => make_anew(alloc, pair, change),
    }
}

/// Makes a change of a design, and its index anew.
fn make_anew(alloc: Global, pair: &mut Pair, change: Change) -> Result<(), NoMemory>
    requires index { pair.old.used ≡ uses pair.old.design }
    requires valid { IsValid (edited pair.old.design (edits_of pair.old.design change)) }
    ensures index { pair.new.used ≡ uses pair.new.design }
    ensures ok { OnOk result (pair.new.design ≡ edited pair.old.design (edits_of pair.old.design change)) }
    ensures err { OnErr result (pair.new.design ≡ pair.old.design) }
{
    let made = made(alloc, &pair.design, change)?;
    let used = Used::of(alloc, &made)?;
    pair.design = made;
    pair.used = used;
    Ok(())
}

/// An instance of a cell that is put at a place, and the cell of the one that stands there, where there is one.
#[derive(Clone, Copy)]
struct PutInst {
    at: UsedAt,
    of: CellId,
    old: Option<CellId>,
}

/// The cell of the instance at a place in a cell, where there is one.
fn cell_placed(design: &Design, id: CellId, place: u32) -> Option<CellId>
    ensures { result ≡ option_map (λ inst. inst.of) (slice_get (insts_at design.now id) place) }
{
    match inst_at(design, id, place) {
        Some(inst) => Some(inst.of),
        None => None,
    }
}

/// What a change puts, where it is one instance and nothing else.
fn turn_of(design: &Design, change: &Change) -> Option<PutInst>
    ensures { IfSome result (λ turn. IsTurn design.now change.now turn.at turn.of turn.old) }
{
    let cells = change.cells.as_slice();
    if change.notes.is_some() {
        return None;
    }
    if cells.len() != 1 {
        return None;
    }
    match &cells[0] {
        CellChange::Inst { id, place, inst } => Some(PutInst {
            at: UsedAt {
                cell: *id,
                inst: *place,
            },
            of: inst.of,
            old: cell_placed(design, *id, *place),
        }),
        _ => None,
    }
}

/// Takes a use of a cell out of the index, where there is such a cell.
fn take_out(alloc: Global, used: &mut Used, old: Option<CellId>, at: UsedAt)
    ensures { used.new ≡ option_map_or (λ cell. drop_in cell at used.old) old used.old }
{
    if let Some(cell) = old {
        used.take_out(alloc, cell, at);
    }
}

/// Puts one instance into a design, and changes the lists of its cell and of the cell of the one that stood there. All memory is taken
/// before anything else is changed.
fn make_turn(alloc: Global, pair: &mut Pair, change: Change, turn: PutInst) -> Result<(), NoMemory>
    requires index { pair.old.used ≡ uses pair.old.design }
    requires can { CanAllBeMade pair.old.design change.cells }
    requires valid { IsValid (edited pair.old.design (edits_of pair.old.design change)) }
    requires turn { IsTurn pair.old.design change turn.at turn.of turn.old }
    ensures index { pair.new.used ≡ uses pair.new.design }
    ensures ok { OnOk result (pair.new.design ≡ edited pair.old.design (edits_of pair.old.design change)) }
    ensures err { OnErr result (pair.new.design ≡ pair.old.design) }
{
    pair.used.put(alloc, turn.of, turn.at)?;
    match put_in_place(alloc, &mut pair.design, change) {
        Ok(()) => {
            take_out(alloc, &mut pair.used, turn.old, turn.at);
            Ok(())
        }
        Err(refused) => {
            pair.used.take_out(alloc, turn.of, turn.at);
            Err(refused)
        }
    }
}

/// Whether a cell has no instances.
fn is_blank(body: &CellBody) -> bool
    ensures { IsTrue result → insts_of body.now ≡ [] }
{
    match &body.contents {
        Some(contents) => contents.insts.is_empty(),
        None => true,
    }
}

/// The library to which a change adds a cell without instances, where it does nothing else.
fn blank_of(change: &Change) -> Option<LibId>
    ensures { IfSome result (λ lib. IsBlank change.now lib) }
{
    let cells = change.cells.as_slice();
    if change.notes.is_some() {
        return None;
    }
    if cells.len() != 1 {
        return None;
    }
    match &cells[0] {
        CellChange::Fresh { id, body } => {
            if !is_blank(body) {
                return None;
            }
            Some(id.lib)
        }
        _ => None,
    }
}

/// Adds a cell without instances to a design, and an empty list to the index. All memory is taken before anything else is changed.
fn make_blank(alloc: Global, pair: &mut Pair, change: Change, lib: LibId) -> Result<(), NoMemory>
    requires index { pair.old.used ≡ uses pair.old.design }
    requires can { CanAllBeMade pair.old.design change.cells }
    requires valid { IsValid (edited pair.old.design (edits_of pair.old.design change)) }
    requires blank { IsBlank change lib }
    ensures index { pair.new.used ≡ uses pair.new.design }
    ensures ok { OnOk result (pair.new.design ≡ edited pair.old.design (edits_of pair.old.design change)) }
    ensures err { OnErr result (pair.new.design ≡ pair.old.design) }
{
    design_is_valid(&pair.design);
    pair.used.add_cell(alloc, lib)?;
    match put_in_place(alloc, &mut pair.design, change) {
        Ok(()) => Ok(()),
        Err(refused) => {
            pair.used.cut_cell(lib);
            Err(refused)
        }
    }
}

/// A cell whose contents are replaced, and the places there whose instances change their cells.
#[derive(Drop)]
struct Refill {
    cell: CellId,
    places: Vec<Move>,
}

/// The same, for other contents of a cell, where the places are not too many.
fn refill_in(
    alloc: Global,
    design: &Design,
    cell: CellId,
    contents: &Contents,
) -> Result<Option<Refill>, NoMemory>
    ensures { IfOk result (λ found. IfSome found (λ refill. (refill.cell ≡ cell) × AreMoves (insts_at design.now cell) contents.now.insts refill.places.items)) }
{
    match moves_of(alloc, &insts_at(design, cell), &contents.insts.lent())? {
        Some(places) => Ok(Some(Refill { cell, places })),
        None => Ok(None),
    }
}

/// What a change replaces, where that is the contents of one cell, and besides at most the notes.
fn refill_of(alloc: Global, design: &Design, change: &Change) -> Result<Option<Refill>, NoMemory>
    ensures { IfOk result (λ found. IfSome found (λ refill. IsRefilled design.now change.now refill.cell refill.places.items)) }
{
    let cells = change.cells.as_slice();
    if cells.len() != 1 {
        return Ok(None);
    }
    match &cells[0] {
        CellChange::Inner { id, contents } => refill_in(alloc, design, *id, contents),
        _ => Ok(None),
    }
}

/// Replaces the contents of a cell of a design, and changes the lists of the cells of which it has more or fewer instances, or
/// instances at other places. All memory is taken before anything else is changed.
fn make_refill(
    alloc: Global,
    pair: &mut Pair,
    change: Change,
    refill: &Refill,
) -> Result<(), NoMemory>
    requires index { pair.old.used ≡ uses pair.old.design }
    requires can { CanAllBeMade pair.old.design change.cells }
    requires valid { IsValid (edited pair.old.design (edits_of pair.old.design change)) }
    requires refill { IsRefilled pair.old.design change refill.now.cell refill.now.places.items }
    ensures index { pair.new.used ≡ uses pair.new.design }
    ensures ok { OnOk result (pair.new.design ≡ edited pair.old.design (edits_of pair.old.design change)) }
    ensures err { OnErr result (pair.new.design ≡ pair.old.design) }
{
    let places = refill.places.as_slice();
    let count = places.len();
    put_news(alloc, &mut pair.used, refill.cell, places)?;
    match put_in_place(alloc, &mut pair.design, change) {
        Ok(()) => {
            drop_olds(alloc, &mut pair.used, refill.cell, places);
            Ok(())
        }
        Err(refused) => {
            drop_news(alloc, &mut pair.used, refill.cell, places, count);
            Err(refused)
        }
    }
}

/// Whether a change leaves all uses as they are: it adds no instance, takes none away, and gives none another cell. It may answer
/// no where it does.
fn keeps_uses(design: &Design, change: &Change) -> bool
    ensures { IsTrue result → uses (edited design.now (edits_of design.now change.now)) ≡ uses design.now }
{
    let cells = change.cells.as_slice();
    if cells.len() != 1 {
        return keeps_insts(cells);
    }
    keeps_one(design, &cells[0])
}

fn keeps_one(design: &Design, change: &CellChange) -> bool
    ensures { IsTrue result → KeepsUses design.now change.now }
{
    match change {
        CellChange::Face { .. } => true,
        CellChange::Net { .. } => true,
        CellChange::Inst { id, place, inst } => is_of(design, *id, *place, inst.of),
        _ => false,
    }
}

/// Whether the instance at a place in a cell is there and is of this cell.
fn is_of(design: &Design, id: CellId, place: u32, of: CellId) -> bool
    ensures { IsTrue result → IsSomeAnd (slice_get (insts_at design.now id) place) (λ inst. inst.of ≡ of) }
{
    match inst_at(design, id, place) {
        Some(inst) => inst.of == of,
        None => false,
    }
}

/// Whether no change adds an instance or puts one in place of another.
fn keeps_insts(changes: &[CellChange]) -> bool
    ensures { IsTrue result → All KeepsInsts changes.now }
{
    for change in changes {
        if !keeps(change) {
            return false;
        }
    }
    true
}

fn keeps(change: &CellChange) -> bool
    ensures { IsTrue result → KeepsInsts change.now }
{
    match change {
        CellChange::Face { .. } => true,
        CellChange::Net { .. } => true,
        _ => false,
    }
}

/// The design with a change, in memory of its own.
fn made(alloc: Global, design: &Design, change: Change) -> Result<Design, NoMemory>
    requires { IsValid (edited design.now (edits_of design.now change)) }
    ensures { IfOk result (λ made. made ≡ edited design.now (edits_of design.now change)) }
{
    let Change { cells, notes } = change;
    let libs = patched(alloc, design.libs(), cells.as_slice())?;
    with_libs(alloc, design, libs, notes)
}

/// A copy of a design with other libraries, and other notes where they are given.
fn with_libs(
    alloc: Global,
    design: &Design,
    libs: Row<Lib>,
    notes: Option<Row<Note>>,
) -> Result<Design, NoMemory>
    requires { IsValid (record design.now { libs = libs; notes = unwrap_or notes design.now.notes }) }
    ensures { IfOk result (λ made. made ≡ record design.now { libs = libs; notes = unwrap_or notes design.now.notes }) }
{
    let notes = given_or_copied(alloc, notes, design.notes())?;
    let title = design.title().copy(alloc)?;
    let top = top_of(alloc, design.top())?;
    Ok(Design::of(title, libs, top, notes))
}

/// The notes that are given, else a copy of the others.
fn given_or_copied(
    alloc: Global,
    given: Option<Row<Note>>,
    others: &Row<Note>,
) -> Result<Row<Note>, NoMemory>
    ensures { IfOk result (λ notes. notes ≡ unwrap_or given others.now) }
{
    match given {
        Some(notes) => Ok(notes),
        None => others.copy(alloc),
    }
}
