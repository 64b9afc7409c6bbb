//! The places whose instances change their cells, where the contents of a cell are replaced, and their uses in an index.
ghost use Rattle.std.specs.Prelude.{◌≡◌, ◌≤◌, ◌++◌, IfOk, IfSome, List, OnErr, OnOk, length, take};
ghost use Rattle.edit_rules_spec.specs.Paths.{same_cell};
ghost use Rattle.used_spec.specs.declared.used_at.UsedAt.{UsedAt as Use};
ghost use Rattle.where_used.specs.Moves.{AreMoves, cell_of, drop_new, drop_old, is_same, move_at, moves, put_new, use_at, with_news, without_olds};

use crate::used::Used;
use netlist_schema::{CellId, Inst, Listed, NoMemory, PartsRef};
use std::alloc::Global;
use used_spec::UsedAt;

/// The most places that are gone through one by one. Each costs a search in the lists of two cells, and the uses behind it there move
/// up or down; beyond that an index is made anew.
const MOST_MOVES: usize = 1024;

/// A place in the contents of a cell whose instance changes its cell: the cell of the one that stood there, and that of the one that
/// stands there afterwards, each where there is one.
#[derive(Clone, Copy)]
pub struct Move {
    pub place: u32,
    pub old: Option<CellId>,
    pub new: Option<CellId>,
}

/// Whether the two are one cell.
fn is_same_cell(a: CellId, b: CellId) -> bool
    ensures { result ≡ same_cell a b }
{
    a.lib.0 == b.lib.0 && a.slot == b.slot
}

/// Whether two instances, where they are there, are of one cell, or neither is there.
fn is_same(old: Option<CellId>, new: Option<CellId>) -> bool
    ensures { result ≡ is_same old new }
{
    match old {
        Some(old) => match new {
            Some(new) => is_same_cell(old, new),
            None => false,
        },
        None => new.is_none(),
    }
}

/// The cell of the instance at a place, where there is one.
fn cell_of(insts: &PartsRef<'_, Listed<Inst>>, place: u32) -> Option<CellId>
    ensures { result ≡ cell_of insts.now place }
{
    match insts.get(place as usize) {
        Some(inst) => Some(inst.get().of),
        None => None,
    }
}

/// Adds a place to those that were found, where its instance changes its cell.
fn add_move(
    found: &mut Vec<Move>,
    place: u32,
    old: Option<CellId>,
    new: Option<CellId>,
) -> Result<(), NoMemory>
    ensures { OnOk result (found.new.items ≡ found.old.items ++ move_at place old new) }
{
    if is_same(old, new) {
        return Ok(());
    }
    found.push(Move { place, old, new })?;
    Ok(())
}

/// Those among the first so many places whose instances change their cells, where they are not too many.
fn few_moves(
    alloc: Global,
    olds: &PartsRef<'_, Listed<Inst>>,
    news: &PartsRef<'_, Listed<Inst>>,
    count: u32,
) -> Result<Option<Vec<Move>>, NoMemory>
    ensures { IfOk result (λ found. IfSome found (λ all. all.items ≡ moves olds.now news.now count)) }
{
    let mut found = Vec::new(alloc);
    for place in 0..count {
        if found.len() > MOST_MOVES {
            return Ok(None);
        }
        let old = cell_of(olds, place);
        let new = cell_of(news, place);
        add_move(&mut found, place, old, new)?;
    }
    Ok(Some(found))
}

/// The greater of two numbers.
fn greater(a: usize, b: usize) -> usize
    ensures left { a ≤ result }
    ensures right { b ≤ result }
{
    if a < b { b } else { a }
}

/// The places whose instances change their cells, where they are not too many.
pub fn moves_of(
    alloc: Global,
    olds: &PartsRef<'_, Listed<Inst>>,
    news: &PartsRef<'_, Listed<Inst>>,
) -> Result<Option<Vec<Move>>, NoMemory>
    ensures { IfOk result (λ found. IfSome found (λ all. AreMoves olds.now news.now all.items)) }
{
    match u32::try_from(greater(olds.len(), news.len())) {
        Ok(count) => few_moves(alloc, olds, news, count),
        Err(_) => Ok(None),
    }
}

/// The use that a place is.
fn use_at(cell: CellId, place: &Move) -> UsedAt
    ensures { result ≡ use_at cell place.now }
{
    UsedAt {
        cell,
        inst: place.place,
    }
}

/// Puts the use of what stands at a place afterwards into an index. Where memory is refused, the index stays.
fn put_new(alloc: Global, used: &mut Used, cell: CellId, place: &Move) -> Result<(), NoMemory>
    ensures ok { OnOk result (used.new ≡ put_new cell place.now used.old) }
    ensures err { OnErr result (used.new ≡ used.old) }
{
    match place.new {
        Some(of) => used.put(alloc, of, use_at(cell, place)),
        None => Ok(()),
    }
}

/// Takes it out.
fn drop_new(alloc: Global, used: &mut Used, cell: CellId, place: &Move)
    ensures { used.new ≡ drop_new cell place.now used.old }
{
    if let Some(of) = place.new {
        used.take_out(alloc, of, use_at(cell, place));
    }
}

/// Takes the use of what stood at a place out of an index.
fn drop_old(alloc: Global, used: &mut Used, cell: CellId, place: &Move)
    ensures { used.new ≡ drop_old cell place.now used.old }
{
    if let Some(of) = place.old {
        used.take_out(alloc, of, use_at(cell, place));
    }
}

/// Takes the uses of what stands at the first so many of these places afterwards out of an index into which they were put, the last one
/// first.
pub fn drop_news(alloc: Global, used: &mut Used, cell: CellId, places: &[Move], count: usize)
    requires { count ≤ length places.now }
    ensures { (index : List (List (List Use))) → used.old ≡ with_news cell (take count places.now) index → used.new ≡ index }
{
    let mut left = count;
    while left > 0 {
        left -= 1;
        drop_new(alloc, used, cell, &places[left]);
    }
}

/// Puts the uses of what stands at these places afterwards into an index. Where memory is refused, the index stays.
pub fn put_news(
    alloc: Global,
    used: &mut Used,
    cell: CellId,
    places: &[Move],
) -> Result<(), NoMemory>
    ensures ok { OnOk result (used.new ≡ with_news cell places.now used.old) }
    ensures err { OnErr result (used.new ≡ used.old) }
{
    for count in 0..places.len() {
        match put_new(alloc, used, cell, &places[count]) {
            Ok(()) => {}
            Err(refused) => {
                drop_news(alloc, used, cell, places, count);
                return Err(refused);
            }
        }
    }
    Ok(())
}

/// Takes the uses of what stood at these places out of an index.
pub fn drop_olds(alloc: Global, used: &mut Used, cell: CellId, places: &[Move])
    ensures { used.new ≡ without_olds cell places.now used.old }
{
    for count in 0..places.len() {
        drop_old(alloc, used, cell, &places[count]);
    }
}
