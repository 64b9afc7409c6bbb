//! One use put into its list, and taken out.
ghost use Rattle.std.specs.Prelude.{◌≡◌, ◌≤◌, OnErr, OnOk, length};
ghost use Rattle.edit_rules_spec.specs.Edit.{changed_at};
ghost use Rattle.used_spec.specs.Uses.{comes_before};
ghost use Rattle.where_used.specs.Rows.{IsIndex, IsRising, IsRow, drop_in, drop_use, place_of, put_in, put_use, with_row, without_last, without_row};

use netlist_schema::{CellId, LibId, NoMemory, Row};
use std::alloc::Global;
use used_spec::UsedAt;

/// Whether a use comes before another: by library, place of the cell, and place of the instance.
fn comes_before(a: UsedAt, b: UsedAt) -> bool
    ensures { result ≡ comes_before a b }
{
    if a.cell.lib.0 != b.cell.lib.0 {
        return a.cell.lib.0 < b.cell.lib.0;
    }
    if a.cell.slot != b.cell.slot {
        return a.cell.slot < b.cell.slot;
    }
    a.inst < b.inst
}

/// The number of uses at the front of a list that come before a use.
fn place_of(users: &[UsedAt], at: UsedAt) -> usize
    requires { IsRising users.now }
    ensures value { result ≡ place_of at users.now }
    ensures within { result ≤ length users.now }
{
    users.partition_point(
        |user: &UsedAt| -> bool
            ensures { result ≡ comes_before user.now at }
        { comes_before(*user, at) },
    )
}

/// Puts a use into a list, behind those that come before it. Where memory is refused, the list stays.
fn put_to(users: &mut Vec<UsedAt>, at: UsedAt) -> Result<(), NoMemory>
    requires { IsRising users.old.items }
    ensures ok { OnOk result (users.new.items ≡ put_use at users.old.items) }
    ensures err { OnErr result (users.new.items ≡ users.old.items) }
{
    let place = place_of(users.as_slice(), at);
    match users.insert(place, at) {
        Ok(()) => Ok(()),
        Err(_) => Err(NoMemory),
    }
}

/// Takes the use that stands behind those that come before a use out of a list, where there is one.
fn drop_from(users: &mut Vec<UsedAt>, at: UsedAt)
    requires { IsRising users.old.items }
    ensures { users.new.items ≡ drop_use at users.old.items }
{
    let place = place_of(users.as_slice(), at);
    if place < users.len() {
        users.remove(place);
    }
}

/// Puts a use into the list at a place, where there is one.
fn put_at(
    alloc: Global,
    cells: &mut Row<Row<UsedAt>>,
    slot: u32,
    at: UsedAt,
) -> Result<(), NoMemory>
    requires { IsRow cells.old }
    ensures ok { OnOk result (cells.new ≡ changed_at (put_use at) slot cells.old) }
    ensures err { OnErr result (cells.new ≡ cells.old) }
{
    let slot = slot as usize;
    if slot >= cells.as_slice().len() {
        return Ok(());
    }
    let mut users = cells.replace(slot, Row::of(Vec::new(alloc))).into_vec();
    let done = put_to(&mut users, at);
    cells.set(slot, Row::of(users));
    done
}

/// Takes a use out of the list at a place, where there is one.
fn drop_at(alloc: Global, cells: &mut Row<Row<UsedAt>>, slot: u32, at: UsedAt)
    requires { IsRow cells.old }
    ensures { cells.new ≡ changed_at (drop_use at) slot cells.old }
{
    let slot = slot as usize;
    if slot >= cells.as_slice().len() {
        return;
    }
    let mut users = cells.replace(slot, Row::of(Vec::new(alloc))).into_vec();
    drop_from(&mut users, at);
    cells.set(slot, Row::of(users));
}

/// Puts a use of a cell into the index, where the index has the cell. Where memory is refused, the index stays.
#[tactic(auto, using(edit_cells::proofs::Patches::changed_at_end, edit_cells::proofs::Patches::changed_at_place))]
pub fn put_use(
    alloc: Global,
    index: &mut Vec<Row<Row<UsedAt>>>,
    of: CellId,
    at: UsedAt,
) -> Result<(), NoMemory>
    requires { IsIndex index.old.items }
    ensures ok { OnOk result (index.new.items ≡ put_in of at index.old.items) }
    ensures err { OnErr result (index.new.items ≡ index.old.items) }
{
    let lib = of.lib.0 as usize;
    if lib >= index.len() {
        return Ok(());
    }
    put_at(alloc, &mut index[lib], of.slot, at)
}

/// Takes a use of a cell out of the index, where the index has the cell.
#[tactic(auto, using(edit_cells::proofs::Patches::changed_at_end, edit_cells::proofs::Patches::changed_at_place))]
pub fn drop_use(alloc: Global, index: &mut Vec<Row<Row<UsedAt>>>, of: CellId, at: UsedAt)
    requires { IsIndex index.old.items }
    ensures { index.new.items ≡ drop_in of at index.old.items }
{
    let lib = of.lib.0 as usize;
    if lib < index.len() {
        drop_at(alloc, &mut index[lib], of.slot, at);
    }
}

/// Adds an empty list to a library, where there is one. Where memory is refused, the index stays.
#[tactic(auto, using(edit_cells::proofs::Patches::changed_at_end, edit_cells::proofs::Patches::changed_at_place))]
pub fn add_row(alloc: Global, index: &mut Vec<Row<Row<UsedAt>>>, lib: LibId) -> Result<(), NoMemory>
    ensures ok { OnOk result (index.new.items ≡ with_row lib index.old.items) }
    ensures err { OnErr result (index.new.items ≡ index.old.items) }
{
    let lib = lib.0 as usize;
    if lib >= index.len() {
        return Ok(());
    }
    index[lib].push(Row::of(Vec::new(alloc)))
}

/// Takes the last list out, where there is one.
fn cut_last(cells: &mut Row<Row<UsedAt>>)
    ensures { cells.new ≡ without_last cells.old }
{
    let count = cells.as_slice().len();
    if count > 0 {
        cells.cut(count - 1);
    }
}

/// Takes the last list of a library out, where there is one.
#[tactic(auto, using(edit_cells::proofs::Patches::changed_at_end, edit_cells::proofs::Patches::changed_at_place))]
pub fn cut_row(index: &mut Vec<Row<Row<UsedAt>>>, lib: LibId)
    ensures { index.new.items ≡ without_row lib index.old.items }
{
    let lib = lib.0 as usize;
    if lib < index.len() {
        cut_last(&mut index[lib]);
    }
}
