//! The instances and nets of a cell.
ghost use Rattle.std.specs.Prelude.{◌≡◌, ◌≤◌, length, slice_get};
ghost use Rattle.std.specs.Option.{option_copied};
ghost use Rattle.netlist_schema.specs.Design.{insts_of, nets_of};
ghost use Rattle.netlist_schema.specs.Hierarchy.{insts_at};
ghost use Rattle.netlist_schema.specs.declared.limits.TheConstants.{MOST_INSTS, MOST_NETS};
ghost use Rattle.flat_spec.specs.Paths.{nets_at};

use netlist_schema::{CellBody, CellId, Inst, Listed, Net, PartsRef, Shown};

/// The instances of a cell: none of a leaf.
#[inline(always)]
fn insts_of(body: &CellBody) -> PartsRef<'_, Listed<Inst>>
    ensures { result ≡ insts_of body.now }
{
    let Some(contents) = &body.contents else {
        return PartsRef::none();
    };
    contents.insts.lent()
}

/// The nets of a cell: none of a leaf.
#[inline(always)]
fn nets_of(body: &CellBody) -> PartsRef<'_, Listed<Net>>
    ensures { result ≡ nets_of body.now }
{
    let Some(contents) = &body.contents else {
        return PartsRef::none();
    };
    contents.nets.lent()
}

/// The instances of the cell with this id, in order, at most `MOST_INSTS`: none of a leaf, and none where there is no such cell. Takes
/// no memory.
#[inline(always)]
pub fn insts_at<S: Shown>(design: &S, id: CellId) -> PartsRef<'_, Listed<Inst>>
    ensures value { result ≡ insts_at (S.design design.now) id }
    ensures limit { length result ≤ MOST_INSTS }
{
    let Some(body) = design.cell(id) else {
        return PartsRef::none();
    };
    insts_of(body)
}

/// The nets of the cell with this id, in order, at most `MOST_NETS`: none of a leaf, and none where there is no such cell. Takes no
/// memory.
#[inline(always)]
pub fn nets_at<S: Shown>(design: &S, id: CellId) -> PartsRef<'_, Listed<Net>>
    ensures value { result ≡ nets_at (S.design design.now) id }
    ensures limit { length result ≤ MOST_NETS }
{
    let Some(body) = design.cell(id) else {
        return PartsRef::none();
    };
    nets_of(body)
}

/// One instance of a cell: `None` exactly where there is none at the place. Takes no memory.
#[inline(always)]
pub fn inst_at<S: Shown>(design: &S, id: CellId, place: u32) -> Option<&Inst>
    ensures { option_copied result ≡ slice_get (insts_at (S.design design.now) id) place }
{
    match insts_at(design, id).get(place as usize) {
        Some(inst) => Some(inst.get()),
        None => None,
    }
}

/// One net of a cell: `None` exactly where there is none at the place. Takes no memory.
#[inline(always)]
pub fn net_at<S: Shown>(design: &S, id: CellId, place: u32) -> Option<&Net>
    ensures { option_copied result ≡ slice_get (nets_at (S.design design.now) id) place }
{
    match nets_at(design, id).get(place as usize) {
        Some(net) => Some(net.get()),
        None => None,
    }
}

/// The number of nets of a cell, at most `MOST_NETS`; 0 where there is no such cell. Takes no memory.
#[inline(always)]
pub fn net_count<S: Shown>(design: &S, id: CellId) -> u32
    ensures { result ≡ length (nets_at (S.design design.now) id) }
{
    nets_at(design, id).len() as u32
}
