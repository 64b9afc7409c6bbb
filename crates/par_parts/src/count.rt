//! The items of one cell's occurrences.
ghost use Rattle.std.specs.Prelude.{◌≡◌, ◌+◌, ◌≤◌, ◌^◌, ◌-◌, [], length, min, sum_by};
ghost use Rattle.netlist_schema.specs.Hierarchy.{insts_at};
ghost use Rattle.par_parts.specs.Counts.{kept_of};
ghost use Rattle.par_parts.specs.Own.{body_count, inner_bits, own_count, top_bits};
ghost use Rattle.par_parts.specs.Items.{AreCounts};
ghost use Rattle.netlist_schema.specs.Types.{TopHead};
ghost use Rattle.netlist_schema.specs.Valid.{IsValid};
ghost use Rattle.flat_spec.specs.Below.{items_under};
ghost use Rattle.netlist_schema.specs.declared.limits.TheConstants.{MOST_BITS, MOST_NETS, MOST_PORTS};
ghost use Rattle.netlist_schema.specs.Design.{bit_count, nets_of};

use crate::tables::ItemCounts;
use bus_members::bit_count;
use flat_lookup::insts_at;
use netlist_schema::{CellBody, CellId, Inst, Listed, PartsRef, Shown};

/// The nets of a cell, or the bits of a leaf.
fn body_count(body: &CellBody) -> u64
    requires ports { length body.now.ports ≤ MOST_PORTS }
    requires bits { bit_count body.now ≤ MOST_BITS }
    requires nets { length (nets_of body.now) ≤ MOST_NETS }
    ensures count { result ≡ body_count body.now }
    ensures small { result ≤ 2 ^ 32 }
{
    match &body.contents {
        Some(contents) => contents.nets.len() as u64,
        None => bit_count(body),
    }
}

/// How many items an occurrence of the cell has of its own, where it is not the top.
fn own_count<S: Shown>(design: &S, cell: CellId) -> u64
    ensures { result ≡ own_count (S.design design.now) cell }
{
    match design.cell(cell) {
        Some(body) => body_count(body) + 1,
        None => 1,
    }
}

/// What is kept of the cell of an instance.
fn kept_of(counts: &ItemCounts, inst: &Inst) -> u64
    ensures { result ≡ kept_of counts.now inst.now }
{
    counts.at(inst.of).unwrap_or(0)
}

/// So many, and what is kept of the cells of these instances.
fn add_insts(counts: &ItemCounts, insts: &PartsRef<'_, Listed<Inst>>, own: u64) -> u64
    ensures { result ≡ min (own + sum_by (kept_of counts.now) insts.now) (2 ^ 64 - 1) }
{
    let mut count = own;
    for place in 0..insts.len() {
        count = count.saturating_add(kept_of(counts, insts.at(place)));
    }
    count
}

/// How many items stand at and below an occurrence of the cell, where it is not the top and so many are kept of the cells of its
/// instances.
pub fn count_cell<S: Shown>(design: &S, counts: &ItemCounts, cell: CellId) -> u64
    ensures { result ≡ min (own_count (S.design design.now) cell + sum_by (kept_of counts.now) (insts_at (S.design design.now) cell)) (2 ^ 64 - 1) }
{
    add_insts(counts, &insts_at(design, cell), own_count(design, cell))
}

/// The bits of a cell that has a contents, none of a leaf.
fn inner_bits(body: &CellBody) -> u64
    requires ports { length body.now.ports ≤ MOST_PORTS }
    requires bits { bit_count body.now ≤ MOST_BITS }
    ensures count { result ≡ inner_bits body.now }
    ensures small { result ≤ 2 ^ 32 }
{
    match &body.contents {
        Some(_) => bit_count(body),
        None => 0,
    }
}

/// How many items more an occurrence of the cell has of its own, where it is the top.
fn top_bits<S: Shown>(design: &S, cell: CellId) -> u64
    ensures { result ≡ top_bits (S.design design.now) cell }
{
    match design.cell(cell) {
        Some(body) => inner_bits(body),
        None => 0,
    }
}

/// How many items a design has, whose top has this cell, as far as a number of 64 bits can say. Takes no memory.
pub fn count_top<S: Shown>(design: &S, counts: &ItemCounts, top: CellId) -> u64
    requires counts { AreCounts (S.design design.now) top counts.now }
    requires valid { IsValid (S.design design.now) }
    ensures { (head : TopHead) → head.cell ≡ top → result ≡ min (length (items_under (S.design design.now) head [] top)) (2 ^ 64 - 1) }
{
    top_bits(design, top).saturating_add(count_cell(design, counts, top))
}
