//! What is known of the cells of a design, told one after another.
ghost use Rattle.std.specs.Prelude.{◌≡◌, ◌<◌, ◌≤◌, ◌↔◌, [], ℕ, List, Contains, IfOk, Some, length, map, set, slice_index};
ghost use Rattle.std.specs.List.{All};
ghost use Rattle.netlist_schema.specs.Design.{Design, bit_count, cell_at};
ghost use Rattle.netlist_schema.specs.Types.{CellId as Id};
ghost use Rattle.netlist_schema.specs.Valid.{IsValid};
ghost use Rattle.netlist_schema.specs.declared.limits.TheConstants.{MOST_BITS, MOST_NETS, MOST_PORTS};
ghost use Rattle.flat_spec.specs.HandedDown.{IsFirstInside};
ghost use Rattle.flat_spec.specs.Paths.{nets_at};
ghost use Rattle.net_classes.specs.Facts.{facts_of, no_facts};
ghost use Rattle.net_classes.specs.Inside.{TellsFirsts};
ghost use Rattle.net_classes.specs.Joints.{IsJointIn};
ghost use Rattle.net_classes.specs.Known.{AreKnown, AreSetAt, AreTold, HasChildrenIn};
ghost use Rattle.net_classes.specs.Links.{inside_in};
ghost use Rattle.net_classes.specs.declared.joints.Joint.{Joint as Place};

use crate::bits::port_starts;
use crate::joints::{Joint, list_joints, list_own};
use crate::links::list_links;
use crate::tables::{CellNets, least_bits};
use bus_members::bit_count;
use flat_joined_numbers::least_joined;
use flat_lookup::{insts_at, nets_at};
use netlist_schema::{CellBody, CellId, Inst, LibId, Listed, Net, NoMemory, PartsRef, Shown};
use std::alloc::Global;

/// So many cells of which nothing is known.
fn blank_row(alloc: Global, count: u32) -> Result<Vec<CellNets>, NoMemory>
    ensures long { IfOk result (λ row. length row.items ≡ count) }
    ensures none { IfOk result (λ row. All (λ nets. facts_of nets ≡ no_facts) row.items) }
{
    let mut row = Vec::new(alloc);
    for _ in 0..count {
        row.push(CellNets::none(alloc))?;
    }
    Ok(row)
}

/// Nothing is known of any cell of the design.
pub(crate) fn no_tables<S: Shown>(alloc: Global, design: &S) -> Result<Vec<Vec<CellNets>>, NoMemory>
    ensures none { IfOk result (λ cells. AreKnown (S.design design.now) [] (map (λ row. map facts_of row.items) cells.items)) }
    ensures valid { IsValid (S.design design.now) }
{
    let mut cells = Vec::new(alloc);
    for lib in 0..design.lib_count() {
        let row = blank_row(alloc, design.cell_count(LibId(lib)))?;
        cells.push(row)?;
    }
    Ok(cells)
}

/// For each net of a contents with these joints the first net that is connected with it, where what is known of the cells of its
/// instances tells the first nets inside.
fn list_firsts(
    alloc: Global,
    cells: &[Vec<CellNets>],
    insts: &PartsRef<'_, Listed<Inst>>,
    nets: &PartsRef<'_, Listed<Net>>,
    joints: &[Joint],
) -> Result<Vec<u32>, NoMemory>
    requires few { length nets.now ≤ MOST_NETS }
    requires joints { (j : Place) → Contains joints.now j ↔ IsJointIn nets.now j }
    ensures long { IfOk result (λ firsts. length firsts.items ≡ length nets.now) }
    ensures within { IfOk result (λ firsts. All (λ first. first < length firsts.items) firsts.items) }
    ensures firsts { IfOk result (λ firsts. (d : Design) (c : CellId) → IsValid d → nets.now ≡ nets_at d c
        → TellsFirsts d c (inside_in (map (λ row. map facts_of row.items) cells.now) insts.now)
        → (n : ℕ) → n < length nets.now → IsFirstInside d c n (slice_index firsts.items n)) }
{
    let links = list_links(alloc, cells, insts, joints)?;
    least_joined(alloc, nets.len() as u32, links.as_slice())
}

/// What is known of a cell with contents, where the same is known of the cells of its instances.
fn body_nets<S: Shown>(
    alloc: Global,
    design: &S,
    cells: &[Vec<CellNets>],
    cell: CellId,
    body: &CellBody,
) -> Result<CellNets, NoMemory>
    requires is { cell_at (S.design design.now) cell ≡ Some body.now }
    requires few { length body.now.ports ≤ MOST_PORTS }
    requires narrow { bit_count body.now ≤ MOST_BITS }
    ensures { IfOk result (λ nets. (done : List Id) → IsValid (S.design design.now) → AreKnown (S.design design.now) done (map (λ row. map facts_of row.items) cells.now)
        → HasChildrenIn (S.design design.now) cell done → AreTold (S.design design.now) cell (facts_of nets)) }
{
    let nets = nets_at(design, cell);
    let starts = port_starts(alloc, body)?;
    let own = list_own(alloc, starts.as_slice(), bit_count(body) as u32, &nets)?;
    let joints = list_joints(alloc, &nets)?;
    let insts = insts_at(design, cell);
    let firsts = list_firsts(alloc, cells, &insts, &nets, joints.as_slice())?;
    let least = least_bits(alloc, own.as_slice(), firsts.as_slice())?;
    Ok(CellNets {
        starts,
        own,
        firsts,
        least,
        joints,
    })
}

/// What is known of a cell, where the same is known of the cells of its instances. Of a leaf nothing is kept.
pub(crate) fn cell_nets<S: Shown>(
    alloc: Global,
    design: &S,
    cells: &[Vec<CellNets>],
    cell: CellId,
) -> Result<CellNets, NoMemory>
    ensures { IfOk result (λ nets. (done : List Id) → IsValid (S.design design.now) → AreKnown (S.design design.now) done (map (λ row. map facts_of row.items) cells.now)
        → HasChildrenIn (S.design design.now) cell done → AreTold (S.design design.now) cell (facts_of nets)) }
{
    let Some(body) = design.cell(cell) else {
        return Ok(CellNets::none(alloc));
    };
    if body.contents.is_none() {
        return Ok(CellNets::none(alloc));
    }
    body_nets(alloc, design, cells, cell, body)
}

/// Sets what is known of a cell.
pub(crate) fn set_cell(cells: &mut Vec<Vec<CellNets>>, cell: CellId, nets: CellNets)
    ensures { AreSetAt (map (λ row. map facts_of row.items) cells.old.items) cell (facts_of nets) (map (λ row. map facts_of row.items) cells.new.items) }
{
    if (cell.lib.0 as usize) < cells.len() {
        set_in(&mut cells[cell.lib.0 as usize], cell.slot, nets);
    }
}

/// Sets what is known of the cell at a place of a library.
fn set_in(row: &mut Vec<CellNets>, slot: u32, nets: CellNets)
    ensures { row.new.items ≡ set row.old.items slot nets }
{
    if (slot as usize) < row.len() {
        row[slot as usize] = nets;
    }
}
