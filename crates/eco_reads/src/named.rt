//! The places of instances by their names, of the cells that paths visit.
ghost use Rattle.std.specs.Prelude.{◌≡◌, ◌≤◌, IfOk, IfSome, MatchResult, length, option_and_then, option_map, slice_get};
ghost use Rattle.std.specs.Option.{option_copied};
ghost use Rattle.netlist_schema.specs.Design.{Design, insts_in};
ghost use Rattle.netlist_schema.specs.Hierarchy.{insts_at};
ghost use Rattle.netlist_schema.specs.declared.limits.TheConstants.{MOST_INSTS};
ghost use Rattle.edit_rules_spec.specs.Find.{inst_named};
ghost use Rattle.edit_rules_spec.specs.Seen.{contents_at};
ghost use Rattle.edit_cells.specs.Parts.{HasLimits, IsInside};
ghost use Rattle.edit_cells.specs.State.{HasRead, HasReadSome};
ghost use Rattle.eco_reads.specs.Named.{AreNamed};

use crate::find::inst_place;
use crate::places::places_by_name;
use edit_cells::Cells;
use indexmap::IndexMap;
use netlist_schema::{CellId, Contents, Ident, Inst, Listed, NoMemory, Parts};
use std::alloc::Global;
use std::collections::BTreeMap;

/// How many questions are answered by going over the instances of a cell, before places are kept.
const FEW: u32 = 16;

/// The places of the instances of cells by their names, of each cell that was asked for. The first few questions are answered without
/// them: to go over a cell's instances once costs less than to keep a place for each.
pub struct NamedInsts {
    cells: BTreeMap<CellId, IndexMap<Ident, u32>>,
    /// The number of questions that were answered so.
    asked: u32,
}

impl Drop for NamedInsts {
    fn drop(self) {
        let NamedInsts { cells: _, asked: _ } = self;
    }
}

/// The cell of the instance at a place.
fn cell_at_place(insts: &Parts<Listed<Inst>>, place: Option<u32>) -> Option<CellId>
    ensures { result ≡ option_map (λ inst. inst.of) (option_and_then (slice_get insts.now) place) }
{
    let place = place?;
    let inst = insts.get(place as usize)?;
    Some(inst.of)
}

/// The cell of the first instance with this name.
fn cell_named(insts: &Parts<Listed<Inst>>, name: &Ident) -> Option<CellId>
    ensures { result ≡ option_map (λ inst. inst.of) (inst_named name.now insts.now) }
{
    let place = inst_place(insts, name)?;
    Some(insts.at(place).of)
}

impl NamedInsts {
    /// No cell was asked for. Takes no memory.
    pub fn new(alloc: Global) -> NamedInsts
        ensures { (d : Design) → AreNamed d result }
    {
        NamedInsts {
            cells: BTreeMap::new(alloc),
            asked: 0,
        }
    }

    /// The cell of the instance of a cell with this name. The first questions go over the instances of the cell, and so does the first
    /// later one about each cell.
    fn find(
        &mut self,
        alloc: Global,
        cell: CellId,
        insts: &Parts<Listed<Inst>>,
        name: &Ident,
    ) -> Result<Option<CellId>, NoMemory>
        requires { length insts.now ≤ MOST_INSTS }
        ensures named { (d : Design) → insts.now ≡ insts_at d cell → AreNamed d self.old → AreNamed d self.new }
        ensures found { IfOk result (λ of. (d : Design) → insts.now ≡ insts_at d cell → AreNamed d self.old → of ≡ option_map (λ inst. inst.of) (inst_named name.now insts.now)) }
    {
        if let Some(places) = self.cells.get(&cell) {
            return Ok(cell_at_place(insts, places.get(name).copied()));
        }
        if self.asked < FEW {
            self.asked += 1;
            return Ok(cell_named(insts, name));
        }
        let places = places_by_name(alloc, insts)?;
        let place = places.get(name).copied();
        self.cells.insert(cell, places)?;
        Ok(cell_at_place(insts, place))
    }

    /// The same in what is inside a cell, which is nothing in a leaf.
    #[tactic(auto, using(crate::proofs::NamedLemmas::insts_lent))]
    fn find_inside(
        &mut self,
        alloc: Global,
        cell: CellId,
        contents: Option<&Contents>,
        name: &Ident,
    ) -> Result<Option<CellId>, NoMemory>
        requires { IfSome contents (λ inside. HasLimits inside.now) }
        ensures named { (d : Design) → option_copied contents.entry ≡ contents_at d cell → AreNamed d self.old → AreNamed d self.new }
        ensures found { IfOk result (λ of. (d : Design) → option_copied contents.entry ≡ contents_at d cell → AreNamed d self.old → of ≡ option_map (λ inst. inst.of) (inst_named name.now (insts_in (option_copied contents.entry)))) }
    {
        match contents {
            Some(inside) => self.find(alloc, cell, &inside.insts, name),
            None => Ok(None),
        }
    }

    /// Looks into a cell, and answers the cell of its instance with this name.
    pub fn next_cell<C: Cells>(
        &mut self,
        alloc: Global,
        cells: &mut C,
        at: CellId,
        name: &Ident,
    ) -> Result<Option<CellId>, NoMemory>
        requires { AreNamed (C.state cells.old).design self.old }
        ensures named { AreNamed (C.state cells.old).design self.new }
        ensures found { IfOk result (λ of. of ≡ option_map (λ inst. inst.of) (inst_named name.now (insts_in (contents_at (C.state cells.old).design at)))) }
        ensures reads { MatchResult result (λ _. HasRead (C.state cells.old) (C.state cells.new) (IsInside at)) (λ _. HasReadSome (C.state cells.old) (C.state cells.new)) }
    {
        self.find_inside(alloc, at, cells.contents(at)?, name)
    }
}
