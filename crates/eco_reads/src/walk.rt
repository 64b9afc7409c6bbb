//! Walks over the cells below a cell, and along paths.
ghost use Rattle.std.specs.Prelude.{◌≡◌, ◌↔◌, ◌||◌, ◌&&◌, IfOk, IsTrue, MatchResult, OnOk, option_map};
ghost use Rattle.std.specs.List.{Contains};
ghost use Rattle.std.specs.Option.{option_copied};
ghost use Rattle.netlist_schema.specs.Design.{insts_in};
ghost use Rattle.edit_rules_spec.specs.Find.{inst_named, is_name};
ghost use Rattle.edit_rules_spec.specs.Reading.{IsReached};
ghost use Rattle.edit_rules_spec.specs.Paths.{goes_through, resolves, same_cell};
ghost use Rattle.edit_rules_spec.specs.Seen.{contents_at};
ghost use Rattle.edit_cells.specs.Parts.{IsInside};
ghost use Rattle.edit_cells.specs.State.{HasRead, HasReadSome};
ghost use Rattle.eco_reads.specs.Named.{AreNamed};
ghost use Rattle.eco_reads.specs.Walk.{GoesOn, IsAtOrBelow, IsInsideBelow, IsListed, IsPlaced};

use crate::find::inst_place;
use crate::named::NamedInsts;
use edit_cells::Cells;
use netlist_schema::{CellId, Contents, Ident, Inst, Listed, NoMemory, Parts, Row};
use std::alloc::Global;
use std::collections::BTreeSet;

/// Puts a cell on the list, where it was not seen yet.
fn add_cell(
    seen: &mut BTreeSet<CellId>,
    order: &mut Vec<CellId>,
    id: CellId,
) -> Result<(), NoMemory>
    requires { IsListed seen.old.keys order.old.items }
    ensures listed { OnOk result (IsListed seen.new.keys order.new.items) }
    ensures grows { OnOk result (GoesOn order.old.items order.new.items (λ x. x ≡ id)) }
{
    match seen.insert(id) {
        Ok(true) => {
            order.push(id)?;
            Ok(())
        }
        Ok(false) => Ok(()),
        Err(_) => Err(NoMemory),
    }
}

/// Puts the cells of the instances on the list, where they were not seen yet.
fn add_insts(
    insts: &Parts<Listed<Inst>>,
    seen: &mut BTreeSet<CellId>,
    order: &mut Vec<CellId>,
) -> Result<(), NoMemory>
    requires { IsListed seen.old.keys order.old.items }
    ensures listed { OnOk result (IsListed seen.new.keys order.new.items) }
    ensures grows { OnOk result (GoesOn order.old.items order.new.items (IsPlaced insts.now)) }
{
    for place in 0..insts.len() {
        add_cell(seen, order, insts.at(place).of)?;
    }
    Ok(())
}

/// Puts the cells of the instances of contents on the list, where they were not seen yet: the list goes on, and has just these
/// cells and those that it had. A leaf, which has no contents, adds none. After `NoMemory` neither is to be used.
#[tactic(auto, using(crate::proofs::Below::goes_nowhere))]
pub fn add_inside(
    contents: Option<&Contents>,
    seen: &mut BTreeSet<CellId>,
    order: &mut Vec<CellId>,
) -> Result<(), NoMemory>
    requires { IsListed seen.old.keys order.old.items }
    ensures listed { OnOk result (IsListed seen.new.keys order.new.items) }
    ensures grows { OnOk result (GoesOn order.old.items order.new.items (IsPlaced (insts_in (option_copied contents.entry)))) }
{
    match contents {
        Some(inside) => add_insts(&inside.insts, seen, order),
        None => Ok(()),
    }
}

/// Whether the two are one cell.
fn is_same_cell(a: CellId, b: CellId) -> bool
    ensures { IsTrue result ↔ (a ≡ b) }
{
    a.lib.0 == b.lib.0 && a.slot == b.slot
}

/// Whether the list has a cell.
fn has_cell(order: &Vec<CellId>, target: CellId) -> bool
    ensures yes { IsTrue result → Contains order.now.items target }
    ensures no { Contains order.now.items target → IsTrue result }
{
    for id in order {
        if is_same_cell(*id, target) {
            return true;
        }
    }
    false
}

/// Looks into a cell, and puts the cells of its instances on the list, where they were not seen yet.
#[tactic(auto, using(crate::proofs::Below::goes_inside, crate::proofs::Reading::read_some))]
fn look<C: Cells>(
    cells: &mut C,
    seen: &mut BTreeSet<CellId>,
    order: &mut Vec<CellId>,
    id: CellId,
) -> Result<(), NoMemory>
    requires { IsListed seen.old.keys order.old.items }
    ensures listed { OnOk result (IsListed seen.new.keys order.new.items) }
    ensures grows { OnOk result (GoesOn order.old.items order.new.items (IsPlaced (insts_in (contents_at (C.state cells.old).design id)))) }
    ensures reads { MatchResult result (λ _. HasRead (C.state cells.old) (C.state cells.new) (IsInside id)) (λ _. HasReadSome (C.state cells.old) (C.state cells.new)) }
{
    add_inside(cells.contents(id)?, seen, order)
}

/// Reads what is inside a cell and all cells below it, each once, and answers whether the target is one of them. The list
/// of cells that were seen is gone through from its front; it takes one step for each of them.
pub fn reaches<C: Cells>(
    alloc: Global,
    cells: &mut C,
    from: CellId,
    target: CellId,
) -> Result<bool, NoMemory>
    ensures found { IfOk result (λ found. IsTrue found ↔ IsAtOrBelow (C.state cells.old).design from target) }
    ensures reads { MatchResult result (λ _. HasRead (C.state cells.old) (C.state cells.new) (IsInsideBelow (C.state cells.old).design from)) (λ _. HasReadSome (C.state cells.old) (C.state cells.new)) }
{
    let mut seen = BTreeSet::new(alloc);
    let mut order = Vec::new(alloc);
    add_cell(&mut seen, &mut order, from)?;
    let mut next = 0usize;
    while next < order.len() {
        let id = order[next];
        let Ok(()) = look(cells, &mut seen, &mut order, id) else {
            return Err(NoMemory);
        };
        next += 1;
    }
    Ok(has_cell(&order, target))
}

/// The cell of the instance with this name.
fn cell_of_inst(contents: Option<&Contents>, name: &Ident) -> Option<CellId>
    ensures { result ≡ option_map (λ inst. inst.of) (inst_named name.now (insts_in (option_copied contents.entry))) }
{
    let contents = contents?;
    let place = inst_place(&contents.insts, name)?;
    Some(contents.insts.at(place).of)
}

/// Reads what is inside the cells that a path reaches, as far as it leads, and answers whether it leads to its end.
pub fn leads<C: Cells>(cells: &mut C, top: CellId, path: &Row<Ident>) -> Result<bool, NoMemory>
    ensures found { IfOk result (λ found. found ≡ resolves (C.state cells.old).design top path.now) }
    ensures reads { MatchResult result (λ _. HasRead (C.state cells.old) (C.state cells.new) (IsReached (C.state cells.old).design top path.now)) (λ _. HasReadSome (C.state cells.old) (C.state cells.new)) }
{
    let mut at = top;
    let _top = cells.contents(top)?;
    for step in path.as_slice() {
        let Some(of) = cell_of_inst(cells.contents(at)?, step) else {
            return Ok(false);
        };
        let _next = cells.contents(of)?;
        at = of;
    }
    Ok(true)
}

/// An instance of a cell, by its name, that is looked for on paths from a top.
#[derive(Clone, Copy)]
pub struct Crossed<'a> {
    pub top: CellId,
    pub cell: CellId,
    pub inst: &'a Ident,
}

/// Whether a path goes through an instance of a cell, so far or at this step.
fn passes(found: bool, at: CellId, cell: CellId, step: &Ident, inst: &Ident) -> bool
    ensures { result ≡ (found || (same_cell at cell && is_name step.now inst.now)) }
{
    found || (at.lib.0 == cell.lib.0 && at.slot == cell.slot && *step == *inst)
}

/// Reads what is inside the cells that a path reaches, and answers whether it goes through an instance of a cell. A step takes no
/// time in proportion to the instances of a cell whose names are known.
#[tactic(auto, using(crate::proofs::NamedLemmas::still_named, crate::proofs::NamedLemmas::named_still))]
pub fn goes_through<C: Cells>(
    alloc: Global,
    cells: &mut C,
    named: &mut NamedInsts,
    crossed: &Crossed<'_>,
    path: &Row<Ident>,
) -> Result<bool, NoMemory>
    requires { AreNamed (C.state cells.old).design named.old }
    ensures named { AreNamed (C.state cells.old).design named.new }
    ensures found { IfOk result (λ found. found ≡ goes_through (C.state cells.old).design crossed.now.cell crossed.now.inst.now crossed.now.top path.now) }
    ensures reads { MatchResult result (λ _. HasRead (C.state cells.old) (C.state cells.new) (IsReached (C.state cells.old).design crossed.now.top path.now)) (λ _. HasReadSome (C.state cells.old) (C.state cells.new)) }
{
    let mut at = crossed.top;
    let mut found = false;
    let _top = cells.contents(crossed.top)?;
    for step in path.as_slice() {
        found = passes(found, at, crossed.cell, step, crossed.inst);
        let Some(of) = named.next_cell(alloc, cells, at, step)? else {
            return Ok(found);
        };
        let _next = cells.contents(of)?;
        at = of;
    }
    Ok(found)
}
