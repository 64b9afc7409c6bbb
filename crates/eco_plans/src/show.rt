//! Operations that show.
ghost use Rattle.std.specs.Prelude.{◌≡◌, ◌++◌, IfOk, MatchResult, OnOk, None, Some, map, option_map, option_to_list};
ghost use Rattle.std.specs.List.{flat_map};
ghost use Rattle.edit_rules_spec.specs.Objects.{cell_name_at};
ghost use Rattle.edit_rules_spec.specs.declared.reply.Reply.TheVariants.{NoNet};
ghost use Rattle.edit_cells.specs.Parts.{IsFace, seen_at};
ghost use Rattle.edit_cells.specs.State.{HasRead, HasReadSome};
ghost use Rattle.eco_reads.specs.Outcome.{IsDoneOrRefused};
ghost use Rattle.eco_plans.specs.Shown.{AreFacesOf, seen_end, seen_name};

use crate::show_plans::{
    EndAt, cell_name, ends_of, inst_of, lib_name, port_count, port_name, shown,
};
use eco_reads::{OpError, read_named};
use edit_cells::Cells;
use edit_spec::{CellName, EndName, Op, Reply};
use netlist_schema::{CellId, Copied, Ident, NoMemory, Row};
use std::alloc::Global;

/// Counts the ports, instances and nets of a cell.
pub fn show_cell<C: Cells>(cells: &mut C, name: &CellName) -> Result<Reply, OpError>
    ensures { IsDoneOrRefused result (C.state cells.old) (C.state cells.new) (Op.ShowCell name.now) }
{
    let id = read_named(cells, name)?;
    let ports = port_count(cells.face(id)?);
    Ok(shown(ports, cells.contents(id)?))
}

/// Puts the name of an end on the list, where its port is there.
fn name_end<C: Cells>(
    alloc: Global,
    cells: &mut C,
    at: &EndAt,
    shown: &mut Vec<EndName>,
) -> Result<(), NoMemory>
    ensures named { OnOk result (shown.new.items ≡ shown.old.items ++ option_to_list (seen_name (C.state cells.old).design (seen_end at.now))) }
    ensures reads { MatchResult result (λ _. HasRead (C.state cells.old) (C.state cells.new) (IsFace at.now.of)) (λ _. HasReadSome (C.state cells.old) (C.state cells.new)) }
{
    let Some(port) = port_name(alloc, cells.face(at.of)?, at.port)? else {
        return Ok(());
    };
    shown.push(EndName {
        inst: at.inst.copy(alloc)?,
        port,
        bit: at.bit,
    })?;
    Ok(())
}

/// The names of ends.
fn name_ends<C: Cells>(
    alloc: Global,
    cells: &mut C,
    ends: &[EndAt],
) -> Result<Vec<EndName>, NoMemory>
    ensures named { IfOk result (λ made. made.items ≡ flat_map (λ seen. option_to_list (seen_name (C.state cells.old).design seen)) (map seen_end ends.now)) }
    ensures reads { MatchResult result (λ _. HasRead (C.state cells.old) (C.state cells.new) (AreFacesOf (map seen_end ends.now))) (λ _. HasReadSome (C.state cells.old) (C.state cells.new)) }
{
    let mut shown = Vec::new(alloc);
    for at in ends {
        let Ok(()) = name_end(alloc, cells, at, &mut shown) else {
            return Err(NoMemory);
        };
    }
    Ok(shown)
}

/// Gives the ends of a net by name.
pub fn show_net<C: Cells>(
    alloc: Global,
    cells: &mut C,
    name: &CellName,
    net: &Ident,
) -> Result<Reply, OpError>
    ensures { IsDoneOrRefused result (C.state cells.old) (C.state cells.new) (Op.ShowNet name.now net.now) }
{
    let id = read_named(cells, name)?;
    let Some(ends) = ends_of(alloc, cells.contents(id)?, id, net)? else {
        return Err(OpError::Refused(Reply::NoNet));
    };
    let shown = name_ends(alloc, cells, ends.as_slice())?;
    Ok(Reply::Net {
        ends: Row::of(shown),
    })
}

/// The name of a cell in its library. It never changes, so the look at the cell is no read.
fn own_name<C: Cells>(alloc: Global, cells: &mut C, id: CellId) -> Result<Option<Ident>, NoMemory>
    ensures found { IfOk result (λ found. found ≡ option_map (λ seen. seen.name.id) (seen_at (C.state cells.old).design id)) }
    ensures reads { MatchResult result (λ _. C.state cells.new ≡ C.state cells.old) (λ _. HasReadSome (C.state cells.old) (C.state cells.new)) }
{
    let mark = cells.mark();
    let found = cell_name(alloc, cells.face(id)?)?;
    cells.back(mark);
    Ok(found)
}

/// The name of a cell, with that of its library. Nothing is read.
fn name_of<C: Cells>(alloc: Global, cells: &mut C, id: CellId) -> Result<Option<CellName>, NoMemory>
    ensures found { IfOk result (λ found. found ≡ cell_name_at (C.state cells.old).design id) }
    ensures reads { MatchResult result (λ _. C.state cells.new ≡ C.state cells.old) (λ _. HasReadSome (C.state cells.old) (C.state cells.new)) }
{
    let cell = own_name(alloc, cells, id)?;
    let lib = lib_name(alloc, cells.lib_head(id.lib))?;
    let Some(cell) = cell else {
        return Ok(None);
    };
    let Some(lib) = lib else {
        return Ok(None);
    };
    Ok(Some(CellName { lib, cell }))
}

/// Gives an instance's cell and its own properties.
pub fn show_inst<C: Cells>(
    alloc: Global,
    cells: &mut C,
    name: &CellName,
    inst: &Ident,
) -> Result<Reply, OpError>
    ensures { IsDoneOrRefused result (C.state cells.old) (C.state cells.new) (Op.ShowInst name.now inst.now) }
{
    let id = read_named(cells, name)?;
    let Some((of, properties)) = inst_of(alloc, cells.contents(id)?, inst)? else {
        return Err(OpError::Refused(Reply::NoInst));
    };
    match name_of(alloc, cells, of)? {
        Some(of) => Ok(Reply::Inst { of, properties }),
        None => Err(OpError::Refused(Reply::NoInst)),
    }
}
