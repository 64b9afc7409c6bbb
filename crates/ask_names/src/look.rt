//! Look-ups by name, by the orders of all cells.
ghost use Rattle.std.specs.Prelude.{◌≡◌, IfOk, MatchOption, None, map};
ghost use Rattle.std.specs.Option.{option_map};
ghost use Rattle.netlist_schema.specs.Design.{cell_at};
ghost use Rattle.netlist_schema.specs.Hierarchy.{insts_at};
ghost use Rattle.edit_rules_spec.specs.Find.{inst_place, net_place, port_place};
ghost use Rattle.flat_spec.specs.Paths.{nets_at};
ghost use Rattle.ask_names.specs.Places.{path_named, places_along, ports_at};
ghost use Rattle.ask_names.specs.Orders.{AreOrders, AreOrdersOf};

use crate::index::{Index, Orders, ports_at};
use crate::order::place_in;
use crate::texts::names_in;
use flat_lookup::{inst_at, insts_at, nets_at};
use flat_spec::Path;
use netlist_schema::{CellId, NoMemory, Shown};
use std::alloc::Global;

/// The orders of a cell: `None` exactly where there is no such cell.
fn orders_at<'a, S: Shown>(design: &S, index: &'a Index, cell: CellId) -> Option<&'a Orders>
    requires { AreOrders (S.design design.now) index.now }
    ensures { MatchOption result (cell_at (S.design design.now) cell ≡ None) (λ orders. AreOrdersOf (S.design design.now) cell orders.now) }
{
    match design.cell(cell) {
        Some(_) => index.orders(cell),
        None => None,
    }
}

/// The place of the instance of a cell with this identifier.
pub(crate) fn inst_in<S: Shown>(design: &S, index: &Index, cell: CellId, name: &[u8]) -> Option<u32>
    requires { AreOrders (S.design design.now) index.now }
    ensures { result ≡ inst_place name.now (insts_at (S.design design.now) cell) }
{
    match orders_at(design, index, cell) {
        Some(orders) => place_in(&insts_at(design, cell), orders.insts.as_slice(), name),
        None => None,
    }
}

/// The place of the net of a cell with this identifier.
pub(crate) fn net_in<S: Shown>(design: &S, index: &Index, cell: CellId, name: &[u8]) -> Option<u32>
    requires { AreOrders (S.design design.now) index.now }
    ensures { result ≡ net_place name.now (nets_at (S.design design.now) cell) }
{
    match orders_at(design, index, cell) {
        Some(orders) => place_in(&nets_at(design, cell), orders.nets.as_slice(), name),
        None => None,
    }
}

/// The place of the port of a cell with this identifier.
pub(crate) fn port_in<S: Shown>(design: &S, index: &Index, cell: CellId, name: &[u8]) -> Option<u32>
    requires { AreOrders (S.design design.now) index.now }
    ensures { result ≡ port_place name.now (ports_at (S.design design.now) cell) }
{
    match orders_at(design, index, cell) {
        Some(orders) => place_in(&ports_at(design, cell), orders.ports.as_slice(), name),
        None => None,
    }
}

/// The places of the instances with these names, from a cell downwards.
fn places_along<S: Shown>(
    alloc: Global,
    design: &S,
    index: &Index,
    root: CellId,
    names: &[&[u8]],
) -> Result<Option<Vec<u32>>, NoMemory>
    requires { AreOrders (S.design design.now) index.now }
    ensures { IfOk result (λ found. option_map (λ steps. steps.items) found ≡ places_along (S.design design.now) root (map (λ x. x.now) names.now)) }
{
    let mut steps = Vec::new(alloc);
    let mut cell = root;
    for name in names {
        let Some(place) = inst_in(design, index, cell, name) else {
            return Ok(None);
        };
        let Some(inst) = inst_at(design, cell, place) else {
            return Ok(None);
        };
        steps.push(place)?;
        cell = inst.of;
    }
    Ok(Some(steps))
}

/// The path of these steps, where there are some.
fn path_of(alloc: Global, steps: Option<Vec<u32>>) -> Result<Option<Path>, NoMemory>
    ensures { IfOk result (λ path. path ≡ option_map (λ steps. steps.items) steps) }
{
    match steps {
        Some(steps) => Ok(Some(Path::of(alloc, steps.as_slice())?)),
        None => Ok(None),
    }
}

/// The path from the top that has this text.
pub(crate) fn path_in<S: Shown>(
    alloc: Global,
    design: &S,
    index: &Index,
    text: &[u8],
) -> Result<Option<Path>, NoMemory>
    requires { AreOrders (S.design design.now) index.now }
    ensures { IfOk result (λ path. path ≡ path_named (S.design design.now) text.now) }
{
    let Some(top) = design.top() else {
        return Ok(None);
    };
    let names = names_in(alloc, text)?;
    let steps = places_along(alloc, design, index, top.cell, names.as_slice())?;
    path_of(alloc, steps)
}
