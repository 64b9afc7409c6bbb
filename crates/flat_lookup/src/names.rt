//! The identifiers of ports and nets.
ghost use Rattle.std.specs.Prelude.{◌≡◌, [], option_and_then, slice_get};
ghost use Rattle.std.specs.Option.{option_copied, option_map_or};
ghost use Rattle.flat_spec.specs.Paths.{nets_at, port_of_cell};

use crate::contents::net_at;
use netlist_schema::{CellId, Net, Port, Shown};

/// The port of this number of a cell, where there is the cell and such a port.
#[inline(always)]
fn port_in<S: Shown>(design: &S, cell: Option<CellId>, place: u32) -> Option<&Port>
    ensures { option_copied result ≡ port_of_cell (S.design design.now) cell place }
{
    let Some(id) = cell else {
        return None;
    };
    let Some(body) = design.cell(id) else {
        return None;
    };
    body.ports.as_slice().get(place as usize)
}

/// The net of this number of a cell, where there is the cell and such a net.
#[inline(always)]
fn net_in<S: Shown>(design: &S, cell: Option<CellId>, place: u32) -> Option<&Net>
    ensures { option_copied result ≡ option_and_then (λ id. slice_get (nets_at (S.design design.now) id) place) cell }
{
    let Some(id) = cell else {
        return None;
    };
    net_at(design, id, place)
}

/// The identifier of a port of a cell; nothing where there is no cell, or no such port. Takes no memory.
#[inline(always)]
pub fn port_name<S: Shown>(design: &S, cell: Option<CellId>, place: u32) -> &[u8]
    ensures { result.now ≡ option_map_or (λ port. port.name.id) (port_of_cell (S.design design.now) cell place) [] }
{
    match port_in(design, cell, place) {
        Some(port) => port.name.id.as_slice(),
        None => &[],
    }
}

/// The identifier of a net of a cell; nothing where there is no cell, or no such net. Takes no memory.
#[inline(always)]
pub fn net_name<S: Shown>(design: &S, cell: Option<CellId>, place: u32) -> &[u8]
    ensures { result.now
        ≡ option_map_or (λ net. net.name.id) (option_and_then (λ id. slice_get (nets_at (S.design design.now) id) place) cell) [] }
{
    match net_in(design, cell, place) {
        Some(net) => net.name.id.as_slice(),
        None => &[],
    }
}
