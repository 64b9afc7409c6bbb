//! The pins that an occurrence shows, and the nets that join them.
ghost use Rattle.std.specs.Prelude.{◌≡◌, ◌≤◌, [], length, position, IfOk};
ghost use Rattle.std.specs.Option.{option_map_or};
ghost use Rattle.netlist_schema.specs.Design.{cell_at};
ghost use Rattle.netlist_schema.specs.declared.limits.TheConstants.{MOST_PORTS};
ghost use Rattle.flat_spec.specs.ConnectionTest.{has_end};
ghost use Rattle.flat_spec.specs.Paths.{nets_at};
ghost use Rattle.flat_spec.specs.Pins.{net_at_pin, net_joining, shown_bits};
ghost use Rattle.design_model.specs.Items.{bits_from};

use crate::meets::has_end;
use crate::walk::Occurrence;
use flat_lookup::{cell_along, nets_at};
use flat_spec::{NetAt, Path};
use netlist_schema::{CellBody, CellId, End, NoMemory, Port, Shown};
use std::alloc::Global;

/// The ports of a cell whose pins its occurrence at the path shows: all ports of the root and of a leaf.
fn ports_in<'a>(path: &[u32], body: &'a CellBody) -> &'a [Port]
    ensures bits { bits_from 0 result.now ≡ shown_bits path.now body.now }
    ensures few { length result.now ≤ length body.now.ports }
{
    if path.is_empty() {
        return body.ports.as_slice();
    }
    match &body.contents {
        None => body.ports.as_slice(),
        Some(_) => &[],
    }
}

/// The ports whose pins the occurrence shows: those of its cell, where it is the root or a leaf.
pub(crate) fn shown_ports<'a, S: Shown>(design: &'a S, occurrence: &Occurrence) -> &'a [Port]
    ensures bits { bits_from 0 result.now ≡ option_map_or (shown_bits occurrence.now.path) (cell_at (S.design design.now) occurrence.now.cell) [] }
    ensures few { length result.now ≤ MOST_PORTS }
{
    match design.cell(occurrence.cell()) {
        Some(body) => ports_in(occurrence.path().as_slice(), body),
        None => &[],
    }
}

/// The first net of the cell's contents that joins the end.
fn place_joining<S: Shown>(design: &S, cell: CellId, end: End) -> Option<u32>
    ensures { result ≡ position (λ net. has_end net.ends end) (nets_at (S.design design.now) cell) }
{
    let nets = nets_at(design, cell);
    for place in 0..nets.len() {
        if has_end(nets.at(place).ends.as_slice(), end) {
            return Some(place as u32);
        }
    }
    None
}

/// The first net that joins the end in the contents of the occurrence at the path.
fn net_joining<S: Shown>(
    alloc: Global,
    design: &S,
    root: CellId,
    path: &[u32],
    end: End,
) -> Result<Option<NetAt>, NoMemory>
    ensures { IfOk result (λ net. net ≡ net_joining (S.design design.now) root path.now end) }
{
    let Some(cell) = cell_along(design, root, path) else {
        return Ok(None);
    };
    let Some(net) = place_joining(design, cell, end) else {
        return Ok(None);
    };
    let path = Path::of(alloc, path)?;
    Ok(Some(NetAt { path, net }))
}

/// The net that joins a bit of a port of the occurrence at the path: the root's bit in its own contents, that of another in
/// the contents of its parent.
pub(crate) fn net_at_pin<S: Shown>(
    alloc: Global,
    design: &S,
    root: CellId,
    path: &[u32],
    port: u32,
    bit: u32,
) -> Result<Option<NetAt>, NoMemory>
    ensures { IfOk result (λ net. net ≡ net_at_pin (S.design design.now) root path.now (record { port = port; bit = bit })) }
{
    match path.split_last() {
        None => {
            let end = End {
                inst: None,
                port,
                bit,
            };
            net_joining(alloc, design, root, &[], end)
        }
        Some((step, above)) => {
            let end = End {
                inst: Some(*step),
                port,
                bit,
            };
            net_joining(alloc, design, root, above, end)
        }
    }
}
