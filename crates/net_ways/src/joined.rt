//! The nets at a pin: that outside, and that inside.
ghost use Rattle.std.specs.Prelude.{◌≡◌, ◌++◌, ◌∷◌, [], Contains, IfOk, false, slice_get, true};
ghost use Rattle.std.specs.Option.{option_copied, option_map};
ghost use Rattle.flat_spec.specs.Pins.{own_bits};
ghost use Rattle.flat_items.specs.Lent.{net_of as net_lent};
ghost use Rattle.flat_items.specs.Stand.{IsGround, top_of};
ghost use Rattle.ask_spec.specs.Nets.{inner_net_of, net_of};
ghost use Rattle.net_ways.specs.Climb.{AreCellsOn, IsFirstAnswer};
ghost use Rattle.net_ways.specs.Ways.{AreWays};

use crate::climb::{cell_on, cells_from_top, climb};
use crate::ways::Ways;
use bus_members::width;
use flat_items::{Ground, NetRef};
use net_names::joined_net;
use netlist_schema::{CellId, NoMemory, Port, Shown};

/// The port with that place.
fn port_at(ports: &[Port], place: u32) -> Option<&Port>
    ensures { option_copied result ≡ slice_get ports.now place }
{
    ports.get(place as usize)
}

/// Whether the cell has that bit.
fn has_bit<S: Shown>(design: &S, cell: CellId, port: u32, bit: u32) -> bool
    ensures yes { result ≡ true → Contains (own_bits (S.design design.now) cell) (record { port = port; bit = bit }) }
    ensures no { result ≡ false → Contains (own_bits (S.design design.now) cell) (record { port = port; bit = bit }) → ⊥ }
{
    let Some(body) = design.cell(cell) else {
        return false;
    };
    match port_at(body.ports.as_slice(), port) {
        Some(found) => bit < width(found),
        None => false,
    }
}

/// The first net of the contents of a cell that is connected with its own bit: `None` exactly where no net joins it.
fn first_at<S: Shown + Drop>(ground: &Ground<S>, cell: CellId, port: u32, bit: u32) -> Option<u32>
    ensures { IsFirstAnswer (S.design ground.now.design) ground.now.classes cell (record { port = port; bit = bit }) result }
{
    if !has_bit(&ground.design, cell, port, bit) {
        return None;
    }
    ground.classes.first_at(cell, port, bit)
}

/// The first net of the design that is connected with the net which joins a bit of the occurrence at the path inside it, by the cells on
/// the path: `None` exactly where none does.
fn inner_first<'a, S: Shown + Drop>(
    ground: &Ground<S>,
    ways: &Ways,
    cells: &[CellId],
    path: &'a [u32],
    port: u32,
    bit: u32,
) -> Option<NetRef<'a>>
    requires ground { IsGround (S.design ground.now.design) ground.now.classes ground.now.notes }
    requires ways { AreWays (S.design ground.now.design) ground.now.classes ways.now }
    requires cells { AreCellsOn (S.design ground.now.design) (top_of (S.design ground.now.design)).cell path.now cells.now }
    ensures { option_map net_lent result ≡ inner_net_of (S.design ground.now.design) path.now port bit }
{
    let cell = cell_on(cells, path.len());
    match first_at(ground, cell, port, bit) {
        Some(net) => Some(climb(ground, ways, cells, path, net)),
        None => None,
    }
}

/// The first net of the design that is connected with the net which joins a bit of the occurrence at a path inside it: `None` exactly
/// where none does.
pub fn net_inside<'a, S: Shown + Drop>(
    ground: &Ground<S>,
    ways: &Ways,
    path: &'a [u32],
    port: u32,
    bit: u32,
) -> Result<Option<NetRef<'a>>, NoMemory>
    requires ground { IsGround (S.design ground.now.design) ground.now.classes ground.now.notes }
    requires ways { AreWays (S.design ground.now.design) ground.now.classes ways.now }
    ensures { IfOk result (λ found. option_map net_lent found ≡ inner_net_of (S.design ground.now.design) path.now port bit) }
{
    let found = cells_from_top(ground, path)?;
    match found {
        Some(cells) => Ok(inner_first(ground, ways, cells.as_slice(), path, port, bit)),
        None => Ok(None),
    }
}

/// A bit of a port of an instance, by their places.
#[derive(Clone, Copy)]
struct InstPin {
    inst: u32,
    port: u32,
    bit: u32,
}

/// The first net of the design that is connected with the net which joins a pin of an instance in the occurrence at the path, by the cells
/// on the path: `None` exactly where none does.
fn outer_first<'a, S: Shown + Drop>(
    ground: &Ground<S>,
    ways: &Ways,
    cells: &[CellId],
    above: &'a [u32],
    pin: InstPin,
) -> Option<NetRef<'a>>
    requires ground { IsGround (S.design ground.now.design) ground.now.classes ground.now.notes }
    requires ways { AreWays (S.design ground.now.design) ground.now.classes ways.now }
    requires cells { AreCellsOn (S.design ground.now.design) (top_of (S.design ground.now.design)).cell above.now cells.now }
    ensures { option_map net_lent result ≡ net_of (S.design ground.now.design) (above.now ++ pin.inst ∷ []) pin.port pin.bit }
{
    let cell = cell_on(cells, above.len());
    match joined_net(ground.classes.joints(cell), 0, pin.inst, pin.port, pin.bit) {
        Some(net) => Some(climb(ground, ways, cells, above, net)),
        None => None,
    }
}

/// The first net of the design that is connected with the net which joins a bit of an instance in the occurrence at a path: `None` exactly
/// where none does.
fn net_on<'a, S: Shown + Drop>(
    ground: &Ground<S>,
    ways: &Ways,
    above: &'a [u32],
    step: u32,
    port: u32,
    bit: u32,
) -> Result<Option<NetRef<'a>>, NoMemory>
    requires ground { IsGround (S.design ground.now.design) ground.now.classes ground.now.notes }
    requires ways { AreWays (S.design ground.now.design) ground.now.classes ways.now }
    ensures { IfOk result (λ found. option_map net_lent found ≡ net_of (S.design ground.now.design) (above.now ++ step ∷ []) port bit) }
{
    let pin = InstPin {
        inst: step,
        port,
        bit,
    };
    let found = cells_from_top(ground, above)?;
    match found {
        Some(cells) => Ok(outer_first(ground, ways, cells.as_slice(), above, pin)),
        None => Ok(None),
    }
}

/// The first net of the design that is connected with a bit of the occurrence at a path: `None` exactly where no net joins it.
pub fn net_joined<'a, S: Shown + Drop>(
    ground: &Ground<S>,
    ways: &Ways,
    path: &'a [u32],
    port: u32,
    bit: u32,
) -> Result<Option<NetRef<'a>>, NoMemory>
    requires ground { IsGround (S.design ground.now.design) ground.now.classes ground.now.notes }
    requires ways { AreWays (S.design ground.now.design) ground.now.classes ways.now }
    ensures { IfOk result (λ found. option_map net_lent found ≡ net_of (S.design ground.now.design) path.now port bit) }
{
    match path.split_last() {
        Some((step, above)) => net_on(ground, ways, above, *step, port, bit),
        None => net_inside(ground, ways, path, port, bit),
    }
}
