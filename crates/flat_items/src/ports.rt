//! The ports whose pins an occurrence shows.
ghost use Rattle.std.specs.Prelude.{◌≡◌, ◌≤◌, ◌<◌, length, slice_get};
ghost use Rattle.std.specs.Option.{option_copied};
ghost use Rattle.netlist_schema.specs.declared.limits.TheConstants.{MOST_PORTS};
ghost use Rattle.flat_items.specs.Ports.{ports_in, ports_shown, pin_behind};

use crate::place::PinAt;
use netlist_schema::{CellBody, CellId, Port, Shown};

/// All ports of a cell at the top and of a leaf, none of another.
fn ports_in<'a>(path: &[u32], body: &'a CellBody) -> &'a [Port]
    ensures ports { result.now ≡ ports_in path.now body.now }
    ensures few { length result.now ≤ length body.now.ports }
{
    if path.is_empty() {
        return body.ports.as_slice();
    }
    match &body.contents {
        None => body.ports.as_slice(),
        Some(_) => &[],
    }
}

/// The ports whose pins the occurrence at the path shows.
#[inline(always)]
pub(crate) fn shown_ports<'a, S: Shown>(design: &'a S, path: &[u32], cell: CellId) -> &'a [Port]
    ensures ports { result.now ≡ ports_shown (S.design design.now) (record { path = path.now; cell = cell }) }
    ensures few { length result.now ≤ MOST_PORTS }
{
    match design.cell(cell) {
        Some(body) => ports_in(path, body),
        None => &[],
    }
}

/// The port with that place.
#[inline(always)]
pub(crate) fn port_at(ports: &[Port], place: u32) -> Option<&Port>
    ensures { option_copied result ≡ slice_get ports.now place }
{
    ports.get(place as usize)
}

impl PinAt {
    /// The first pin of an occurrence.
    pub const FIRST: PinAt = PinAt {
        number: 0,
        port: 0,
        bit: 0,
    };

    /// The pin behind this one, whose port has that width.
    pub fn behind(self, width: u32) -> PinAt
        requires number { self.number < 4294967295 }
        requires port { self.port < 4294967295 }
        requires bit { self.bit < 4294967295 }
        ensures { result ≡ pin_behind self width }
    {
        let number = self.number + 1;
        if self.bit + 1 < width {
            PinAt {
                number,
                port: self.port,
                bit: self.bit + 1,
            }
        } else {
            PinAt {
                number,
                port: self.port + 1,
                bit: 0,
            }
        }
    }
}
