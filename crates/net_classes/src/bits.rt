//! The own bits of a cell, counted over all its ports.
ghost use Rattle.std.specs.Prelude.{◌≡◌, ◌≤◌, IfOk};
ghost use Rattle.netlist_schema.specs.Design.{bit_count};
ghost use Rattle.netlist_schema.specs.declared.limits.TheConstants.{MOST_BITS};
ghost use Rattle.net_classes.specs.Bits.{AreStarts};
ghost use Rattle.net_classes.specs.Facts.{number_of};

use bus_members::width;
use netlist_schema::{CellBody, NoMemory};
use std::alloc::Global;

/// For each port the number of bits of the ports before it.
pub(crate) fn port_starts(alloc: Global, body: &CellBody) -> Result<Vec<u32>, NoMemory>
    requires { bit_count body.now ≤ MOST_BITS }
    ensures { IfOk result (λ starts. AreStarts body.now.ports starts.items) }
{
    let mut starts = Vec::new(alloc);
    let mut bits = 0;
    for port in body.ports.as_slice() {
        starts.push(bits)?;
        bits += width(port);
    }
    Ok(starts)
}

/// The number of a bit among the own bits of a cell with these starts: `None` where the cell has no such port.
pub(crate) fn bit_number(starts: &[u32], port: u32, bit: u32) -> Option<usize>
    ensures { result ≡ number_of starts.now (record { port = port; bit = bit }) }
{
    let start = *starts.get(port as usize)?;
    Some(start as usize + bit as usize)
}
