//! The bits of ports.
ghost use Rattle.std.specs.Prelude.{◌≡◌, ◌≤◌, length};
ghost use Rattle.netlist_schema.specs.Design.{bit_count, port_width};
ghost use Rattle.netlist_schema.specs.declared.limits.TheConstants.{MOST_PORTS, MOST_WIDTH};

use netlist_schema::{CellBody, Port};

/// The number of bits of a port: the width of an array, from 1 to `MOST_WIDTH`, and 1 for a scalar. Takes no memory.
pub fn width(port: &Port) -> u32
    ensures width { result ≡ port_width port.now }
    ensures least { 1 ≤ result }
    ensures most { result ≤ MOST_WIDTH }
{
    match &port.array {
        Some(width) => width.get(),
        None => 1,
    }
}

/// The number of bits of all ports of a cell that has at most `MOST_PORTS` ports. Takes no memory.
pub fn bit_count(body: &CellBody) -> u64
    requires { length body.now.ports ≤ MOST_PORTS }
    ensures { result ≡ bit_count body.now }
{
    let mut bits = 0;
    for port in body.ports.as_slice() {
        bits += u64::from(width(port));
    }
    bits
}
