//! Cells that are planned.
ghost use Rattle.std.specs.Prelude.{◌≡◌, ◌≤◌, ◌<◌, ◌+◌, drop, IfOk, codes, length, map, not, sum_by};
ghost use Rattle.std.specs.List.{list_any};
ghost use Rattle.netlist_schema.specs.Design.{port_width};
ghost use Rattle.netlist_schema.specs.declared.limits.TheConstants.{MOST_PORTS, MOST_WIDTH};
ghost use Rattle.edit_rules_spec.specs.Find.{is_same};
ghost use Rattle.edit_rules_spec.specs.Rule.{first};
ghost use Rattle.edit_spec.specs.AddCell.{has_twice, new_cell, new_port, no_new_cell};
ghost use Rattle.eco_reads.specs.Outcome.{UnlessNoMemory};
ghost use Rattle.eco_plans.specs.Add.{IsCellPlanned};

use eco_reads::OpError;
use edit_cells::is_same;
use edit_spec::{PortDecl, Reply};
use netlist_schema::{
    CellBody, CellKind, Contents, Copied, Ident, MOST_BITS, MOST_CELLS, MOST_PORTS, Name, NoMemory,
    Parts, Port, Row, Shared,
};
use std::alloc::Global;

/// Whether one of the others has the name of this port, where case is ignored.
fn is_among(port: &PortDecl, others: &[PortDecl]) -> bool
    ensures { result ≡ list_any (λ other. is_same port.now.name other.name) others.now }
{
    others.iter().any(|other| is_same(&port.name, &other.name))
}

/// The ports behind that at a place.
fn later(ports: &[PortDecl], place: usize) -> &[PortDecl]
    requires { place < length ports.now }
    ensures { result.now ≡ drop (place + 1) ports.now }
{
    &ports[place + 1..]
}

/// Whether two of these ports have one name, where case is ignored.
fn has_twice(ports: &[PortDecl]) -> bool
    ensures { result ≡ has_twice (map (λ port. port.name) ports.now) }
{
    for i in 0..ports.len() {
        let port = &ports[i];
        let others = later(ports, i);
        if is_among(port, others) {
            return true;
        }
    }
    false
}

/// The number of bits of a new port.
fn port_bits(port: &PortDecl) -> u64
    ensures value { result ≡ port_width (new_port port.now) }
    ensures limit { result ≤ MOST_WIDTH }
{
    match &port.array {
        Some(width) => u64::from(width.get()),
        None => 1,
    }
}

/// The number of bits of these ports.
fn bit_count(ports: &[PortDecl]) -> u64
    requires { length ports.now ≤ MOST_PORTS }
    ensures { result ≡ sum_by port_width (map new_port ports.now) }
{
    let mut bits = 0u64;
    for port in ports {
        bits += port_bits(port);
    }
    bits
}

/// A new port.
fn new_port(alloc: Global, decl: &PortDecl) -> Result<Port, NoMemory>
    ensures { IfOk result (λ made. made ≡ new_port decl.now) }
{
    Ok(Port {
        name: Name {
            id: decl.name.copy(alloc)?,
            shown: None,
        },
        array: decl.array.copy(alloc)?,
        direction: decl.direction,
        designator: None,
        properties: Row::of(Vec::new(alloc)),
    })
}

fn new_ports(alloc: Global, decls: &[PortDecl]) -> Result<Row<Port>, NoMemory>
    ensures { IfOk result (λ made. made ≡ map new_port decls.now) }
{
    let mut ports = Vec::new(alloc);
    for decl in decls {
        ports.push(new_port(alloc, decl)?)?;
    }
    Ok(Row::of(ports))
}

/// The name of the view of a new cell.
fn view_name(alloc: Global) -> Result<Ident, NoMemory>
    ensures { IfOk result (λ made. made ≡ codes "netlist") }
{
    match Ident::of(alloc, b"netlist")? {
        Some(name) => Ok(name),
        None => unreachable!(),
    }
}

/// A new cell with these ports, as a leaf or with empty contents.
fn new_cell(
    alloc: Global,
    name: &Ident,
    leaf: bool,
    ports: &[PortDecl],
) -> Result<CellBody, NoMemory>
    ensures { IfOk result (λ made. made ≡ new_cell name.now leaf ports.now) }
{
    let contents = if leaf {
        None
    } else {
        Some(Contents {
            insts: Parts::new(alloc),
            nets: Parts::new(alloc),
        })
    };
    Ok(CellBody {
        name: Name {
            id: name.copy(alloc)?,
            shown: None,
        },
        kind: CellKind::Generic,
        properties: Row::of(Vec::new(alloc)),
        view: Name {
            id: view_name(alloc)?,
            shown: None,
        },
        view_properties: Row::of(Vec::new(alloc)),
        interface_properties: Row::of(Vec::new(alloc)),
        ports: new_ports(alloc, ports)?,
        contents: Shared::of_some(alloc, contents)?,
    })
}

/// A new cell for a library of this many cells, in which its name is free or not; or why there is none.
pub(crate) fn plan_cell(
    alloc: Global,
    free: bool,
    count: u32,
    name: &Ident,
    leaf: bool,
    ports: &[PortDecl],
) -> Result<CellBody, OpError>
    ensures { UnlessNoMemory (IsCellPlanned (first (no_new_cell (not free) count ports.now)) (new_cell name.now leaf ports.now)) result }
{
    if !free {
        return Err(OpError::Refused(Reply::Taken));
    }
    if has_twice(ports) {
        return Err(OpError::Refused(Reply::Taken));
    }
    if count as usize >= MOST_CELLS {
        return Err(OpError::Refused(Reply::TooMany {
            limit: MOST_CELLS as u64,
        }));
    }
    if ports.len() > MOST_PORTS {
        return Err(OpError::Refused(Reply::TooMany {
            limit: MOST_PORTS as u64,
        }));
    }
    if bit_count(ports) > MOST_BITS {
        return Err(OpError::Refused(Reply::TooMany { limit: MOST_BITS }));
    }
    Ok(new_cell(alloc, name, leaf, ports)?)
}
