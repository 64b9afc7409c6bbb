//! The interface of a cell: its ports, and properties of its own.
ghost use Rattle.std.specs.Prelude.{◌≡◌, ◌+◌, ◌<◌, ◌≤◌, ◌⊎◌, IfErr, [], OnOk, length, true};
ghost use Rattle.edif_spelling_spec.specs.Tree.{bare};
ghost use Rattle.netlist_schema.specs.Design.{port_width};
ghost use Rattle.netlist_schema.specs.declared.limits.TheConstants.{MOST_BITS, MOST_PORTS};
ghost use Rattle.edif_spec.specs.Faults.{those_of};
ghost use Rattle.edif_spec.specs.Rows.{has_keyword};
ghost use Rattle.edif_spec.specs.Stands.{InterfaceFault};
ghost use Rattle.edif_spec.specs.declared.keyword.Keyword.TheVariants.{Interface as InterfaceWord, Port as PortWord};
ghost use Rattle.edif_tree.specs.Handles.{here, all};
ghost use Rattle.edif_parts.specs.Interfaces.{PassesLimit, PortAdded, PortsFault, ReadInterface, ReadPorts};
ghost use Rattle.edif_parts.specs.Names.{IsAgain};
ghost use Rattle.edif_parts.specs.Reading.{Answers, Names as FailsBy};

use crate::error::{EdifError, over_limit};
use crate::names::Names;
use crate::parts::{read_parts, room_for};
use crate::ports::{PortAt, read_port};
use crate::properties::read_properties;
use bus_members::width;
use edif_grammar::is_form_of;
use edif_spec::Keyword;
use edif_tree::{Node, Nodes};
use netlist_schema::{MOST_BITS, MOST_PORTS, Port, Property, Row};
use std::alloc::Global;

/// What an interface says.
#[derive(Drop)]
pub struct Interface {
    /// The ports, in order.
    pub ports: Row<Port>,
    /// The interface's own properties.
    pub properties: Row<Property>,
    /// The names of the ports.
    pub names: Names,
}

/// The interface that a form at a node means.
pub fn read_interface(alloc: Global, node: Node<'_>) -> Result<Interface, EdifError>
    requires { has_keyword InterfaceWord (bare (here node)) ≡ true }
    ensures { Answers (ReadInterface (here node.entry)) (InterfaceFault (here node.entry)) result }
{
    let parts = read_parts(alloc, node, Keyword::Interface)?;
    let Ports { ports, names } = read_ports(alloc, parts.inner)?;
    let properties = read_properties(alloc, parts.inner)?;
    Ok(Interface {
        ports,
        properties,
        names,
    })
}

/// The ports of an interface, and their names.
#[derive(Drop)]
pub struct Ports {
    /// The ports, in order.
    pub ports: Row<Port>,
    /// Their names.
    pub names: Names,
}

/// Adds a port and its name, which is not there yet, for the form at a place, behind ports of so many bits: the bits with its own.
fn add_port(
    port: PortAt,
    at: u64,
    bits: u64,
    names: &mut Names,
    ports: &mut Vec<Port>,
) -> Result<u64, EdifError>
    requires { bits ≤ MOST_BITS }
    ensures { Answers (PortAdded port bits ports.old.items ports.new.items names.old names.new) (λ f. IsAgain names.old port.port.name.id port.place f ⊎ PassesLimit (length ports.old.items) (bits + port_width port.port) at f) result }
{
    let PortAt { port, place } = port;
    names.add(&port.name.id, place)?;
    let bits = bits + u64::from(width(&port));
    within_limits(ports.len(), bits, at)?;
    ports.push(port)?;
    Ok(bits)
}

/// The ports among these followers of an interface, as `read_ports` gives them; their names are put into a table without names.
fn add_ports(alloc: Global, inner: Nodes<'_>, names: &mut Names) -> Result<Row<Port>, EdifError>
    requires { names.old ≡ [] }
    ensures { Answers (λ ps. ReadPorts (all inner.entry) (record { ports = ps; names = names.new })) (PortsFault (those_of PortWord (all inner.entry))) result }
{
    let mut ports = room_for(alloc, inner, Keyword::Port)?;
    let mut bits = 0;
    for node in inner.iter() {
        if is_form_of(node, Keyword::Port) {
            let read = read_port(alloc, node)?;
            bits = add_port(read, node.place(), bits, names, &mut ports)?;
        }
    }
    Ok(Row::of(ports))
}

/// The ports among these followers of an interface.
fn read_ports(alloc: Global, inner: Nodes<'_>) -> Result<Ports, EdifError>
    ensures { Answers (ReadPorts (all inner.entry)) (PortsFault (those_of PortWord (all inner.entry))) result }
{
    let mut names = Names::for_forms(alloc, inner, Keyword::Port)?;
    let ports = add_ports(alloc, inner, &mut names)?;
    Ok(Ports { ports, names })
}

/// Whether a port at a place is within the limits, behind so many others, where so many bits are its own and theirs.
fn within_limits(ports: usize, bits: u64, place: u64) -> Result<(), EdifError>
    ensures ok { OnOk result ((ports < MOST_PORTS) × (bits ≤ MOST_BITS)) }
    ensures err { IfErr result (FailsBy (PassesLimit ports bits place)) }
{
    if ports >= MOST_PORTS {
        return Err(over_limit(MOST_PORTS as u64, place));
    }
    if bits > MOST_BITS {
        return Err(over_limit(MOST_BITS, place));
    }
    Ok(())
}
