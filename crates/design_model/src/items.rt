//! The items of one occurrence.
ghost use Rattle.std.specs.Prelude.{◌≡◌, ◌≤◌, ◌++◌, length, map, Contains, IfOk, OnOk};
ghost use Rattle.std.specs.List.{range_with_len};
ghost use Rattle.std.specs.Option.{option_map};
ghost use Rattle.netlist_schema.specs.Design.{Design};
ghost use Rattle.netlist_schema.specs.Valid.{IsValid};
ghost use Rattle.netlist_schema.specs.declared.limits.TheConstants.{MOST_PORTS};
ghost use Rattle.flat_spec.specs.Flattening.{net_item, pin_item};
ghost use Rattle.flat_spec.specs.Occurrences.{own_nets};
ghost use Rattle.flat_spec.specs.Paths.{at_path, Reaches};
ghost use Rattle.flat_spec.specs.Pins.{net_at_pin};
ghost use Rattle.flat_spec.specs.Representatives.{representative};
ghost use Rattle.design_model.specs.Items.{bit_at, bits_from, enter_item, items_below};
ghost use Rattle.design_model.specs.Tables.{AreTreeNets};

use crate::pins::{net_at_pin, shown_ports};
use crate::tree_nets::TreeNets;
use crate::walk::Occurrence;
use annot_view::effective;
use bus_members::width;
use flat_lookup::net_count;
use flat_spec::{Item, NetAt, Path};
use netlist_schema::{Copied, NoMemory, Port, Shown};
use std::alloc::Global;

/// The occurrence itself, with its effective properties.
fn enter_item<S: Shown>(
    alloc: Global,
    design: &S,
    occurrence: &Occurrence,
) -> Result<Item, NoMemory>
    ensures { IfOk result (λ item. item ≡ enter_item (S.design design.now) occurrence.now) }
{
    let path = occurrence.path();
    let properties = effective(alloc, design, path)?;
    Ok(Item::Enter {
        path: path.copy(alloc)?,
        cell: occurrence.cell(),
        properties,
    })
}

/// One net with its representative.
fn net_item(alloc: Global, nets: &TreeNets, path: &Path, net: u32) -> Result<Item, NoMemory>
    requires nets { (d : Design) × AreTreeNets d nets.now }
    requires listed { Contains nets.now.nets.items (at_path path.now net) }
    ensures { IfOk result (λ item. (d : Design) → AreTreeNets d nets.now → item ≡ net_item d nets.now.root (at_path path.now net)) }
{
    let first = nets.first_of(alloc, path, net)?;
    let path = path.copy(alloc)?;
    Ok(Item::Net { path, net, first })
}

/// Adds the nets of the occurrence.
fn add_nets<S: Shown>(
    alloc: Global,
    design: &S,
    nets: &TreeNets,
    occurrence: &Occurrence,
    items: &mut Vec<Item>,
) -> Result<(), NoMemory>
    requires valid { IsValid (S.design design.now) }
    requires nets { AreTreeNets (S.design design.now) nets.now }
    requires reached { Reaches (S.design design.now) nets.now.root occurrence.now.path occurrence.now.cell }
    ensures { OnOk result (items.new.items ≡ items.old.items ++ map (net_item (S.design design.now) nets.now.root) (own_nets (S.design design.now) occurrence.now)) }
{
    let path = occurrence.path();
    let count = net_count(design, occurrence.cell());
    for net in 0..count {
        let item = net_item(alloc, nets, path, net)?;
        items.push(item)?;
    }
    Ok(())
}

/// The representative of the net at a pin, where a net joins the pin.
fn first_at_pin<S: Shown>(
    alloc: Global,
    design: &S,
    nets: &TreeNets,
    path: &Path,
    port: u32,
    bit: u32,
) -> Result<Option<NetAt>, NoMemory>
    requires valid { IsValid (S.design design.now) }
    requires nets { AreTreeNets (S.design design.now) nets.now }
    ensures { IfOk result (λ first. first ≡ option_map (representative (S.design design.now) nets.now.root) (net_at_pin (S.design design.now) nets.now.root path.now (bit_at port bit))) }
{
    match net_at_pin(alloc, design, nets.root, path.as_slice(), port, bit)? {
        None => Ok(None),
        Some(net) => {
            let first = nets.first_of(alloc, &net.path, net.net)?;
            Ok(Some(first))
        }
    }
}

/// One pin with the representative of the net that joins it.
fn pin_item<S: Shown>(
    alloc: Global,
    design: &S,
    nets: &TreeNets,
    path: &Path,
    port: u32,
    bit: u32,
) -> Result<Item, NoMemory>
    requires valid { IsValid (S.design design.now) }
    requires nets { AreTreeNets (S.design design.now) nets.now }
    ensures { IfOk result (λ item. item ≡ pin_item (S.design design.now) nets.now.root path.now (bit_at port bit)) }
{
    let first = first_at_pin(alloc, design, nets, path, port, bit)?;
    Ok(Item::Pin {
        path: path.copy(alloc)?,
        port,
        bit,
        first,
    })
}

/// The bits of a port.
#[derive(Clone, Copy)]
struct PortBits {
    port: u32,
    count: u32,
}

/// Adds the pins of one port, bit by bit.
fn add_port<S: Shown>(
    alloc: Global,
    design: &S,
    nets: &TreeNets,
    path: &Path,
    bits: PortBits,
    items: &mut Vec<Item>,
) -> Result<(), NoMemory>
    requires valid { IsValid (S.design design.now) }
    requires nets { AreTreeNets (S.design design.now) nets.now }
    ensures { OnOk result (items.new.items ≡ items.old.items ++ map (pin_item (S.design design.now) nets.now.root path.now) (map (bit_at bits.port) (range_with_len 0 bits.count))) }
{
    for bit in 0..bits.count {
        let item = pin_item(alloc, design, nets, path, bits.port, bit)?;
        items.push(item)?;
    }
    Ok(())
}

/// Adds the pins of ports, port by port.
fn add_pins<S: Shown>(
    alloc: Global,
    design: &S,
    nets: &TreeNets,
    path: &Path,
    ports: &[Port],
    items: &mut Vec<Item>,
) -> Result<(), NoMemory>
    requires valid { IsValid (S.design design.now) }
    requires nets { AreTreeNets (S.design design.now) nets.now }
    requires few { length ports.now ≤ MOST_PORTS }
    ensures { OnOk result (items.new.items ≡ items.old.items ++ map (pin_item (S.design design.now) nets.now.root path.now) (bits_from 0 ports.now)) }
{
    for (place, port) in ports.iter().enumerate() {
        let bits = PortBits {
            port: place as u32,
            count: width(port),
        };
        add_port(alloc, design, nets, path, bits, items)?;
    }
    Ok(())
}

/// Adds the items of the occurrence: itself, its nets, and the pins that it shows.
pub(crate) fn add_items<S: Shown>(
    alloc: Global,
    design: &S,
    nets: &TreeNets,
    occurrence: &Occurrence,
    items: &mut Vec<Item>,
) -> Result<(), NoMemory>
    requires valid { IsValid (S.design design.now) }
    requires nets { AreTreeNets (S.design design.now) nets.now }
    requires reached { Reaches (S.design design.now) nets.now.root occurrence.now.path occurrence.now.cell }
    ensures { OnOk result (items.new.items ≡ items.old.items ++ items_below (S.design design.now) nets.now.root occurrence.now) }
{
    let enter = enter_item(alloc, design, occurrence)?;
    items.push(enter)?;
    add_nets(alloc, design, nets, occurrence, items)?;
    let ports = shown_ports(design, occurrence);
    add_pins(alloc, design, nets, occurrence.path(), ports, items)
}
