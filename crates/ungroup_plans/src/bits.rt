//! The bits that nets join at one place.
ghost use Rattle.std.specs.Prelude.{◌≡◌, ◌≤◌, ◌++◌, IfOk, OnOk, length};
ghost use Rattle.std.specs.List.{flat_map};
ghost use Rattle.netlist_schema.specs.declared.limits.TheConstants.{MOST_NETS};
ghost use Rattle.ungroup_plans.specs.Bits.{bits_from, bits_of, is_there};

use netlist_schema::{End, Listed, Net, NoMemory, Parts};
use std::alloc::Global;

/// A bit of a port, by the places of the two, from 0.
#[derive(Clone, Copy, Debug, PartialEq, Eq, PartialOrd, Ord)]
pub struct PortBit {
    pub port: u32,
    pub bit: u32,
}

/// A bit, and the net that joins it.
#[derive(Clone, Copy, Debug)]
pub struct JoinedBit {
    pub at: PortBit,
    pub net: u32,
}

/// Whether an end with this instance is at that one; no instance is the cell itself.
fn is_there(inst: Option<u32>, of_end: Option<u32>) -> bool
    ensures { result ≡ is_there inst of_end }
{
    match inst {
        Some(inst) => match of_end {
            Some(other) => other == inst,
            None => false,
        },
        None => of_end.is_none(),
    }
}

/// Adds the bit of an end, where it is there.
fn add_bit(
    end: &End,
    inst: Option<u32>,
    net: u32,
    bits: &mut Vec<JoinedBit>,
) -> Result<(), NoMemory>
    ensures { OnOk result (bits.new.items ≡ bits.old.items ++ bits_of inst net end.now) }
{
    if is_there(inst, end.inst) {
        bits.push(JoinedBit {
            at: PortBit {
                port: end.port,
                bit: end.bit,
            },
            net,
        })?;
    }
    Ok(())
}

/// Adds the bits of ends that are there.
fn add_bits(
    ends: &[End],
    inst: Option<u32>,
    net: u32,
    bits: &mut Vec<JoinedBit>,
) -> Result<(), NoMemory>
    ensures { OnOk result (bits.new.items ≡ bits.old.items ++ flat_map (bits_of inst net) ends.now) }
{
    for end in ends {
        add_bit(end, inst, net, bits)?;
    }
    Ok(())
}

/// The bits that nets join at an instance, or as the cell's own, net by net.
pub(crate) fn joined_bits(
    alloc: Global,
    nets: &Parts<Listed<Net>>,
    inst: Option<u32>,
) -> Result<Vec<JoinedBit>, NoMemory>
    requires few { length nets.now ≤ MOST_NETS }
    ensures { IfOk result (λ bits. bits.items ≡ bits_from inst 0 nets.now) }
{
    let mut bits = Vec::new(alloc);
    for place in 0..nets.len() {
        let net = nets.at(place);
        add_bits(net.ends.as_slice(), inst, place as u32, &mut bits)?;
    }
    Ok(bits)
}
