//! Nets of two contents that join the same bit of an instance.
ghost use Rattle.std.specs.Prelude.{◌≡◌, ◌<◌, ◌+◌, ◌++◌, ◌^◌, IfOk, OnOk, option_to_list};
ghost use Rattle.std.specs.BTreeMap.{get};
ghost use Rattle.std.specs.List.{All, filter_map};
ghost use Rattle.ungroup_plans.specs.Links.{HasNets, bit_cmp, link};

use crate::bits::{JoinedBit, PortBit};
use flat_joined_numbers::Pair;
use netlist_schema::NoMemory;
use std::alloc::Global;
use std::collections::BTreeMap;

/// For each bit a net that joins it.
pub(crate) fn nets_by_bit(
    alloc: Global,
    bits: &[JoinedBit],
) -> Result<BTreeMap<PortBit, u32>, NoMemory>
    ensures { IfOk result (λ nets. HasNets bits.now (get bit_cmp nets)) }
{
    let mut nets = BTreeMap::new(alloc);
    for joined in bits {
        nets.insert(joined.at, joined.net)?;
    }
    Ok(nets)
}

/// Adds the pair of an outer net and an inner one that join the same bit. Inner nets are numbered behind the outer ones.
fn add_link(
    outer: &BTreeMap<PortBit, u32>,
    joined: JoinedBit,
    behind: u32,
    pairs: &mut Vec<Pair>,
) -> Result<(), NoMemory>
    requires { behind + joined.net < 2 ^ 32 }
    ensures { OnOk result (pairs.new.items ≡ pairs.old.items ++ option_to_list (link (get bit_cmp outer.now) behind joined)) }
{
    match outer.get(&joined.at).copied() {
        Some(first) => pairs.push(Pair {
            first,
            second: behind + joined.net,
        })?,
        None => {}
    }
    Ok(())
}

/// The pairs of an outer net and an inner one that join the same bit. Inner nets are numbered behind the outer ones.
pub(crate) fn list_links(
    alloc: Global,
    outer: &BTreeMap<PortBit, u32>,
    inner: &[JoinedBit],
    behind: u32,
) -> Result<Vec<Pair>, NoMemory>
    requires { All (λ j. behind + j.net < 2 ^ 32) inner.now }
    ensures { IfOk result (λ pairs. pairs.items ≡ filter_map (link (get bit_cmp outer.now) behind) inner.now) }
{
    let mut pairs = Vec::new(alloc);
    for joined in inner {
        add_link(outer, *joined, behind, &mut pairs)?;
    }
    Ok(pairs)
}
