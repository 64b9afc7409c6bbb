//! The ends of each net afterwards.
ghost use Rattle.std.specs.Prelude.{◌≡◌, ◌<◌, ◌≤◌, ◌+◌, ◌++◌, IfOk, OnOk, length, map, option_to_list};
ghost use Rattle.std.specs.List.{All, flat_map};
ghost use Rattle.netlist_schema.specs.Types.{Inst};
ghost use Rattle.netlist_schema.specs.declared.limits.TheConstants.{MOST_INSTS};
ghost use Rattle.ungroup_spec.specs.Dissolved.{ends_up};
ghost use Rattle.ungroup_spec.specs.Groups.{parts};
ghost use Rattle.ungroup_plans.specs.Ends.{inner_ends, inner_up, outer_ends, outer_up};
ghost use Rattle.ungroup_plans.specs.Heads.{AreSound, IsLow, site};

use netlist_schema::{Contents, End, Listed, Net, NoMemory, Parts, Row};
use std::alloc::Global;

/// The end of an outer net afterwards: none at the instance itself; behind it, as many places on as there are children, less one.
fn outer_end(end: &End, place: u32, children: u32) -> Option<End>
    requires low { IsLow end.now }
    requires few { children ≤ MOST_INSTS }
    ensures { option_to_list result ≡ outer_up place children end.now end.now.inst }
{
    match end.inst {
        None => Some(*end),
        Some(i) => {
            if i == place {
                None
            } else if place < i {
                Some(End {
                    inst: Some(i + children - 1),
                    port: end.port,
                    bit: end.bit,
                })
            } else {
                Some(*end)
            }
        }
    }
}

/// The end of an inner net afterwards: none where it is the cell's own.
fn inner_end(end: &End, place: u32) -> Option<End>
    requires low { IsLow end.now }
    requires place { place < MOST_INSTS }
    ensures { option_to_list result ≡ inner_up place end.now end.now.inst }
{
    match end.inst {
        None => None,
        Some(j) => Some(End {
            inst: Some(place + j),
            port: end.port,
            bit: end.bit,
        }),
    }
}

fn outer_ends(alloc: Global, ends: &[End], place: u32, children: u32) -> Result<Row<End>, NoMemory>
    requires low { All IsLow ends.now }
    requires few { children ≤ MOST_INSTS }
    ensures { IfOk result (λ made. made ≡ flat_map (λ end. outer_up place children end end.inst) ends.now) }
{
    let mut made = Vec::new(alloc);
    for end in ends {
        if let Some(end) = outer_end(end, place, children) {
            made.push(end)?;
        }
    }
    Ok(Row::of(made))
}

fn inner_ends(alloc: Global, ends: &[End], place: u32) -> Result<Row<End>, NoMemory>
    requires low { All IsLow ends.now }
    requires place { place < MOST_INSTS }
    ensures { IfOk result (λ made. made ≡ flat_map (λ end. inner_up place end end.inst) ends.now) }
{
    let mut made = Vec::new(alloc);
    for end in ends {
        if let Some(end) = inner_end(end, place) {
            made.push(end)?;
        }
    }
    Ok(Row::of(made))
}

fn add_outer(
    alloc: Global,
    nets: &Parts<Listed<Net>>,
    place: u32,
    children: u32,
    lists: &mut Vec<Row<End>>,
) -> Result<(), NoMemory>
    requires low { All (λ net. All IsLow net.ends) nets.now }
    requires few { children ≤ MOST_INSTS }
    ensures { OnOk result (lists.new.items ≡ lists.old.items ++ map (outer_ends place children) nets.now) }
{
    for k in 0..nets.len() {
        let net = nets.at(k);
        lists.push(outer_ends(alloc, net.ends.as_slice(), place, children)?)?;
    }
    Ok(())
}

fn add_inner(
    alloc: Global,
    nets: &Parts<Listed<Net>>,
    place: u32,
    lists: &mut Vec<Row<End>>,
) -> Result<(), NoMemory>
    requires low { All (λ net. All IsLow net.ends) nets.now }
    requires place { place < MOST_INSTS }
    ensures { OnOk result (lists.new.items ≡ lists.old.items ++ map (inner_ends place) nets.now) }
{
    for k in 0..nets.len() {
        let net = nets.at(k);
        lists.push(inner_ends(alloc, net.ends.as_slice(), place)?)?;
    }
    Ok(())
}

/// The ends of each net afterwards, each net for itself: those of the nets around the instance, and then of those within it.
pub(crate) fn list_ends(
    alloc: Global,
    around: &Contents,
    place: u32,
    within: &Contents,
) -> Result<Vec<Row<End>>, NoMemory>
    requires around { AreSound around.now }
    requires within { AreSound within.now }
    requires place { place < length around.now.insts }
    ensures long { IfOk result (λ lists. length lists.items ≡ length around.now.nets + length within.now.nets) }
    ensures ends { IfOk result (λ lists. (inst : Inst) → let s = site around.now place inst within.now in lists.items ≡ map (ends_up s) (parts s)) }
{
    let children = within.insts.len();
    let mut lists = Vec::new(alloc);
    add_outer(alloc, &around.nets, place, children as u32, &mut lists)?;
    add_inner(alloc, &within.nets, place, &mut lists)?;
    Ok(lists)
}
