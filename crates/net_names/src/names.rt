//! The names of the nets of an occurrence.
ghost use Rattle.std.specs.Prelude.{◌≡◌, ◌<◌, ℕ, Some, IfOk, IsSome, length};
ghost use Rattle.std.specs.List.{All};
ghost use Rattle.flat_spec.specs.Paths.{nets_at};
ghost use Rattle.net_classes.specs.Facts.{first_at};
ghost use Rattle.net_names.specs.Names.{AreHanded, AreOwnNames, IsHandedOne, first_of, name_in};

use flat_lookup::net_count;
use net_classes::{Classes, Joint};
use netlist_schema::{CellId, NoMemory, Shown};
use std::alloc::Global;

/// A net of an occurrence on the way from the top, by the number of steps that lead to it.
#[derive(Clone, Copy, Debug, PartialEq, Eq)]
pub struct NetName {
    pub depth: u32,
    pub net: u32,
}

/// The name of a net: that of the first net that is connected with it inside. Takes no memory.
#[inline(always)]
pub fn name_of(names: &[NetName], firsts: &[u32], net: u32) -> Option<NetName>
    ensures { result ≡ name_in names.now firsts.now net }
{
    let first = *firsts.get(net as usize)?;
    names.get(first as usize).copied()
}

/// Each net by itself.
fn own_names(alloc: Global, depth: u32, count: u32) -> Result<Vec<NetName>, NoMemory>
    ensures { IfOk result (λ names. AreOwnNames depth count names.items) }
{
    let mut names = Vec::new(alloc);
    for net in 0..count {
        names.push(NetName { depth, net })?;
    }
    Ok(names)
}

/// Gives the first net inside the name of the net outside that the joint joins with it.
fn hand_one(
    classes: &Classes,
    cell: CellId,
    joint: &Joint,
    outside: &[NetName],
    firsts: &[u32],
    names: &mut Vec<NetName>,
)
    ensures { IsHandedOne (first_of classes.now cell joint.now) (name_in outside.now firsts.now joint.now.net) names.old.items names.new.items }
{
    let Some(first) = classes.first_at(cell, joint.port, joint.bit) else {
        return;
    };
    let Some(name) = name_of(outside, firsts, joint.net) else {
        return;
    };
    if (first as usize) < names.len() {
        names[first as usize] = name;
    }
}

/// The names of the nets of the top: each first net inside by itself.
pub fn top_names<S: Shown>(alloc: Global, design: &S, top: CellId) -> Result<Vec<NetName>, NoMemory>
    ensures { IfOk result (λ names. AreOwnNames 0 (length (nets_at (S.design design.now) top)) names.items) }
{
    own_names(alloc, 0, net_count(design, top))
}

/// What the nets of an instance's cell are named by: the joints of the parent that are on the instance, the names of the parent's nets
/// and the first nets inside the parent.
#[derive(Clone, Copy)]
pub struct Above<'a> {
    pub joints: &'a [Joint],
    pub names: &'a [NetName],
    pub firsts: &'a [u32],
}

/// The names of the nets of an instance's cell at this depth, where this is what they are named by: each first net has the name of a
/// net of the parent that joins an own bit that is connected with it, and where there is none, its own.
#[inline(always)]
pub fn names_below<S: Shown>(
    alloc: Global,
    design: &S,
    classes: &Classes,
    cell: CellId,
    depth: u32,
    above: &Above<'_>,
) -> Result<Vec<NetName>, NoMemory>
    requires { All (λ j. IsSome (name_in above.now.names.now above.now.firsts.now j.net)) above.now.joints.now }
    ensures { IfOk result (λ names. AreHanded (first_of classes.now cell) (name_in above.now.names.now above.now.firsts.now) depth above.now.joints.now (length (nets_at (S.design design.now) cell)) names.items) }
{
    let count = net_count(design, cell);
    if count == 0 {
        return Ok(Vec::new(alloc));
    }
    let mut names = own_names(alloc, depth, count)?;
    hand_down(
        classes,
        cell,
        above.joints,
        above.names,
        above.firsts,
        &mut names,
    );
    Ok(names)
}

/// Gives each first net inside the name of a net outside that one of the joints joins with it.
fn hand_down(
    classes: &Classes,
    cell: CellId,
    joints: &[Joint],
    outside: &[NetName],
    firsts: &[u32],
    names: &mut Vec<NetName>,
)
    requires { All (λ j. IsSome (name_in outside.now firsts.now j.net)) joints.now }
    ensures long { length names.new.items ≡ length names.old.items }
    ensures handed { (depth : ℕ) (count : ℕ) → AreOwnNames depth count names.old.items
        → AreHanded (first_of classes.now cell) (name_in outside.now firsts.now) depth joints.now count names.new.items }
{
    for joint in joints {
        hand_one(classes, cell, joint, outside, firsts, names);
    }
}
