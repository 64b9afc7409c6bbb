//! The ends of a cell's nets: those at its own bits, and those on its instances.
ghost use Rattle.std.specs.Prelude.{◌≡◌, ◌≤◌, ◌++◌, ◌↔◌, length, Contains, IfOk, OnOk, None, Some, ℕ, ◌<◌, slice_index_or};
ghost use Rattle.std.specs.List.{All, AllPairs, flat_map};
ghost use Rattle.netlist_schema.specs.declared.limits.TheConstants.{MOST_NETS};
ghost use Rattle.net_classes.specs.Joints.{IsJointIn, IsNotBehind, joint_of, joints_from};
ghost use Rattle.net_classes.specs.Own.{AreOwn, AreSet, end_number};
ghost use Rattle.net_classes.specs.declared.joints.Joint.{Joint as Place};

use crate::bits::bit_number;
use netlist_schema::{End, Listed, Net, NoMemory, PartsRef};
use std::alloc::Global;

/// A bit of an instance, and the net that joins it. Joints are ordered by instance, port and bit.
#[derive(Clone, Copy, Debug, PartialEq, Eq, PartialOrd, Ord)]
pub struct Joint {
    pub inst: u32,
    pub port: u32,
    pub bit: u32,
    pub net: u32,
}

/// The ends of the nets on instances, net by net.
fn all_joints(alloc: Global, nets: &PartsRef<'_, Listed<Net>>) -> Result<Vec<Joint>, NoMemory>
    requires few { length nets.now ≤ MOST_NETS }
    ensures { IfOk result (λ joints. joints.items ≡ joints_from 0 nets.now) }
{
    let mut joints = Vec::new(alloc);
    for place in 0..nets.len() {
        let net = nets.at(place);
        add_joints(net.ends.as_slice(), place as u32, &mut joints)?;
    }
    Ok(joints)
}

/// The ends of the nets on instances, by instance, port and bit.
pub(crate) fn list_joints(
    alloc: Global,
    nets: &PartsRef<'_, Listed<Net>>,
) -> Result<Vec<Joint>, NoMemory>
    requires few { length nets.now ≤ MOST_NETS }
    ensures each { IfOk result (λ joints. (j : Place) → Contains joints.items j ↔ IsJointIn nets.now j) }
    ensures in_order { IfOk result (λ joints. AllPairs IsNotBehind joints.items) }
{
    let mut joints = all_joints(alloc, nets)?;
    joints.sort()?;
    Ok(joints)
}

/// Adds the ends of one net on instances.
fn add_joints(ends: &[End], place: u32, joints: &mut Vec<Joint>) -> Result<(), NoMemory>
    ensures { OnOk result (joints.new.items ≡ joints.old.items ++ flat_map (joint_of place) ends.now) }
{
    for end in ends {
        add_joint(*end, place, joints)?;
    }
    Ok(())
}

/// Adds the end, where it is on an instance.
fn add_joint(end: End, place: u32, joints: &mut Vec<Joint>) -> Result<(), NoMemory>
    ensures { OnOk result (joints.new.items ≡ joints.old.items ++ joint_of place end) }
{
    match end.inst {
        Some(inst) => joints.push(Joint {
            inst,
            port: end.port,
            bit: end.bit,
            net: place,
        })?,
        None => {}
    }
    Ok(())
}

/// For each own bit, counted over all ports, the net that joins it, where there are so many bits.
pub(crate) fn list_own(
    alloc: Global,
    starts: &[u32],
    count: u32,
    nets: &PartsRef<'_, Listed<Net>>,
) -> Result<Vec<Option<u32>>, NoMemory>
    requires few { length nets.now ≤ MOST_NETS }
    ensures long { IfOk result (λ own. length own.items ≡ count) }
    ensures own { IfOk result (λ own. AreOwn starts.now nets.now (length nets.now) own.items) }
{
    let mut own = no_nets(alloc, count)?;
    set_all(starts, nets, own.as_mut_slice());
    Ok(own)
}

/// Sets the net of each own bit, where none is set yet.
fn set_all(starts: &[u32], nets: &PartsRef<'_, Listed<Net>>, own: &mut [Option<u32>])
    requires few { length nets.now ≤ MOST_NETS }
    requires none { All (λ net. net ≡ None) own.old }
    ensures long { length own.new ≡ length own.old }
    ensures own { AreOwn starts.now nets.now (length nets.now) own.new }
{
    for place in 0..nets.len() {
        let net = nets.at(place);
        set_own(starts, net.ends.as_slice(), place as u32, own);
    }
}

/// No net for each of so many bits.
fn no_nets(alloc: Global, count: u32) -> Result<Vec<Option<u32>>, NoMemory>
    ensures long { IfOk result (λ own. length own.items ≡ count) }
    ensures none { IfOk result (λ own. All (λ net. net ≡ None) own.items) }
{
    let mut own = Vec::new(alloc);
    for _ in 0..count {
        own.push(None)?;
    }
    Ok(own)
}

/// Sets the net of each own bit that is among the ends.
fn set_own(starts: &[u32], ends: &[End], place: u32, own: &mut [Option<u32>])
    ensures long { length own.new ≡ length own.old }
    ensures set { AreSet starts.now ends.now (length ends.now) place own.old own.new }
{
    for end in ends {
        let number = end_number(starts, *end);
        set_one(own, number, place);
    }
}

/// The number of an end that is one of the cell's own bits.
fn end_number(starts: &[u32], end: End) -> Option<usize>
    ensures { result ≡ end_number starts.now end }
{
    match end.inst {
        Some(_) => None,
        None => bit_number(starts, end.port, end.bit),
    }
}

/// Sets the net of a number, where there is one.
fn set_one(own: &mut [Option<u32>], number: Option<usize>, place: u32)
    ensures long { length own.new ≡ length own.old }
    ensures hit { (n : ℕ) → n < length own.old → number ≡ Some n → slice_index_or own.new n None ≡ Some place }
    ensures miss { (n : ℕ) → n < length own.old → (number ≡ Some n → ⊥) → slice_index_or own.new n None ≡ slice_index_or own.old n None }
{
    if let Some(number) = number {
        if number < own.len() {
            own[number] = Some(place);
        }
    }
}
