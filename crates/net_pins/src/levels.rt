//! Where a net leads from the contents of an occurrence: to pins of leaves, and into other cells.
ghost use Rattle.std.specs.Prelude.{◌≡◌, ◌≤◌, ◌↔◌, ◌++◌, ℕ, List, IfOk, OnOk, Some, slice_get, true};
ghost use Rattle.flat_spec.specs.Paths.{Bit};
ghost use Rattle.std.specs.List.{All, AllPairs, Contains};
ghost use Rattle.net_classes.specs.Joints.{IsNotBehind};
ghost use Rattle.net_classes.specs.declared.joints.Joint.{Joint as Place};
ghost use Rattle.net_pins.specs.Levels.{AreAdded, AreInOrder, IsLeadAdded, IsNextOf, LeadsTo, leads_in};
ghost use Rattle.net_ways.specs.Counts.{IsCountOf};
ghost use Rattle.net_pins.specs.Order.{joint_before};

use net_classes::{Classes, Joint};
use net_rows::Rows;
use netlist_schema::{CellId, NoMemory};
use std::alloc::Global;

/// An occurrence, by its cell and the nets inside which are connected with the net that is asked of: the first nets inside of these, as far
/// as they lead to a pin.
#[derive(Drop)]
pub(crate) struct Level {
    pub cell: CellId,
    pub firsts: Vec<u32>,
}

/// Whether the joint's bit comes before this bit of an instance.
fn is_before(joint: &Joint, inst: u32, port: u32, bit: u32) -> bool
    ensures { result ≡ joint_before inst (record { port = port; bit = bit }) joint.now }
{
    if joint.inst != inst {
        return joint.inst < inst;
    }
    if joint.port != port {
        return joint.port < port;
    }
    joint.bit < bit
}

/// How many of the joints, which are in order, come before this bit of an instance.
fn count_before(joints: &[Joint], inst: u32, port: u32, bit: u32) -> usize
    requires { AllPairs IsNotBehind joints.now }
    ensures { IsCountOf (joint_before inst (record { port = port; bit = bit })) joints.now result }
{
    joints.partition_point(
        |joint: &Joint| -> bool
            ensures { result ≡ joint_before inst (record { port = port; bit = bit }) joint.now }
        { is_before(joint, inst, port, bit) },
    )
}

/// The joint at a place, where there is one.
fn joint_in(joints: &[Joint], place: usize) -> Option<Joint>
    ensures { result ≡ slice_get joints.now place }
{
    joints.get(place).copied()
}

/// The first of the joints that does not come before this bit of an instance, where there is one.
fn joint_from(joints: &[Joint], inst: u32, port: u32, bit: u32) -> Option<Joint>
    requires { AllPairs IsNotBehind joints.now }
    ensures { IsNextOf joints.now inst (record { port = port; bit = bit }) result }
{
    let count = count_before(joints, inst, port, bit);
    joint_in(joints, count)
}

/// The earlier of two joints, where there is one; of the same bit the first one.
fn earlier(one: Option<Joint>, other: Option<Joint>) -> Option<Joint>
    ensures { (xs ys : List Place) (inst : ℕ) (b : Bit) → IsNextOf xs inst b one → IsNextOf ys inst b other → IsNextOf (xs ++ ys) inst b result }
{
    let Some(first) = one else {
        return other;
    };
    let Some(second) = other else {
        return Some(first);
    };
    if is_before(&second, first.inst, first.port, first.bit) {
        Some(second)
    } else {
        Some(first)
    }
}

/// The first joint of the level that leads to a pin and does not come before this bit of an instance, where there is one. It takes time in
/// proportion to the first nets of the level, times the logarithm of the ends in its cell, and no memory.
pub(crate) fn next_lead(rows: &Rows, level: &Level, inst: u32, port: u32, bit: u32) -> Option<Joint>
    requires { AreInOrder rows.now level.now.cell }
    ensures { IsNextOf (leads_in rows.now level.now.cell level.now.firsts.items) inst (record { port = port; bit = bit }) result }
{
    let firsts = level.firsts.as_slice();
    let mut found = None;
    for first in firsts {
        let joints = rows.joints(level.cell, *first);
        let next = joint_from(joints, inst, port, bit);
        found = earlier(found, next);
    }
    found
}

/// The joints, which are in order, from the first one on that does not come before those of the instance.
fn from_inst(joints: &[Joint], inst: u32) -> &[Joint]
    requires { AllPairs IsNotBehind joints.now }
    ensures order { AllPairs IsNotBehind result.now }
    ensures front { All (λ joint. inst ≤ joint.inst) result.now }
    ensures all { (j : Place) → j.inst ≡ inst → Contains result.now j ↔ Contains joints.now j }
{
    let (_, on) = joints.split_at(count_before(joints, inst, 0, 0));
    on
}

/// Whether the number is the last; then it is among them.
fn is_last(firsts: &[u32], first: u32) -> bool
    ensures { result ≡ true → Contains firsts.now first }
{
    match firsts.last() {
        Some(last) => *last == first,
        None => false,
    }
}

/// Adds a number that is not the last.
fn add_first(firsts: &mut Vec<u32>, first: u32) -> Result<(), NoMemory>
    ensures { OnOk result (IsLeadAdded (Some first) firsts.old.items firsts.new.items) }
{
    if is_last(firsts.as_slice(), first) {
        return Ok(());
    }
    firsts.push(first)?;
    Ok(())
}

/// Adds a number, where there is one and it is not the last.
fn add_lead(firsts: &mut Vec<u32>, first: Option<u32>) -> Result<(), NoMemory>
    ensures { OnOk result (IsLeadAdded first firsts.old.items firsts.new.items) }
{
    match first {
        Some(first) => add_first(firsts, first),
        None => Ok(()),
    }
}

/// Adds the first nets inside a cell to which those of the joints lead that are on its instance, which stand in front.
fn add_leads(
    classes: &Classes,
    joints: &[Joint],
    inst: u32,
    of: CellId,
    firsts: &mut Vec<u32>,
) -> Result<(), NoMemory>
    requires order { AllPairs IsNotBehind joints.now }
    requires front { All (λ joint. inst ≤ joint.inst) joints.now }
    ensures { OnOk result (AreAdded classes.now of inst joints.now firsts.old.items firsts.new.items) }
{
    for joint in joints {
        if joint.inst != inst {
            return Ok(());
        }
        add_lead(firsts, classes.first_at(of, joint.port, joint.bit))?;
    }
    Ok(())
}

/// The first nets inside a cell to which the joints of a level on its instance lead.
fn firsts_below(
    alloc: Global,
    classes: &Classes,
    rows: &Rows,
    level: &Level,
    inst: u32,
    of: CellId,
) -> Result<Vec<u32>, NoMemory>
    requires { AreInOrder rows.now level.now.cell }
    ensures { IfOk result (λ firsts. (f : ℕ) → Contains firsts.items f ↔ LeadsTo classes.now of inst (leads_in rows.now level.now.cell level.now.firsts.items) f) }
{
    let above = level.firsts.as_slice();
    let mut firsts = Vec::new(alloc);
    for first in above {
        let joints = rows.joints(level.cell, *first);
        add_leads(classes, from_inst(joints, inst), inst, of, &mut firsts)?;
    }
    Ok(firsts)
}

/// The level of an instance of a level, which is of that cell.
pub(crate) fn level_below(
    alloc: Global,
    classes: &Classes,
    rows: &Rows,
    level: &Level,
    inst: u32,
    of: CellId,
) -> Result<Level, NoMemory>
    requires { AreInOrder rows.now level.now.cell }
    ensures cell { IfOk result (λ made. made.cell ≡ of) }
    ensures firsts { IfOk result (λ made. (f : ℕ) → Contains made.firsts.items f ↔ LeadsTo classes.now of inst (leads_in rows.now level.now.cell level.now.firsts.items) f) }
{
    Ok(Level {
        cell: of,
        firsts: firsts_below(alloc, classes, rows, level, inst, of)?,
    })
}
