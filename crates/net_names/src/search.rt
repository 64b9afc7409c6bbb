//! Joints of a cell, found by their bits.
ghost use Rattle.std.specs.Prelude.{◌≡◌, ◌<◌, ◌≤◌, ◌↔◌, ℕ, true, false, length, slice_index_or, Contains};
ghost use Rattle.std.specs.List.{AllPairs};
ghost use Rattle.net_classes.specs.Joints.{IsNotBehind};
ghost use Rattle.net_classes.specs.declared.joints.Joint.{Joint as Place};
ghost use Rattle.net_names.specs.Search.{IsAt, IsBefore, IsCount, IsNetFound};

use net_classes::Joint;

/// Whether the joint's bit comes before this bit of an instance.
#[inline(always)]
fn is_before(joint: &Joint, inst: u32, port: u32, bit: u32) -> bool
    ensures yes { result ≡ true → IsBefore inst (record { port = port; bit = bit }) joint.now }
    ensures no { result ≡ false → IsBefore inst (record { port = port; bit = bit }) joint.now → ⊥ }
{
    if joint.inst != inst {
        return joint.inst < inst;
    }
    if joint.port != port {
        return joint.port < port;
    }
    joint.bit < bit
}

/// Whether the joint is of this bit of an instance.
#[inline(always)]
fn is_at(joint: &Joint, inst: u32, port: u32, bit: u32) -> bool
    ensures yes { result ≡ true → IsAt inst (record { port = port; bit = bit }) joint.now }
    ensures no { result ≡ false → IsAt inst (record { port = port; bit = bit }) joint.now → ⊥ }
{
    joint.inst == inst && joint.port == port && joint.bit == bit
}

/// The number of joints that come before this bit of an instance.
fn count_before(joints: &[Joint], inst: u32, port: u32, bit: u32) -> usize
    requires { AllPairs IsNotBehind joints.now }
    ensures { IsCount joints.now inst (record { port = port; bit = bit }) result }
{
    let mut low = 0;
    let mut high = joints.len();
    'search: while low < high {
        let middle = low + (high - low) / 2;
        if is_before(&joints[middle], inst, port, bit) {
            low = middle + 1;
        } else {
            high = middle;
        }
    }
    low
}

/// Whether the first joints, of which there are so many, come before this bit of an instance: by the last of them.
#[inline(always)]
fn all_before(joints: &[Joint], count: usize, inst: u32, port: u32, bit: u32) -> bool
    requires { AllPairs IsNotBehind joints.now }
    ensures { result ≡ true → (k : ℕ) (d : Place) → k < count → IsBefore inst (record { port = port; bit = bit }) (slice_index_or joints.now k d) }
{
    if count == 0 {
        return true;
    }
    if count > joints.len() {
        return false;
    }
    is_before(&joints[count - 1], inst, port, bit)
}

/// Whether none of the joints behind so many comes before this bit of an instance: by the first of them.
#[inline(always)]
fn none_behind(joints: &[Joint], count: usize, inst: u32, port: u32, bit: u32) -> bool
    requires { AllPairs IsNotBehind joints.now }
    ensures { result ≡ true → (k : ℕ) (d : Place) → count ≤ k → k < length joints.now → IsBefore inst (record { port = port; bit = bit }) (slice_index_or joints.now k d) → ⊥ }
{
    if count >= joints.len() {
        return true;
    }
    !is_before(&joints[count], inst, port, bit)
}

/// Whether so many joints come before this bit of an instance, by those at that place.
#[inline(always)]
fn is_count(joints: &[Joint], count: usize, inst: u32, port: u32, bit: u32) -> bool
    requires { AllPairs IsNotBehind joints.now }
    ensures { result ≡ true → IsCount joints.now inst (record { port = port; bit = bit }) count }
{
    count <= joints.len()
        && all_before(joints, count, inst, port, bit)
        && none_behind(joints, count, inst, port, bit)
}

/// The number of joints that come before this bit of an instance, which may be that one.
#[inline(always)]
fn count_near(joints: &[Joint], near: usize, inst: u32, port: u32, bit: u32) -> usize
    requires { AllPairs IsNotBehind joints.now }
    ensures { IsCount joints.now inst (record { port = port; bit = bit }) result }
{
    if is_count(joints, near, inst, port, bit) {
        return near;
    }
    count_before(joints, inst, port, bit)
}

/// The net that joins this bit of an instance: `None` exactly where none does. It takes time in proportion to the logarithm of the
/// number of joints, no time where the joint of the bit is the one at that place, and no memory.
#[inline(always)]
pub fn joined_net(joints: &[Joint], near: usize, inst: u32, port: u32, bit: u32) -> Option<u32>
    requires { AllPairs IsNotBehind joints.now }
    ensures { IsNetFound joints.now inst (record { port = port; bit = bit }) result }
{
    if let Some(joint) = joints.get(near) {
        if is_at(joint, inst, port, bit) {
            return Some(joint.net);
        }
    }
    search_net(joints, inst, port, bit)
}

/// The same, searched among all joints.
fn search_net(joints: &[Joint], inst: u32, port: u32, bit: u32) -> Option<u32>
    requires { AllPairs IsNotBehind joints.now }
    ensures { IsNetFound joints.now inst (record { port = port; bit = bit }) result }
{
    let joint = joints.get(count_before(joints, inst, port, bit))?;
    if is_at(joint, inst, port, bit) {
        Some(joint.net)
    } else {
        None
    }
}

/// Some of the joints of a cell, one behind another, and how many stand before and up to them.
#[derive(Clone, Copy)]
pub struct Run<'a> {
    pub from: usize,
    pub upto: usize,
    pub joints: &'a [Joint],
}

/// How many joints stand before the first one that is behind a place and not on the instance.
#[inline(always)]
fn end_near(joints: &[Joint], from: usize, inst: u32) -> usize {
    for place in from..joints.len() {
        if joints[place].inst != inst {
            return place;
        }
    }
    joints.len()
}

/// The joints of an instance. It takes time in proportion to their number where they begin at that place, else to the logarithm of the
/// number of all joints too, and no memory.
#[inline(always)]
pub fn joints_on(joints: &[Joint], near: usize, inst: u32) -> Run<'_>
    requires order { AllPairs IsNotBehind joints.now }
    requires room { inst < 4294967295 }
    ensures { (j : Place) → Contains result.joints.now j ↔ (Contains joints.now j × (j.inst ≡ inst)) }
{
    let from = count_near(joints, near, inst, 0, 0);
    let upto = count_near(joints, end_near(joints, from, inst), inst + 1, 0, 0);
    let (front, _) = joints.split_at(upto);
    let (_, on) = front.split_at(from);
    Run {
        from,
        upto,
        joints: on,
    }
}
