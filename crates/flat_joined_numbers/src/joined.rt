//! The least of the numbers that pairs join.
ghost use Rattle.std.specs.Prelude.{◌≡◌, ◌<◌, ◌≤◌, ◌⊎◌, ℕ, List, true, false, length, slice_index, sum, IfOk};
ghost use Rattle.std.specs.List.{All};
ghost use Rattle.flat_spec.specs.Chains.{Chain};
ghost use Rattle.flat_joined_numbers.specs.Joined.{AreJoined, AreLabels, AreLeastJoined, AreLower, AreSame, IsWithin, LeadDown};

use netlist_schema::NoMemory;
use std::alloc::Global;

/// Two numbers that are joined.
#[derive(Clone, Copy, Debug, PartialEq, Eq)]
pub struct Pair {
    pub first: u32,
    pub second: u32,
}

/// The number to which labels lead down from one. The labels on the way are lowered, each to that of its label.
fn find(labels: &mut [u32], from: u32) -> u32
    requires within { from < length labels.old }
    requires down { LeadDown labels.old }
    ensures within { result < length labels.new }
    ensures down { LeadDown labels.new }
    ensures lower { AreLower labels.old labels.new }
    ensures low { result ≤ slice_index labels.old from }
    ensures labels { (pairs : List Pair) → AreLabels pairs labels.old → AreLabels pairs labels.new }
    ensures reached { (pairs : List Pair) → AreLabels pairs labels.old → Chain (AreJoined pairs) from result }
{
    let mut at = from;
    'ways: while labels[at as usize] < at {
        let up = labels[at as usize];
        let next = labels[up as usize];
        labels[at as usize] = next;
        at = next;
    }
    at
}

/// The lesser of two numbers.
fn lesser(first: u32, second: u32) -> u32
    ensures first { result ≤ first }
    ensures second { result ≤ second }
    ensures one { (result ≡ first) ⊎ (result ≡ second) }
{
    if first < second { first } else { second }
}

/// Lowers the label of a number to another number, where that is less.
fn lower(labels: &mut [u32], at: u32, to: u32)
    requires within { at < length labels.old }
    requires down { LeadDown labels.old }
    requires less { to ≤ at }
    ensures down { LeadDown labels.new }
    ensures lower { AreLower labels.old labels.new }
    ensures low { slice_index labels.new at ≤ to }
    ensures labels { (pairs : List Pair) → AreLabels pairs labels.old → Chain (AreJoined pairs) at to → AreLabels pairs labels.new }
{
    if to < labels[at as usize] {
        labels[at as usize] = to;
    }
}

/// Gives the two numbers of a pair one label, and those to which their labels lead; whether they had two.
fn join(labels: &mut [u32], pair: Pair) -> bool
    requires within { IsWithin (length labels.old) pair }
    requires down { LeadDown labels.old }
    ensures labels { (pairs : List Pair) → AreLabels pairs labels.old → AreJoined pairs pair.first pair.second → AreLabels pairs labels.new }
    ensures long { length labels.new ≡ length labels.old }
    ensures lowered { result ≡ true → sum labels.new < sum labels.old }
    ensures same { result ≡ false → AreSame labels.old pair }
    ensures unchanged { result ≡ false → labels.new ≡ labels.old }
{
    if labels[pair.first as usize] == labels[pair.second as usize] {
        return false;
    }
    let first = find(labels, pair.first);
    let second = find(labels, pair.second);
    let least = lesser(first, second);
    lower(labels, first, least);
    lower(labels, second, least);
    lower(labels, pair.first, least);
    lower(labels, pair.second, least);
    true
}

/// Goes over all pairs; whether one of them had two labels.
fn join_all(labels: &mut [u32], pairs: &[Pair]) -> bool
    requires within { All (IsWithin (length labels.old)) pairs.now }
    requires labels { AreLabels pairs.now labels.old }
    ensures labels { AreLabels pairs.now labels.new }
    ensures long { length labels.new ≡ length labels.old }
    ensures lowered { result ≡ true → sum labels.new < sum labels.old }
    ensures settled { result ≡ false → All (AreSame labels.new) pairs.now }
{
    let mut lowered = false;
    for pair in pairs {
        if join(labels, *pair) {
            lowered = true;
        }
    }
    lowered
}

/// Goes over all pairs until each of them has one label.
fn settle(labels: &mut [u32], pairs: &[Pair])
    requires within { All (IsWithin (length labels.old)) pairs.now }
    requires labels { AreLabels pairs.now labels.old }
    ensures labels { AreLabels pairs.now labels.new }
    ensures long { length labels.new ≡ length labels.old }
    ensures settled { All (AreSame labels.new) pairs.now }
{
    'passes: while join_all(labels, pairs) {}
}

/// The numbers below the count.
fn numbers(alloc: Global, count: u32) -> Result<Vec<u32>, NoMemory>
    ensures long { IfOk result (λ labels. length labels.items ≡ count) }
    ensures same { IfOk result (λ labels. (n : ℕ) → n < count → slice_index labels.items n ≡ n) }
{
    let mut labels = Vec::new(alloc);
    for number in 0..count {
        labels.push(number)?;
    }
    Ok(labels)
}

/// For each number below the count the least number to which the pairs lead from it. It takes time in proportion to the count and
/// the pairs, with a factor that hardly grows.
pub fn least_joined(alloc: Global, count: u32, pairs: &[Pair]) -> Result<Vec<u32>, NoMemory>
    requires { All (IsWithin count) pairs.now }
    ensures { IfOk result (λ labels. AreLeastJoined count pairs.now labels.items) }
{
    let mut labels = numbers(alloc, count)?;
    settle(labels.as_mut_slice(), pairs);
    Ok(labels)
}
