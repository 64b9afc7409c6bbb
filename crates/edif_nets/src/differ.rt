//! Numbers for names and for bits, by which they are told to differ: equal ones have equal numbers.
ghost use Rattle.std.specs.Prelude.{◌≡◌, IfOk, IfSome, IsTrue};
ghost use Rattle.std.specs.List.Sorted.{IsStrictlyIncreasing};
ghost use Rattle.edif_nets.specs.Keys.{end_key, name_key};
ghost use Rattle.edif_nets.specs.Slots.{slot_of};
ghost use Rattle.netlist_schema.specs.Names.{AreDistinct};

use netlist_schema::{End, Ident, NoMemory};
use std::alloc::Global;

/// The number of a bit. Those of two bits of a design differ, since a cell has at most 65,536 ports, and a port as many bits.
pub(crate) fn end_key(end: End) -> u64
    ensures { result ≡ end_key end }
{
    let inst = match end.inst {
        None => 0,
        Some(inst) => u64::from(inst) + 1,
    };
    let port = inst * 65_536 + u64::from(end.port);
    port.wrapping_mul(65_536).wrapping_add(u64::from(end.bit))
}

/// The number of a name of these bytes.
fn bytes_key(bytes: &[u8]) -> u64
    ensures { result ≡ name_key 0 bytes.now }
{
    let mut key: u64 = 0;
    for byte in bytes {
        key = key
            .wrapping_mul(1_099_511_628_211)
            .wrapping_add(u64::from(*byte));
    }
    key
}

/// The number of a name. Those of two names mostly differ.
pub(crate) fn name_key(name: &Ident) -> u64
    ensures { result ≡ name_key 0 name.now }
{
    bytes_key(name.as_slice())
}

/// Whether each of these numbers is above the one before it.
fn ascend(numbers: &[u64]) -> bool
    ensures { IsTrue result → IsStrictlyIncreasing numbers.now }
{
    for i in 1..numbers.len() {
        if numbers[i - 1] >= numbers[i] {
            return false;
        }
    }
    true
}

/// Whether no two of these numbers are equal, which it puts in order.
fn differ_in_order(numbers: &mut Vec<u64>) -> bool
    ensures { IsTrue result → AreDistinct numbers.old.items }
{
    numbers.sort_unstable();
    ascend(numbers.as_slice())
}

/// In how many slots numbers are put to tell them apart.
const SLOTS: usize = 4_096;

/// What stands in a slot to which no number came.
const EMPTY: u64 = 18_446_744_073_709_551_615;

/// More numbers than these, and fewer, are put in order at once.
const LEAST_IN_SLOTS: usize = 128;

const MOST_IN_SLOTS: usize = 8_192;

/// The slot of a number.
fn slot_of(number: u64) -> usize
    ensures { result ≡ slot_of number }
{
    let mixed = number.wrapping_mul(11_400_714_819_323_198_485);
    (mixed / 4_294_967_296 % 4_096) as usize
}

/// The numbers before which another one came to their slot: where these differ, all do. `None` where a number came to its slot twice.
fn left_over(alloc: Global, numbers: &[u64]) -> Result<Option<Vec<u64>>, NoMemory>
    ensures { IfOk result (λ left. IfSome left (λ others. AreDistinct others.items → AreDistinct numbers.now)) }
{
    let mut others = Vec::new(alloc);
    let mut slots = [EMPTY; SLOTS];
    for number in numbers {
        let slot = slot_of(*number);
        let there = slots[slot];
        if there == *number {
            return Ok(None);
        }
        if there == EMPTY {
            slots[slot] = *number;
        } else {
            others.push(*number)?;
        }
    }
    Ok(Some(others))
}

/// Whether no two of these numbers are equal, most of which have a slot of their own.
fn differ_in_slots(alloc: Global, numbers: &[u64]) -> Result<bool, NoMemory>
    ensures { IfOk result (λ differ. IsTrue differ → AreDistinct numbers.now) }
{
    match left_over(alloc, numbers)? {
        Some(mut others) => Ok(differ_in_order(&mut others)),
        None => Ok(false),
    }
}

/// Whether no two of these numbers are equal; `false` says nothing. May put them in order.
pub(crate) fn differ(alloc: Global, numbers: &mut Vec<u64>) -> Result<bool, NoMemory>
    ensures { IfOk result (λ differ. IsTrue differ → AreDistinct numbers.old.items) }
{
    let count = numbers.len();
    if count < LEAST_IN_SLOTS || count > MOST_IN_SLOTS {
        return Ok(differ_in_order(numbers));
    }
    differ_in_slots(alloc, numbers.as_slice())
}
