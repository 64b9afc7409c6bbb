//! Lists of ends that are gathered by numbers.
ghost use Rattle.std.specs.Prelude.{◌≡◌, ◌<◌, ◌++◌, [], ℕ, IfOk, OnOk, length, slice_index_or, slice_set};
ghost use Rattle.std.specs.List.{All};
ghost use Rattle.ungroup_plans.specs.Lists.{AreGathered, gathered};

use netlist_schema::{End, NoMemory, Row};
use std::alloc::Global;

/// Adds ends to a list.
fn extend(list: &mut Row<End>, ends: &[End]) -> Result<(), NoMemory>
    ensures { OnOk result (list.new ≡ list.old ++ ends.now) }
{
    for end in ends {
        list.push(*end)?;
    }
    Ok(())
}

/// Adds ends to the list with a number.
fn extend_at(lists: &mut [Row<End>], number: u32, ends: &[End]) -> Result<(), NoMemory>
    requires { number < length lists.old }
    ensures { OnOk result (lists.new ≡ slice_set lists.old number (slice_index_or lists.old number [] ++ ends.now)) }
{
    extend(&mut lists[number as usize], ends)
}

/// Adds each list of ends to the list with its number.
fn add_all(numbers: &[u32], ends: &[Row<End>], lists: &mut [Row<End>]) -> Result<(), NoMemory>
    requires long { length ends.now ≡ length numbers.now }
    requires low { All (λ n. n < length lists.old) numbers.now }
    ensures { OnOk result ((h : ℕ) → h < length lists.old → slice_index_or lists.new h [] ≡ slice_index_or lists.old h [] ++ gathered h numbers.now ends.now) }
{
    for (k, number) in numbers.iter().enumerate() {
        extend_at(lists, *number, ends[k].as_slice())?;
    }
    Ok(())
}

/// So many lists without an end.
fn no_ends(alloc: Global, count: usize) -> Result<Vec<Row<End>>, NoMemory>
    ensures long { IfOk result (λ lists. length lists.items ≡ count) }
    ensures none { IfOk result (λ lists. All (λ list. list ≡ []) lists.items) }
{
    let mut lists = Vec::with_capacity(alloc, count)?;
    for _ in 0..count {
        lists.push(Row::of(Vec::new(alloc)))?;
    }
    Ok(lists)
}

/// For each number the ends that have it, in order.
pub(crate) fn gather(
    alloc: Global,
    numbers: &[u32],
    ends: &[Row<End>],
) -> Result<Vec<Row<End>>, NoMemory>
    requires long { length ends.now ≡ length numbers.now }
    requires low { All (λ n. n < length numbers.now) numbers.now }
    ensures { IfOk result (λ lists. AreGathered numbers.now ends.now lists.items) }
{
    let mut lists = no_ends(alloc, numbers.len())?;
    add_all(numbers, ends, lists.as_mut_slice())?;
    Ok(lists)
}
