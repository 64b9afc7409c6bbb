//! Lists by numbers.
ghost use Rattle.std.specs.Prelude.{◌≡◌, [], IfOk, OnOk, length, map};
ghost use Rattle.std.specs.List.{All};
ghost use Rattle.net_rows.specs.Lists.{IsAdded, IsPut};

use netlist_schema::NoMemory;
use std::alloc::Global;

/// So many empty lists.
pub(crate) fn no_lists<T: Drop>(alloc: Global, count: usize) -> Result<Vec<Vec<T>>, NoMemory>
    ensures long { IfOk result (λ lists. length lists.items ≡ count) }
    ensures none { IfOk result (λ lists. All (λ list. list.items ≡ []) lists.items) }
{
    let mut lists = Vec::new(alloc);
    for _ in 0..count {
        lists.push(Vec::new(alloc))?;
    }
    Ok(lists)
}

/// Adds an element behind those of the list with that number, where there is one.
fn add_at<T: Drop>(lists: &mut Vec<Vec<T>>, number: u32, item: T) -> Result<(), NoMemory>
    ensures { OnOk result (IsAdded number item (map (λ list. list.items) lists.old.items) (map (λ list. list.items) lists.new.items)) }
{
    if (number as usize) >= lists.len() {
        return Ok(());
    }
    lists[number as usize].push(item)?;
    Ok(())
}

/// The same, where there is a number.
pub(crate) fn add_to<T: Drop>(
    lists: &mut Vec<Vec<T>>,
    number: Option<u32>,
    item: T,
) -> Result<(), NoMemory>
    ensures { OnOk result (IsPut number item (map (λ list. list.items) lists.old.items) (map (λ list. list.items) lists.new.items)) }
{
    match number {
        Some(number) => add_at(lists, number, item),
        None => Ok(()),
    }
}
