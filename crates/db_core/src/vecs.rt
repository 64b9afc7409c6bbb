//! Vectors that have room.
ghost use Rattle.std.specs.Prelude.{◌≡◌, ◌+◌, ◌<◌, ◌≤◌, OnOk, vec_len, vec_capacity};

use netlist_schema::NoMemory;

/// Makes room for more items.
pub(crate) fn make_room<T: Drop>(items: &mut Vec<T>, more: usize) -> Result<(), NoMemory>
    ensures items { items.new.items ≡ items.old.items }
    ensures room { OnOk result (vec_len items.new + more ≤ vec_capacity items.new) }
    ensures capacity { vec_capacity items.old ≤ vec_capacity items.new }
{
    items.reserve(more)?;
    Ok(())
}
