//! Lists that grow item by item.
ghost use Rattle.std.specs.Prelude.{◌≡◌, ◌<◌, ◌++◌, ◌∷◌, [], IsOk, OnErr, OnOk, vec_capacity, vec_len};

use netlist_schema::NoMemory;

/// Adds an item behind the others of a list. Where there is room, it is put there without a call, and nothing is refused. Where memory is
/// refused, the list stays.
#[inline(always)]
pub fn append<T: Copy>(list: &mut Vec<T>, item: T) -> Result<(), NoMemory>
    ensures ok { OnOk result (list.new.items ≡ list.old.items ++ item ∷ []) }
    ensures err { OnErr result (list.new.items ≡ list.old.items) }
    ensures room { vec_len list.old < vec_capacity list.old → IsOk result }
{
    if list.len() < list.capacity() {
        list.push_reserved(item);
        return Ok(());
    }
    list.push(item)?;
    Ok(())
}
