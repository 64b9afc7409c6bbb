//! Limits on how many nets and ends may stand, and on where.
ghost use Rattle.std.specs.Prelude.{◌≡◌, ◌++◌, ◌+◌, ◌*◌, ◌<◌, ◌≤◌, List, IfOk, length};
ghost use Rattle.edif_spelling_spec.specs.Tree.{Placed};
ghost use Rattle.edif_spec.specs.Faults.{Beyond, repeated};
ghost use Rattle.edif_spec.specs.declared.fault.MeaningFault.TheVariants.{OverLimit};
ghost use Rattle.edif_tree.specs.Handles.{all};
ghost use Rattle.edif_parts.specs.Reading.{Answers};
ghost use Rattle.netlist_schema.specs.declared.limits.TheConstants.{MOST_ENDS, MOST_NETS};

use edif_parts::{EdifError, over_limit};
use edif_tree::Nodes;
use netlist_schema::{MOST_ENDS, MOST_NETS, NoMemory};

/// Whether there is room for so many nets behind those that are there; else the form of these is the first beyond the limit.
pub fn nets_room(count: usize, size: u32, place: u64) -> Result<(), EdifError>
    requires { count ≤ MOST_NETS }
    ensures { Answers (λ _. count + size ≤ MOST_NETS) (λ f. (MOST_NETS < count + size) × (f ≡ OverLimit MOST_NETS place)) result }
{
    if count as u64 + u64::from(size) > MOST_NETS as u64 {
        return Err(over_limit(MOST_NETS as u64, place));
    }
    Ok(())
}

/// Whether there is room for so many ends at each of these nodes, behind those that are joined; else the first node beyond the limit
/// is named.
pub fn ends_room(nodes: Nodes<'_>, size: u32, joined: usize) -> Result<(), EdifError>
    requires joined { joined ≤ MOST_ENDS }
    ensures { (before : List Placed) → length before ≡ joined
        → Answers (λ _. joined + length (all nodes.entry) * size ≤ MOST_ENDS) (λ f. (more : List Placed) → Beyond MOST_ENDS ((before ++ repeated (λ u. size) (all nodes.entry)) ++ more) f) result }
{
    let mut count = joined as u64;
    for node in nodes.iter() {
        count += u64::from(size);
        if count > MOST_ENDS as u64 {
            return Err(over_limit(MOST_ENDS as u64, node.place()));
        }
    }
    Ok(())
}

/// A place in 4 bytes. There is no memory for a larger one, which no file within its limit has.
pub(crate) fn small(place: u64) -> Result<u32, NoMemory>
    ensures { IfOk result (λ small. small ≡ place) }
{
    match u32::try_from(place) {
        Ok(small) => Ok(small),
        Err(_) => Err(NoMemory),
    }
}
