//! The first net of the group of each net.
ghost use Rattle.std.specs.Prelude.{◌≡◌, ◌<◌, ◌≤◌, ◌+◌, IfOk, length};
ghost use Rattle.std.specs.List.{All};
ghost use Rattle.netlist_schema.specs.Types.{Inst};
ghost use Rattle.netlist_schema.specs.declared.limits.TheConstants.{MOST_NETS};
ghost use Rattle.ungroup_plans.specs.Heads.{AreHeads, AreSound, site};

use crate::bits::joined_bits;
use crate::links::{list_links, nets_by_bit};
use flat_joined_numbers::least_joined;
use netlist_schema::{Contents, NoMemory};
use std::alloc::Global;

/// For each net, those around the instance in order and then those within it, the number of the first net of its group: the
/// earliest around the instance, and where there is none, the net itself.
pub(crate) fn list_heads(
    alloc: Global,
    around: &Contents,
    place: u32,
    within: &Contents,
) -> Result<Vec<u32>, NoMemory>
    requires around { AreSound around.now }
    requires within { length within.now.nets ≤ MOST_NETS }
    ensures heads { IfOk result (λ heads. (inst : Inst) → AreHeads (site around.now place inst within.now) heads.items) }
    ensures long { IfOk result (λ heads. length heads.items ≡ length around.now.nets + length within.now.nets) }
    ensures low { IfOk result (λ heads. All (λ head. head < length heads.items) heads.items) }
{
    let outer_count = around.nets.len();
    let inner_count = within.nets.len();
    let behind = outer_count as u32;
    let outer_bits = joined_bits(alloc, &around.nets, Some(place))?;
    let outer = nets_by_bit(alloc, outer_bits.as_slice())?;
    let inner = joined_bits(alloc, &within.nets, None)?;
    let links = list_links(alloc, &outer, inner.as_slice(), behind)?;
    let count = behind + inner_count as u32;
    let heads = least_joined(alloc, count, links.as_slice())?;
    Ok(heads)
}
