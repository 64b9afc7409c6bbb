//! The contents afterwards.
ghost use Rattle.std.specs.Prelude.{◌≡◌, ◌<◌, Some, length, slice_get};
ghost use Rattle.netlist_schema.specs.Types.{Inst as InstType};
ghost use Rattle.eco_reads.specs.Outcome.{UnlessNoMemory};
ghost use Rattle.ungroup_plans.specs.Heads.{AreSound, site};
ghost use Rattle.ungroup_plans.specs.Planned.{IsDissolved};

use crate::groups::group_nets;
use crate::insts::insts_after;
use crate::limits::{over_insts, over_nets};
use crate::nets::nets_after;
use eco_reads::OpError;
use netlist_schema::Contents;
use std::alloc::Global;

/// The contents after the instance at a place is dissolved into them, or the first limit that they would pass: of instances, nets,
/// ends.
pub(crate) fn dissolved(
    alloc: Global,
    around: &Contents,
    place: u32,
    within: &Contents,
) -> Result<Contents, OpError>
    requires around { AreSound around.now }
    requires within { AreSound within.now }
    requires place { place < length around.now.insts }
    ensures { (inst : InstType) → slice_get around.now.insts place ≡ Some inst → UnlessNoMemory (IsDissolved (site around.now place inst within.now)) result }
{
    let outer = &around.insts;
    if let Some(refusal) = over_insts(outer.len(), within.insts.len()) {
        return Err(OpError::Refused(refusal));
    }
    let grouped = group_nets(alloc, around, place, within)?;
    if let Some(refusal) = over_nets(&grouped) {
        return Err(OpError::Refused(refusal));
    }
    let insts = insts_after(alloc, around, place, within)?;
    let inst = outer.at(place as usize);
    let nets = nets_after(alloc, &around.nets, &inst.name, grouped)?;
    Ok(Contents { insts, nets })
}
