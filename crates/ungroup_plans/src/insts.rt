//! The instances afterwards.
ghost use Rattle.std.specs.Prelude.{◌≡◌, ◌<◌, ◌≤◌, ◌+◌, ◌++◌, ◌^◌, List, ℕ, IfOk, OnOk, Some, length, map, slice_get, take};
ghost use Rattle.ungroup_plans.specs.Taken.{IsOf};
ghost use Rattle.netlist_schema.specs.Types.{Inst as InstType};
ghost use Rattle.netlist_schema.specs.declared.limits.TheConstants.{MOST_INSTS};
ghost use Rattle.ungroup_plans.specs.Heads.{site};
ghost use Rattle.ungroup_spec.specs.Dissolved.{insts_after, inst_name, with_inst_name};
ghost use Rattle.ungroup_spec.specs.Names.{named_up};

use crate::taken::Taken;
use netlist_schema::{Contents, Copied, Each, Inst, Listed, Name, NoMemory, Parts};
use std::alloc::Global;

/// The names of instances, taken.
fn taken_names(alloc: Global, insts: &Parts<Listed<Inst>>) -> Result<Taken, NoMemory>
    ensures { IfOk result (λ taken. IsOf taken (map (λ inst. inst.name.id) insts.now)) }
{
    let mut taken = Taken::new(alloc);
    for place in 0..insts.len() {
        taken.take(&insts.at(place).name.id)?;
    }
    Ok(taken)
}

/// Adds the instances, shared.
fn add_rest(insts: Each<'_, Listed<Inst>>, made: &mut Vec<Listed<Inst>>) -> Result<(), NoMemory>
    ensures { OnOk result (made.new.items ≡ made.old.items ++ insts.entry) }
{
    for inst in insts {
        made.push(inst.share()?)?;
    }
    Ok(())
}

/// Adds the instances before a place, shared.
fn add_front(
    insts: &Parts<Listed<Inst>>,
    place: usize,
    made: &mut Vec<Listed<Inst>>,
) -> Result<(), NoMemory>
    requires { place ≤ length insts.now }
    ensures { OnOk result (made.new.items ≡ made.old.items ++ take place insts.now) }
{
    for k in 0..place {
        made.push(insts.at(k).share()?)?;
    }
    Ok(())
}

/// The instance under a name.
fn named(alloc: Global, name: Name, inst: &Listed<Inst>) -> Result<Listed<Inst>, NoMemory>
    ensures { IfOk result (λ made. made ≡ with_inst_name name inst.now) }
{
    let inst = inst.get();
    let made = Inst {
        name,
        of: inst.of,
        designator: inst.designator.copy(alloc)?,
        properties: inst.properties.copy(alloc)?,
    };
    Listed::of(alloc, made)
}

/// Adds the instances under the names that they get where they move up out of an instance with this name.
fn add_children(
    alloc: Global,
    taken: &mut Taken,
    inst: &Name,
    children: &Parts<Listed<Inst>>,
    made: &mut Vec<Listed<Inst>>,
) -> Result<(), NoMemory>
    ensures { OnOk result ((names : List (List ℕ)) → IsOf taken.old names → length names + length children.now < 2 ^ 62
        → made.new.items ≡ made.old.items ++ named_up inst_name with_inst_name names inst.now children.now) }
{
    for place in 0..children.len() {
        let child = children.at(place);
        let name = taken.name_up(inst, &child.name)?;
        made.push(named(alloc, name, child)?)?;
    }
    Ok(())
}

/// The instances afterwards: the children stand in the place of the instance, under their new names.
pub(crate) fn insts_after(
    alloc: Global,
    around: &Contents,
    place: u32,
    within: &Contents,
) -> Result<Parts<Listed<Inst>>, NoMemory>
    requires around { length around.now.insts ≤ MOST_INSTS }
    requires within { length within.now.insts ≤ MOST_INSTS }
    requires place { place < length around.now.insts }
    ensures { IfOk result (λ made. (inst : InstType) → slice_get around.now.insts place ≡ Some inst → made ≡ insts_after (site around.now place inst within.now)) }
{
    let insts = &around.insts;
    let place = place as usize;
    let mut taken = taken_names(alloc, insts)?;
    let inst = insts.at(place);
    let children = &within.insts;
    let mut made = Vec::new(alloc);
    add_front(insts, place, &mut made)?;
    add_children(alloc, &mut taken, &inst.name, children, &mut made)?;
    add_rest(insts.iter_from(place + 1), &mut made)?;
    let after = Parts::of(alloc, made)?;
    Ok(after)
}
