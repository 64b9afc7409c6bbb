//! The nets afterwards.
ghost use Rattle.std.specs.Prelude.{◌≡◌, ◌<◌, ◌≤◌, ◌+◌, ◌++◌, ◌^◌, List, ℕ, IfOk, OnOk, length, map};
ghost use Rattle.netlist_schema.specs.declared.limits.TheConstants.{MOST_NETS};
ghost use Rattle.ungroup_plans.specs.Taken.{IsOf};
ghost use Rattle.ungroup_plans.specs.Grouped.{AreGrouped};
ghost use Rattle.ungroup_spec.specs.Dissolved.{net_name, nets_after, with_net_name};
ghost use Rattle.ungroup_spec.specs.Groups.{Site};
ghost use Rattle.ungroup_spec.specs.Names.{named_up};

use crate::groups::Grouped;
use crate::taken::Taken;
use netlist_schema::{Copied, Listed, Name, Net, NoMemory, Parts};
use std::alloc::Global;

/// The names of nets, taken.
fn taken_names(alloc: Global, nets: &Parts<Listed<Net>>) -> Result<Taken, NoMemory>
    ensures { IfOk result (λ taken. IsOf taken (map (λ net. net.name.id) nets.now)) }
{
    let mut taken = Taken::new(alloc);
    for place in 0..nets.len() {
        taken.take(&nets.at(place).name.id)?;
    }
    Ok(taken)
}

/// The net under a name.
fn named(alloc: Global, name: Name, net: &Listed<Net>) -> Result<Listed<Net>, NoMemory>
    ensures { IfOk result (λ made. made ≡ with_net_name name net.now) }
{
    let net = net.get();
    let made = Net {
        name,
        ends: net.ends.copy(alloc)?,
        properties: net.properties.share()?,
    };
    Listed::of(alloc, made)
}

/// Adds the nets under the names that they get where they move up out of an instance with this name.
fn add_new(
    alloc: Global,
    taken: &mut Taken,
    inst: &Name,
    nets: &[Listed<Net>],
    made: &mut Vec<Listed<Net>>,
) -> Result<(), NoMemory>
    ensures { OnOk result ((names : List (List ℕ)) → IsOf taken.old names → length names + length nets.now < 2 ^ 62
        → made.new.items ≡ made.old.items ++ named_up net_name with_net_name names inst.now nets.now) }
{
    for net in nets {
        let name = taken.name_up(inst, &net.name)?;
        made.push(named(alloc, name, net)?)?;
    }
    Ok(())
}

/// The nets afterwards: those that stay, and then the new ones under their new names.
pub(crate) fn nets_after(
    alloc: Global,
    around: &Parts<Listed<Net>>,
    inst: &Name,
    grouped: Grouped,
) -> Result<Parts<Listed<Net>>, NoMemory>
    requires around { length around.now ≤ MOST_NETS }
    requires loose { length grouped.loose ≤ MOST_NETS }
    ensures { IfOk result (λ made. (s : Site) → s.around.nets ≡ around.now → s.inst.name ≡ inst.now → AreGrouped s grouped → made ≡ nets_after s) }
{
    let Grouped { kept, loose } = grouped;
    let mut taken = taken_names(alloc, around)?;
    let mut made = kept.into_vec();
    add_new(alloc, &mut taken, inst, loose.as_slice(), &mut made)?;
    let after = Parts::of(alloc, made)?;
    Ok(after)
}
