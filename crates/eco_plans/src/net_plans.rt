//! Nets that are planned, and contents without one.
ghost use Rattle.std.specs.Prelude.{◌≡◌, IfOk, [], ◌∷◌};
ghost use Rattle.std.specs.Option.{option_copied};
ghost use Rattle.netlist_schema.specs.Design.{insts_in, nets_in};
ghost use Rattle.edit_rules_spec.specs.Rule.{first};
ghost use Rattle.edit_spec.specs.AddNet.{new_net, no_new_net, with_net};
ghost use Rattle.edit_spec.specs.DropNet.{without_net};
ghost use Rattle.edit_spec.specs.Inside.{no_net};
ghost use Rattle.eco_reads.specs.Outcome.{UnlessNoMemory};
ghost use Rattle.eco_reads.specs.Plan.{IsPlanned};

use eco_reads::{OpError, Plan, is_net_taken, net_place};
use edit_spec::Reply;
use netlist_schema::{Contents, Copied, Ident, MOST_NETS, Name, Net, NoMemory, Row, SharedRow};
use std::alloc::Global;

/// A net without ends.
fn new_net(alloc: Global, name: &Ident) -> Result<Net, NoMemory>
    ensures { IfOk result (λ made. made ≡ new_net name.now) }
{
    Ok(Net {
        name: Name {
            id: name.copy(alloc)?,
            shown: None,
        },
        ends: Row::of(Vec::new(alloc)),
        properties: SharedRow::empty(),
    })
}

/// One more net in these contents, or why there is none.
#[tactic(auto, using(crate::proofs::NetsPlanned::too_many_nets, crate::proofs::NetsPlanned::net_planned))]
pub(crate) fn plan_net(
    alloc: Global,
    contents: Option<&Contents>,
    net: &Ident,
) -> Result<Plan, OpError>
    ensures { let old = option_copied contents.entry in
        UnlessNoMemory (IsPlanned old (first (no_new_net old net.now)) (record { insts = insts_in old; nets = with_net net.now (nets_in old) })) result }
{
    let Some(contents) = contents else {
        return Err(OpError::Refused(Reply::IsLeaf));
    };
    if is_net_taken(&contents.nets, net) {
        return Err(OpError::Refused(Reply::Taken));
    }
    let place = contents.nets.len();
    if place >= MOST_NETS {
        return Err(OpError::Refused(Reply::TooMany {
            limit: MOST_NETS as u64,
        }));
    }
    let net = new_net(alloc, net)?;
    Ok(Plan::Net {
        place: place as u32,
        net,
    })
}

/// The contents without a net, or why there are none.
#[tactic(auto, using(crate::proofs::NetsPlanned::no_net_found, crate::proofs::NetsPlanned::net_found))]
pub(crate) fn without_net(
    alloc: Global,
    contents: Option<&Contents>,
    net: &Ident,
) -> Result<Plan, OpError>
    ensures { let old = option_copied contents.entry in
        UnlessNoMemory (IsPlanned old (first (no_net old net.now ∷ [])) (record { insts = insts_in old; nets = without_net net.now (nets_in old) })) result }
{
    let Some(contents) = contents else {
        return Err(OpError::Refused(Reply::NoNet));
    };
    let Some(place) = net_place(&contents.nets, net) else {
        return Err(OpError::Refused(Reply::NoNet));
    };
    let mut nets = contents.nets.copy(alloc)?;
    let _gone = nets.remove(alloc, place)?;
    let insts = contents.insts.copy(alloc)?;
    Ok(Plan::Whole(Contents { insts, nets }))
}
