//! Instances that are planned, and contents without one.
ghost use Rattle.std.specs.Prelude.{◌≡◌, [], ◌∷◌, false, OnOk, IfOk, IfSome, Some, map, option_to_list, slice_get, slice_set};
ghost use Rattle.std.specs.Option.{option_copied};
ghost use Rattle.edit_spec.specs.AddInst.{new_inst, no_new_inst};
ghost use Rattle.edit_spec.specs.DropInst.{end_without_inst, net_without_inst, without_inst};
ghost use Rattle.edit_rules_spec.specs.Rule.{first, no_inst};
ghost use Rattle.edit_cells.specs.Parts.{HasLimits};
ghost use Rattle.eco_reads.specs.Outcome.{UnlessNoMemory};
ghost use Rattle.eco_ops.specs.Insts.{more_insts};
ghost use Rattle.eco_reads.specs.Plan.{IsPlanned};

use eco_reads::{OpError, Plan, inst_place, is_inst_taken};
use edit_spec::Reply;
use netlist_schema::{
    CellId, Contents, Copied, End, Ident, Inst, Listed, MOST_INSTS, Name, Net, NoMemory, Parts, Row,
};
use std::alloc::Global;

/// An instance of a cell, without properties.
fn new_inst(alloc: Global, name: &Ident, of: CellId) -> Result<Inst, NoMemory>
    ensures { IfOk result (λ made. made ≡ new_inst name.now of) }
{
    Ok(Inst {
        name: Name {
            id: name.copy(alloc)?,
            shown: None,
        },
        of,
        designator: None,
        properties: Row::of(Vec::new(alloc)),
    })
}

/// One more instance in these contents, or why there is none.
#[tactic(auto, using(crate::proofs::InstsPlanned::too_many_insts, crate::proofs::InstsPlanned::inst_planned))]
pub(crate) fn plan_inst(
    alloc: Global,
    contents: Option<&Contents>,
    inst: &Ident,
    of: CellId,
    later: bool,
    cyclic: bool,
) -> Result<Plan, OpError>
    ensures { let old = option_copied contents.entry in
        UnlessNoMemory (IsPlanned old (first (no_new_inst old inst.now later cyclic)) (more_insts inst.now of old)) result }
{
    let Some(contents) = contents else {
        return Err(OpError::Refused(Reply::IsLeaf));
    };
    if is_inst_taken(&contents.insts, inst) {
        return Err(OpError::Refused(Reply::Taken));
    }
    if later {
        return Err(OpError::Refused(Reply::LaterLibrary));
    }
    if cyclic {
        return Err(OpError::Refused(Reply::IsCyclic));
    }
    let place = contents.insts.len();
    if place >= MOST_INSTS {
        return Err(OpError::Refused(Reply::TooMany {
            limit: MOST_INSTS as u64,
        }));
    }
    let inst = new_inst(alloc, inst, of)?;
    Ok(Plan::Inst {
        place: place as u32,
        inst,
    })
}

/// The end as it is where an instance is gone: none at the instance, and one place forward at later ones.
fn moved(place: u32, end: &End) -> Option<End>
    ensures { option_to_list result ≡ end_without_inst place end.now }
{
    match end.inst {
        None => Some(*end),
        Some(i) => {
            if i == place {
                None
            } else if place < i {
                Some(End {
                    inst: Some(i - 1),
                    port: end.port,
                    bit: end.bit,
                })
            } else {
                Some(*end)
            }
        }
    }
}

/// The net without the ends at an instance.
fn net_without(alloc: Global, place: u32, net: &Net) -> Result<Net, NoMemory>
    ensures { IfOk result (λ made. made ≡ net_without_inst place net.now) }
{
    let mut ends = Vec::new(alloc);
    for end in net.ends.as_slice() {
        if let Some(end) = moved(place, end) {
            ends.push(end)?;
        }
    }
    Ok(Net {
        name: net.name.copy(alloc)?,
        ends: Row::of(ends),
        properties: net.properties.share()?,
    })
}

/// Whether an end is at an instance from this place on.
fn is_from(place: u32, end: &End) -> bool
    ensures { result ≡ false → end_without_inst place end.now ≡ end.now ∷ [] }
{
    match end.inst {
        Some(i) => place <= i,
        None => false,
    }
}

/// Whether the net has an end at an instance from this place on: without one it stays as it is, where the instance is gone.
#[tactic(auto, using(crate::proofs::MarkedEnds::stay_before))]
fn has_end_from(place: u32, net: &Listed<Net>) -> bool
    ensures { result ≡ false → net_without_inst place net.now ≡ net.now }
{
    if net.mark().last < place {
        return false;
    }
    for end in net.ends.as_slice() {
        if is_from(place, end) {
            return true;
        }
    }
    false
}

/// Takes the ends at an instance out of the net at a place. A net with no end at that instance or a later one stays.
fn put_without(
    alloc: Global,
    inst: u32,
    nets: &mut Parts<Listed<Net>>,
    place: usize,
    net: &Listed<Net>,
) -> Result<(), NoMemory>
    requires { slice_get nets.old place ≡ Some net.now }
    ensures { OnOk result (nets.new ≡ slice_set nets.old place (net_without_inst inst net.now)) }
{
    if !has_end_from(inst, net) {
        return Ok(());
    }
    let made = Listed::of(alloc, net_without(alloc, inst, net)?)?;
    nets.put(alloc, place, made)
}

/// The nets without the ends at an instance. Nets with no end at that instance or a later one are shared, page by page.
fn nets_without(
    alloc: Global,
    inst: u32,
    nets: &Parts<Listed<Net>>,
) -> Result<Parts<Listed<Net>>, NoMemory>
    ensures { IfOk result (λ made. made ≡ map (net_without_inst inst) nets.now) }
{
    let mut made = nets.copy(alloc)?;
    for place in 0..nets.len() {
        put_without(alloc, inst, &mut made, place, nets.at(place))?;
    }
    Ok(made)
}

/// The contents without an instance, or why there are none. Nets that stay as they are are shared.
pub(crate) fn without_inst(
    alloc: Global,
    contents: Option<&Contents>,
    inst: &Ident,
) -> Result<Plan, OpError>
    requires { IfSome contents (λ inside. HasLimits inside.now) }
    ensures { let old = option_copied contents.entry in
        UnlessNoMemory (IsPlanned old (first (no_inst old inst.now ∷ [])) (without_inst old inst.now)) result }
{
    let Some(contents) = contents else {
        return Err(OpError::Refused(Reply::NoInst));
    };
    let Some(place) = inst_place(&contents.insts, inst) else {
        return Err(OpError::Refused(Reply::NoInst));
    };
    let mut insts = contents.insts.copy(alloc)?;
    let _gone = insts.remove(alloc, place)?;
    let nets = nets_without(alloc, place as u32, &contents.nets)?;
    Ok(Plan::Whole(Contents { insts, nets }))
}
