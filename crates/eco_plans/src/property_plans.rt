//! Properties that are planned.
ghost use Rattle.std.specs.Prelude.{◌≡◌, [], ◌∷◌, IfOk, IfSome};
ghost use Rattle.std.specs.Option.{option_copied, option_map_or};
ghost use Rattle.edit_rules_spec.specs.Rule.{first, no_inst};
ghost use Rattle.edit_spec.specs.Inside.{no_net};
ghost use Rattle.edit_spec.specs.SetProp.{set_property};
ghost use Rattle.edit_cells.specs.Parts.{HasLimits};
ghost use Rattle.eco_reads.specs.Outcome.{UnlessNoMemory};
ghost use Rattle.eco_reads.specs.Plan.{IsPlanned};
ghost use Rattle.eco_plans.specs.Props.{insts_set, nets_set};

use eco_reads::{OpError, Plan, inst_place, net_place, property_place};
use edit_cells::Face;
use edit_spec::Reply;
use netlist_schema::{Contents, Copied, Ident, Inst, Net, NoMemory, Property, Row, SharedRow};
use std::alloc::Global;

/// A copy of properties.
fn copies(alloc: Global, properties: &[Property]) -> Result<Row<Property>, NoMemory>
    ensures { IfOk result (λ made. made ≡ properties.now) }
{
    let mut made = Vec::with_capacity(alloc, properties.len())?;
    for property in properties {
        made.push(property.copy(alloc)?)?;
    }
    Ok(Row::of(made))
}

/// The properties with one set: in place of that of equal key, else at the end.
fn with_property(
    alloc: Global,
    properties: &[Property],
    property: &Property,
) -> Result<Row<Property>, NoMemory>
    ensures { IfOk result (λ made. made ≡ set_property property.now properties.now) }
{
    let mut made = copies(alloc, properties)?;
    match property_place(properties, &property.key.id) {
        Some(place) => made.set(place, property.copy(alloc)?),
        None => made.push(property.copy(alloc)?)?,
    }
    Ok(made)
}

/// An instance with a property set.
fn inst_with(alloc: Global, inst: &Inst, property: &Property) -> Result<Inst, NoMemory>
    ensures { IfOk result (λ made. made ≡ record inst.now { properties = set_property property.now inst.now.properties }) }
{
    Ok(Inst {
        name: inst.name.copy(alloc)?,
        of: inst.of,
        designator: inst.designator.copy(alloc)?,
        properties: with_property(alloc, inst.properties.as_slice(), property)?,
    })
}

/// A net with a property set.
fn net_with(alloc: Global, net: &Net, property: &Property) -> Result<Net, NoMemory>
    ensures { IfOk result (λ made. made ≡ record net.now { properties = set_property property.now net.now.properties }) }
{
    let properties = with_property(alloc, net.properties.as_slice(), property)?;
    Ok(Net {
        name: net.name.copy(alloc)?,
        ends: net.ends.copy(alloc)?,
        properties: SharedRow::of(alloc, properties)?,
    })
}

/// An instance of these contents with a property set, or why there is none.
#[tactic(auto, using(crate::proofs::Properties::no_inst_found, crate::proofs::Properties::inst_planned))]
pub(crate) fn plan_inst_property(
    alloc: Global,
    contents: Option<&Contents>,
    inst: &Ident,
    property: &Property,
) -> Result<Plan, OpError>
    requires { IfSome contents (λ inside. HasLimits inside.now) }
    ensures { let old = option_copied contents.entry in
        UnlessNoMemory (IsPlanned old (first (no_inst old inst.now ∷ [])) (insts_set inst.now property.now old)) result }
{
    let Some(contents) = contents else {
        return Err(OpError::Refused(Reply::NoInst));
    };
    let Some(place) = inst_place(&contents.insts, inst) else {
        return Err(OpError::Refused(Reply::NoInst));
    };
    let inst = inst_with(alloc, contents.insts.at(place), property)?;
    Ok(Plan::Inst {
        place: place as u32,
        inst,
    })
}

/// A net of these contents with a property set, or why there is none.
#[tactic(auto, using(crate::proofs::NetsPlanned::no_net_found, crate::proofs::Properties::net_planned))]
pub(crate) fn plan_net_property(
    alloc: Global,
    contents: Option<&Contents>,
    net: &Ident,
    property: &Property,
) -> Result<Plan, OpError>
    requires { IfSome contents (λ inside. HasLimits inside.now) }
    ensures { let old = option_copied contents.entry in
        UnlessNoMemory (IsPlanned old (first (no_net old net.now ∷ [])) (nets_set net.now property.now old)) result }
{
    let Some(contents) = contents else {
        return Err(OpError::Refused(Reply::NoNet));
    };
    let Some(place) = net_place(&contents.nets, net) else {
        return Err(OpError::Refused(Reply::NoNet));
    };
    let net = net_with(alloc, contents.nets.at(place), property)?;
    Ok(Plan::Net {
        place: place as u32,
        net,
    })
}

/// The properties of a cell with one set.
pub(crate) fn with_own_property(
    alloc: Global,
    face: Option<Face<'_>>,
    property: &Property,
) -> Result<Row<Property>, NoMemory>
    ensures { IfOk result (λ made. made ≡ set_property property.now (option_map_or (λ seen. seen.properties.now) face.entry [])) }
{
    match face {
        Some(seen) => with_property(alloc, seen.properties.as_slice(), property),
        None => with_property(alloc, &[], property),
    }
}
