//! Ends that are planned.
ghost use Rattle.std.specs.Prelude.{◌≡◌, ◌≤◌, ◌<◌, ◌++◌, [], ◌∷◌, filter, not, OnOk, None, IfOk, IfSome, List, MatchResult, Option, Some, length, option_map, option_and_then, position, false};
ghost use Rattle.std.specs.List.{flat_map};
ghost use Rattle.std.specs.Option.{option_copied};
ghost use Rattle.netlist_schema.specs.Design.{insts_in, nets_in};
ghost use Rattle.netlist_schema.specs.Names.{AreDistinct};
ghost use Rattle.netlist_schema.specs.Types.{Port};
ghost use Rattle.netlist_schema.specs.declared.limits.TheConstants.{MOST_ENDS, MOST_PORTS};
ghost use Rattle.edit_spec.specs.Cut.{is_end, net_without_end, not_joined, without_end, no_cut};
ghost use Rattle.edit_spec.specs.Ends.{bad_bit, end_inst, end_named, joins_end, no_end_inst, no_port};
ghost use Rattle.flat_spec.specs.ConnectionTest.{same_end};
ghost use Rattle.edit_spec.specs.Join.{net_with_end, no_join, with_end};
ghost use Rattle.edit_rules_spec.specs.Edit.{changed_at};
ghost use Rattle.edit_rules_spec.specs.Find.{inst_place};
ghost use Rattle.edit_rules_spec.specs.Rule.{first, refuse};
ghost use Rattle.edit_rules_spec.specs.declared.reply.Reply.TheVariants.{NoInst};
ghost use Rattle.edit_cells.specs.Parts.{HasLimits};
ghost use Rattle.eco_reads.specs.Outcome.{UnlessNoMemory};
ghost use Rattle.eco_reads.specs.Plan.{IsPlanned};
ghost use Rattle.eco_ops.specs.Ends.{cell_of_end, no_more_end, port_in, seen_port};

use eco_reads::{OpError, Plan, inst_place, net_place, port_place};
use edit_cells::Face;
use edit_spec::{EndName, Reply};
use netlist_schema::{
    CellId, Contents, Copied, End, Ident, Listed, MOST_ENDS, Net, NoMemory, Parts, Row, end_bit,
};
use std::alloc::Global;

/// A port, by its place and its width.
#[derive(Clone, Copy)]
pub struct PortAt {
    pub place: u32,
    pub width: u32,
}

/// The cell that has the port of an end: the cell itself, or that of the instance that is named, where it is there.
pub(crate) fn cell_of_end(
    contents: Option<&Contents>,
    id: CellId,
    inst: &Option<Ident>,
) -> Option<CellId>
    ensures { result ≡ cell_of_end (option_copied contents.entry) id inst.now }
{
    let Some(name) = inst else {
        return Some(id);
    };
    let contents = contents?;
    let place = inst_place(&contents.insts, name)?;
    Some(contents.insts.at(place).of)
}

/// The port with this name.
pub(crate) fn port_of(face: Option<Face<'_>>, name: &Ident) -> Option<PortAt>
    requires { IfSome face (λ seen. length seen.ports.now ≤ MOST_PORTS) }
    ensures { option_map seen_port result ≡ option_and_then (port_in name.now) (option_map (λ seen. seen.ports.now) face.entry) }
{
    let face = face?;
    let place = port_place(face.ports, name)?;
    let width = match &face.ports.as_slice()[place].array {
        Some(width) => width.get(),
        None => 1,
    };
    Some(PortAt {
        place: place as u32,
        width,
    })
}

/// Whether the two are one end.
fn is_same_end(a: &End, b: &End) -> bool
    ensures { result ≡ same_end a.now b.now }
{
    a == b
}

fn has_end(net: &Net, end: &End) -> bool
    ensures { result ≡ joins_end end.now net.now }
{
    net.ends
        .as_slice()
        .iter()
        .any(|other| is_same_end(end, other))
}

/// Whether a net may have an end, by its mark: most nets that have it not are told without a look at their ends.
#[tactic(auto, using(crate::proofs::MarkedEnds::none_had))]
fn may_have(net: &Listed<Net>, end: &End) -> bool
    ensures { result ≡ false → joins_end end.now net.now ≡ false }
{
    net.mark().bits & end_bit(end) != 0
}

/// Whether a net has an end.
fn joins(net: &Listed<Net>, end: &End) -> bool
    ensures { result ≡ joins_end end.now net.now }
{
    may_have(net, end) && has_end(net, end)
}

fn net_position(nets: &Parts<Listed<Net>>, end: &End) -> Option<usize>
    ensures { result ≡ position (joins_end end.now) nets.now }
{
    nets.iter().position(|net| joins(net, end))
}

/// The place of the first net that has an end.
fn net_of_end(nets: &Parts<Listed<Net>>, end: &End) -> Option<usize>
    ensures value { result ≡ position (joins_end end.now) nets.now }
    ensures within { IfSome result (λ place. place < length nets.now) }
{
    net_position(nets, end)
}

/// The number of ends of all nets.
fn end_count(nets: &Parts<Listed<Net>>) -> usize
    requires { length (flat_map (λ net. net.ends) nets.now) ≤ MOST_ENDS }
    ensures { result ≡ length (flat_map (λ net. net.ends) nets.now) }
{
    let mut count = 0usize;
    for net in nets.iter() {
        count += net.mark().ends as usize;
    }
    count
}

/// The place of the instance with this name.
fn inst_at(contents: Option<&Contents>, name: &Ident) -> Option<u32>
    requires { IfSome contents (λ inside. HasLimits inside.now) }
    ensures { result ≡ inst_place name.now (insts_in (option_copied contents.entry)) }
{
    let contents = contents?;
    let place = inst_place(&contents.insts, name)?;
    Some(place as u32)
}

/// Whether the instance that an end names is not there.
fn lacks_inst(contents: Option<&Contents>, inst: &Option<Ident>) -> bool
    requires { IfSome contents (λ inside. HasLimits inside.now) }
    ensures { no_end_inst (option_copied contents.entry) inst.now ≡ refuse result NoInst }
{
    match inst {
        Some(name) => inst_at(contents, name).is_none(),
        None => false,
    }
}

/// The place of the instance of an end, or the refusal where it is not there.
fn end_inst(contents: Option<&Contents>, inst: &Option<Ident>) -> Result<Option<u32>, Reply>
    requires { IfSome contents (λ inside. HasLimits inside.now) }
    ensures { let old = option_copied contents.entry in
        MatchResult result (λ place. (no_end_inst old inst.now ≡ None) × (place ≡ end_inst old inst.now)) (λ refusal. (refusal ≡ NoInst) × (no_end_inst old inst.now ≡ Some NoInst)) }
{
    match inst {
        Some(name) => match inst_at(contents, name) {
            Some(place) => Ok(Some(place)),
            None => Err(Reply::NoInst),
        },
        None => Ok(None),
    }
}

/// The end with a name in contents that have its instance, or the refusal where the port or the bit is not there.
fn end_at(contents: Option<&Contents>, port: Option<PortAt>, end: &EndName) -> Result<End, Reply>
    requires { IfSome contents (λ inside. HasLimits inside.now) }
    ensures { let old = option_copied contents.entry in (ports : Option (List Port)) → option_and_then (port_in end.now.port) ports ≡ option_map seen_port port → no_end_inst old end.now.inst ≡ None →
        MatchResult result
        (λ made. (first (no_port ports end.now.port ∷ bad_bit ports end.now.port end.now.bit ∷ []) ≡ None) × (end_named old ports end.now ≡ Some made))
        (λ refusal. first (no_port ports end.now.port ∷ bad_bit ports end.now.port end.now.bit ∷ []) ≡ Some refusal) }
{
    let Some(port) = port else {
        return Err(Reply::NoPort);
    };
    if end.bit >= port.width {
        return Err(Reply::BadBit { width: port.width });
    }
    match end_inst(contents, &end.inst) {
        Ok(inst) => Ok(End {
            inst,
            port: port.place,
            bit: end.bit,
        }),
        Err(refusal) => Err(refusal),
    }
}

/// A net with one more end.
fn net_joined(alloc: Global, net: &Net, end: End) -> Result<Net, NoMemory>
    ensures { IfOk result (λ made. made ≡ net_with_end (Some end) net.now) }
{
    let mut ends = net.ends.copy(alloc)?;
    ends.push(end)?;
    Ok(Net {
        name: net.name.copy(alloc)?,
        ends,
        properties: net.properties.share()?,
    })
}

/// The net at a place with one more end, or why there is none.
#[tactic(auto, using(crate::proofs::Joined::end_joined, crate::proofs::Joined::too_many_ends, crate::proofs::Joined::end_planned))]
fn plan_end(alloc: Global, contents: &Contents, place: usize, at: End) -> Result<Plan, OpError>
    requires limits { HasLimits contents.now }
    requires within { place < length contents.now.nets }
    ensures { UnlessNoMemory (IsPlanned (Some contents.now) (first (no_more_end contents.now at)) (record contents.now { nets = changed_at (net_with_end (Some at)) place contents.now.nets })) result }
{
    if let Some(joined) = net_of_end(&contents.nets, &at) {
        return Err(OpError::Refused(Reply::AlreadyJoined {
            net: contents.nets.at(joined).name.id.copy(alloc)?,
        }));
    }
    if end_count(&contents.nets) >= MOST_ENDS {
        return Err(OpError::Refused(Reply::TooMany {
            limit: MOST_ENDS as u64,
        }));
    }
    let net = net_joined(alloc, contents.nets.at(place), at)?;
    Ok(Plan::Net {
        place: place as u32,
        net,
    })
}

/// A net of these contents with one more end, or why there is none.
pub(crate) fn plan_join(
    alloc: Global,
    contents: Option<&Contents>,
    port: Option<PortAt>,
    net: &Ident,
    end: &EndName,
) -> Result<Plan, OpError>
    requires { IfSome contents (λ inside. HasLimits inside.now) }
    ensures { let old = option_copied contents.entry in (ports : Option (List Port)) → option_and_then (port_in end.now.port) ports ≡ option_map seen_port port →
        UnlessNoMemory (IsPlanned old (first (no_join old ports net.now end.now)) (record { insts = insts_in old; nets = with_end net.now (end_named old ports end.now) (nets_in old) })) result }
{
    if lacks_inst(contents, &end.inst) {
        return Err(OpError::Refused(Reply::NoInst));
    }
    let Some(contents) = contents else {
        return Err(OpError::Refused(Reply::NoNet));
    };
    let Some(place) = net_place(&contents.nets, net) else {
        return Err(OpError::Refused(Reply::NoNet));
    };
    let at = end_at(Some(contents), port, end)?;
    plan_end(alloc, contents, place, at)
}

/// Keeps an end, where it is another one.
fn keep_end(kept: &mut Vec<End>, end: &End, other: &End) -> Result<(), NoMemory>
    ensures { OnOk result (kept.new.items ≡ kept.old.items ++ filter (λ e. not (is_end (Some end.now) e)) (other.now ∷ [])) }
{
    if is_same_end(other, end) {
        return Ok(());
    }
    kept.push(*other)?;
    Ok(())
}

/// The ends that are not this one.
fn other_ends(alloc: Global, ends: &Row<End>, end: &End) -> Result<Row<End>, NoMemory>
    ensures { IfOk result (λ made. made ≡ filter (λ e. not (is_end (Some end.now) e)) ends.now) }
{
    let mut kept = Vec::new(alloc);
    for other in ends.as_slice() {
        keep_end(&mut kept, end, other)?;
    }
    Ok(Row::of(kept))
}

/// The net without an end.
fn net_cut(alloc: Global, net: &Net, end: &End) -> Result<Net, NoMemory>
    ensures { IfOk result (λ made. made ≡ net_without_end (Some end.now) net.now) }
{
    Ok(Net {
        name: net.name.copy(alloc)?,
        ends: other_ends(alloc, &net.ends, end)?,
        properties: net.properties.share()?,
    })
}

/// The net of these contents that has an end, without it; or why there is none.
#[tactic(auto, using(crate::proofs::CutEnds::not_joined_here, crate::proofs::CutEnds::end_cut))]
fn plan_without(alloc: Global, contents: &Contents, at: End) -> Result<Plan, OpError>
    requires limits { HasLimits contents.now }
    requires once { AreDistinct (flat_map (λ net. net.ends) contents.now.nets) }
    ensures { UnlessNoMemory (IsPlanned (Some contents.now) (not_joined (Some contents.now) (Some at)) (record contents.now { nets = without_end (Some at) contents.now.nets })) result }
{
    let Some(place) = net_of_end(&contents.nets, &at) else {
        return Err(OpError::Refused(Reply::NotJoined));
    };
    let net = net_cut(alloc, contents.nets.at(place), &at)?;
    Ok(Plan::Net {
        place: place as u32,
        net,
    })
}

/// The net of these contents that has an end, without it; or why there is none.
pub(crate) fn plan_cut(
    alloc: Global,
    contents: Option<&Contents>,
    port: Option<PortAt>,
    end: &EndName,
) -> Result<Plan, OpError>
    requires limits { IfSome contents (λ inside. HasLimits inside.now) }
    requires once { IfSome contents (λ inside. AreDistinct (flat_map (λ net. net.ends) inside.now.nets)) }
    ensures { let old = option_copied contents.entry in (ports : Option (List Port)) → option_and_then (port_in end.now.port) ports ≡ option_map seen_port port →
        UnlessNoMemory (IsPlanned old (first (no_cut old ports end.now)) (record { insts = insts_in old; nets = without_end (end_named old ports end.now) (nets_in old) })) result }
{
    if lacks_inst(contents, &end.inst) {
        return Err(OpError::Refused(Reply::NoInst));
    }
    let at = end_at(contents, port, end)?;
    match contents {
        Some(contents) => plan_without(alloc, contents, at),
        None => Err(OpError::Refused(Reply::NotJoined)),
    }
}
