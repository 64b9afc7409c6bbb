//! What is shown.
ghost use Rattle.std.specs.Prelude.{◌≡◌, ◌≤◌, ◌++◌, [], ◌∷◌, IfOk, IfSome, MatchOption, OnOk, None, Some, is_none, length, map, option_and_then, option_map, option_to_list, slice_get};
ghost use Rattle.std.specs.Option.{option_copied, option_map_or};
ghost use Rattle.netlist_schema.specs.Design.{insts_in, nets_in};
ghost use Rattle.netlist_schema.specs.declared.limits.TheConstants.{MOST_PORTS};
ghost use Rattle.edit_rules_spec.specs.Find.{inst_named};
ghost use Rattle.edit_rules_spec.specs.Rule.{first};
ghost use Rattle.edit_rules_spec.specs.declared.reply.Reply.TheVariants.{NoNet};
ghost use Rattle.edit_spec.specs.Inside.{no_net};
ghost use Rattle.edit_spec.specs.ShowNet.{ends_of_net};
ghost use Rattle.edit_cells.specs.Parts.{HasLimits};
ghost use Rattle.eco_plans.specs.Shown.{end_seen, ends_seen, seen_end};

use eco_reads::{inst_place, net_place};
use edit_cells::Face;
use edit_spec::Reply;
use netlist_schema::{CellId, Contents, Copied, End, Ident, LibHead, NoMemory, Property, Row};
use std::alloc::Global;

/// The number of ports of a cell, 0 where there is no cell.
pub(crate) fn port_count(face: Option<Face<'_>>) -> u32
    requires { IfSome face (λ seen. length seen.ports.now ≤ MOST_PORTS) }
    ensures { result ≡ option_map_or (λ seen. length seen.ports.now) face.entry 0 }
{
    match face {
        Some(seen) => seen.ports.as_slice().len() as u32,
        None => 0,
    }
}

/// The reply that shows a cell with this number of ports.
pub(crate) fn shown(ports: u32, contents: Option<&Contents>) -> Reply
    requires { IfSome contents (λ inside. HasLimits inside.now) }
    ensures { result ≡ Reply.Cell ports (length (insts_in (option_copied contents.entry))) (length (nets_in (option_copied contents.entry))) (is_none (option_copied contents.entry)) }
{
    match contents {
        Some(inside) => Reply::Cell {
            ports,
            insts: inside.insts.len() as u32,
            nets: inside.nets.len() as u32,
            leaf: false,
        },
        None => Reply::Cell {
            ports,
            insts: 0,
            nets: 0,
            leaf: true,
        },
    }
}

/// An end of a net with the name of its instance, where it is at one, and the cell whose port it is at.
#[derive(Drop)]
pub struct EndAt {
    pub port: u32,
    pub bit: u32,
    pub inst: Option<Ident>,
    pub of: CellId,
}

/// An end of a net of these contents, where its instance is there.
fn end_at(
    alloc: Global,
    contents: &Contents,
    id: CellId,
    end: &End,
) -> Result<Option<EndAt>, NoMemory>
    ensures { IfOk result (λ found. option_map seen_end found ≡ end_seen (Some contents.now) id end.now end.now.inst) }
{
    let Some(place) = end.inst else {
        return Ok(Some(EndAt {
            port: end.port,
            bit: end.bit,
            inst: None,
            of: id,
        }));
    };
    match contents.insts.get(place as usize) {
        Some(inst) => Ok(Some(EndAt {
            port: end.port,
            bit: end.bit,
            inst: Some(inst.name.id.copy(alloc)?),
            of: inst.of,
        })),
        None => Ok(None),
    }
}

/// Puts an end on the list, where its instance is there.
fn push_end(
    alloc: Global,
    contents: &Contents,
    id: CellId,
    end: &End,
    ends: &mut Vec<EndAt>,
) -> Result<(), NoMemory>
    ensures { OnOk result (map seen_end ends.new.items ≡ map seen_end ends.old.items ++ option_to_list (end_seen (Some contents.now) id end.now end.now.inst)) }
{
    match end_at(alloc, contents, id, end)? {
        Some(at) => {
            ends.push(at)?;
            Ok(())
        }
        None => Ok(()),
    }
}

/// These ends of nets of the contents.
fn ends_at(
    alloc: Global,
    contents: &Contents,
    id: CellId,
    ends: &Row<End>,
) -> Result<Vec<EndAt>, NoMemory>
    ensures { IfOk result (λ made. map seen_end made.items ≡ ends_seen (Some contents.now) id ends.now) }
{
    let mut made = Vec::new(alloc);
    for end in ends.as_slice() {
        push_end(alloc, contents, id, end, &mut made)?;
    }
    Ok(made)
}

/// The ends of a net of the contents; none where there is no such net.
pub(crate) fn ends_of(
    alloc: Global,
    contents: Option<&Contents>,
    id: CellId,
    net: &Ident,
) -> Result<Option<Vec<EndAt>>, NoMemory>
    ensures { let old = option_copied contents.entry in
        IfOk result (λ found. MatchOption found (first (no_net old net.now ∷ []) ≡ Some NoNet) (λ ends. (first (no_net old net.now ∷ []) ≡ None) × (map seen_end ends.items ≡ ends_seen old id (ends_of_net old net.now)))) }
{
    let Some(contents) = contents else {
        return Ok(None);
    };
    let Some(place) = net_place(&contents.nets, net) else {
        return Ok(None);
    };
    let ends = ends_at(alloc, contents, id, &contents.nets.at(place).ends)?;
    Ok(Some(ends))
}

/// The name of a port of a cell.
pub(crate) fn port_name(
    alloc: Global,
    face: Option<Face<'_>>,
    port: u32,
) -> Result<Option<Ident>, NoMemory>
    ensures { IfOk result (λ found. found ≡ option_map (λ p. p.name.id) (option_and_then (λ ports. slice_get ports port) (option_map (λ seen. seen.ports.now) face.entry))) }
{
    let Some(seen) = face else {
        return Ok(None);
    };
    match seen.ports.as_slice().get(port as usize) {
        Some(port) => Ok(Some(port.name.id.copy(alloc)?)),
        None => Ok(None),
    }
}

/// The cell of an instance, and its properties; none where there is no such instance.
pub(crate) fn inst_of(
    alloc: Global,
    contents: Option<&Contents>,
    inst: &Ident,
) -> Result<Option<(CellId, Row<Property>)>, NoMemory>
    ensures { IfOk result (λ found. found ≡ option_map (λ i. (i.of, i.properties)) (inst_named inst.now (insts_in (option_copied contents.entry)))) }
{
    let Some(contents) = contents else {
        return Ok(None);
    };
    let Some(place) = inst_place(&contents.insts, inst) else {
        return Ok(None);
    };
    let inst = contents.insts.at(place);
    Ok(Some((inst.of, inst.properties.copy(alloc)?)))
}

/// The name of a cell.
pub(crate) fn cell_name(alloc: Global, face: Option<Face<'_>>) -> Result<Option<Ident>, NoMemory>
    ensures { IfOk result (λ found. found ≡ option_map (λ seen. seen.name.now.id) face.entry) }
{
    match face {
        Some(seen) => Ok(Some(seen.name.id.copy(alloc)?)),
        None => Ok(None),
    }
}

/// The name of a library.
pub(crate) fn lib_name(alloc: Global, head: Option<&LibHead>) -> Result<Option<Ident>, NoMemory>
    ensures { IfOk result (λ found. found ≡ option_map (λ h. h.name.id) (option_copied head.entry)) }
{
    match head {
        Some(head) => Ok(Some(head.name.id.copy(alloc)?)),
        None => Ok(None),
    }
}
