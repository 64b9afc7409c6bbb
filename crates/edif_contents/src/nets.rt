//! Nets.
ghost use Rattle.std.specs.Prelude.{◌≡◌, ◌+◌, ◌++◌, ◌∷◌, [], ◌^◌, ◌<◌, ◌≤◌, List, None, OnOk, length, map, true};
ghost use Rattle.std.specs.List.{All, AllByRecursion, AllZip};
ghost use Rattle.edif_spelling_spec.specs.Tree.{Placed, bare};
ghost use Rattle.edif_spec.specs.Faults.{Among, RowFault, those_of};
ghost use Rattle.edif_spec.specs.Rows.{has_keyword};
ghost use Rattle.edif_spec.specs.Means.{MeansProperties};
ghost use Rattle.edif_spec.specs.Stands.{PropertiesFault};
ghost use Rattle.edif_spec.specs.declared.keyword.Keyword.TheVariants.{Joined, Net as NetWord, PortRef, Property as PropertyWord};
ghost use Rattle.edif_tree.specs.Handles.{here, all};
ghost use Rattle.edif_contents.specs.Ends.{AreNamed};
ghost use Rattle.netlist_schema.specs.Names.{HasDistinctKeys};
ghost use Rattle.netlist_schema.specs.Typed.{IsTypedProperty};
ghost use Rattle.netlist_schema.specs.declared.limits.TheConstants.{MOST_ENDS, MOST_NETS};
ghost use Rattle.edif_spec.specs.Nets.{bit_of, row_size, single_form};
ghost use Rattle.edif_spec.specs.Stands.{width_kind};
ghost use Rattle.edif_nets.specs.NetLists.{RowAdded};
ghost use Rattle.edif_contents.specs.Nets.{HasEnds, HasParts, IsWideEnd, NetFaultIn, NetsFaultIn, NetsSoFar, NextNetFault, PartFault, ReadNet, ReadNets, RowFits, WideEndFault, form_in};
ghost use Rattle.edif_parts.specs.Reading.{Answers};

use crate::ends::{EndAt, Surroundings, read_end};
use edif_grammar::is_form_of;
use edif_nets::{
    NetList, add_net, add_row, check_ends, check_names, ends_room, nets_room, row_places, row_size,
};
use edif_parts::{
    BusName, EdifError, append, fault_at, read_bus_name, read_parts, read_properties,
};
use edif_spec::{Keyword, Kind, NetForm, Stretch};
use edif_tree::{Node, Nodes};
use netlist_schema::{End, Listed, Name, Net, NoMemory, Parts, Property, Row, SharedRow, Width};
use std::alloc::Global;

/// A net as it is written.
#[derive(Drop)]
pub enum Written {
    /// A net by itself.
    One(Net),
    /// With an array, a row of nets.
    Many(NetForm),
}

/// A net as it is written, where its name stands, and the nodes of its ends.
#[derive(Drop)]
pub struct NetAt<'a> {
    /// The net as it is written.
    pub net: Written,
    /// The number of bytes before the identifier of its name.
    pub place: u64,
    /// The nodes of its ends, in order.
    pub ends: Nodes<'a>,
}

/// The nodes of the ends that the form at a node says that a net joins.
fn read_joined(alloc: Global, node: Node<'_>) -> Result<Nodes<'_>, EdifError>
    requires { has_keyword Joined (bare (here node)) ≡ true }
    ensures { Answers (λ nodes. HasEnds (here node.entry) (all nodes)) (RowFault Joined (here node.entry)) result }
{
    let parts = read_parts(alloc, node, Keyword::Joined)?;
    Ok(parts.inner)
}

/// What an end of another width than its net is.
fn width_kind(array: &Option<Width>) -> Kind
    ensures { result ≡ width_kind array.now }
{
    match array {
        Some(_) => Kind::BadWidth,
        None => Kind::WholeArray,
    }
}

/// The bits of an end.
#[inline(always)]
fn stretch_of(end: EndAt) -> Stretch
    ensures same { result ≡ end.stretch }
    ensures within { result.first < 2 ^ 32 }
{
    end.stretch
}

/// The bits that the form of an end at a node means, which are to be as wide as a net with this array.
fn read_stretch(
    alloc: Global,
    node: Node<'_>,
    array: &Option<Width>,
    around: &Surroundings,
) -> Result<Stretch, EdifError>
    requires keyword { has_keyword PortRef (bare (here node)) ≡ true }
    requires names { AreNamed around.now }
    ensures { Answers (IsWideEnd around.now array.now (here node.entry)) (WideEndFault around.now array.now (here node.entry)) result }
{
    let end = read_end(alloc, node, around)?;
    let size = row_size(array);
    if end.stretch.width != size {
        return Err(fault_at(width_kind(array), end.place));
    }
    Ok(stretch_of(end))
}

/// The bits that the forms of ends at these nodes mean, each as wide as a net with this array.
fn read_stretches(
    alloc: Global,
    nodes: Nodes<'_>,
    array: &Option<Width>,
    around: &Surroundings,
) -> Result<Row<Stretch>, EdifError>
    requires nodes { AllByRecursion (λ u. has_keyword PortRef (bare u) ≡ true) (all nodes) }
    requires names { AreNamed around.now }
    ensures { Answers (AllZip (IsWideEnd around.now array.now) (all nodes.entry)) (Among (WideEndFault around.now array.now) (all nodes.entry)) result }
{
    let mut stretches = Vec::with_capacity(alloc, nodes.len())?;
    for node in nodes.iter() {
        let stretch = read_stretch(alloc, node, array, around)?;
        append(&mut stretches, stretch)?;
    }
    Ok(Row::of(stretches))
}

/// The bit that the form of an end at a node means, which is to be one bit.
fn read_bit(alloc: Global, node: Node<'_>, around: &Surroundings) -> Result<End, EdifError>
    requires keyword { has_keyword PortRef (bare (here node)) ≡ true }
    requires names { AreNamed around.now }
    ensures { Answers (λ e. IsWideEnd around.now None (here node.entry) (bit_of e)) (WideEndFault around.now None (here node.entry)) result }
{
    let stretch = read_stretch(alloc, node, &None, around)?;
    Ok(End {
        inst: stretch.inst,
        port: stretch.port,
        bit: stretch.first,
    })
}

/// The bits that the forms of ends at these nodes mean, each one bit.
fn read_ends(alloc: Global, nodes: Nodes<'_>, around: &Surroundings) -> Result<Row<End>, EdifError>
    requires nodes { AllByRecursion (λ u. has_keyword PortRef (bare u) ≡ true) (all nodes) }
    requires names { AreNamed around.now }
    ensures { Answers (AllZip (λ u e. IsWideEnd around.now None u (bit_of e)) (all nodes.entry)) (Among (WideEndFault around.now None) (all nodes.entry)) result }
{
    let mut ends = Vec::with_capacity(alloc, nodes.len())?;
    for node in nodes.iter() {
        let end = read_bit(alloc, node, around)?;
        append(&mut ends, end)?;
    }
    Ok(Row::of(ends))
}

/// The properties among these followers of a form, as `read_properties` reads them, for several nets.
fn shared_properties(alloc: Global, inner: Nodes<'_>) -> Result<SharedRow<Property>, EdifError>
    ensures { Answers (λ ps. MeansProperties (map bare (all inner.entry)) ps × All IsTypedProperty ps × HasDistinctKeys ps) (PropertiesFault (those_of PropertyWord (all inner.entry))) result }
{
    let properties = read_properties(alloc, inner)?;
    Ok(SharedRow::of(alloc, properties)?)
}

/// The net by itself that has this name and the properties among these followers of its form, and joins what the forms of ends at these
/// nodes mean.
fn read_one(
    alloc: Global,
    name: Name,
    nodes: Nodes<'_>,
    inner: Nodes<'_>,
    around: &Surroundings,
) -> Result<Net, EdifError>
    requires nodes { AllByRecursion (λ u. has_keyword PortRef (bare u) ≡ true) (all nodes) }
    requires names { AreNamed around.now }
    ensures { Answers (λ n. HasParts around.now name None (all nodes.entry) (all inner.entry) (single_form n)) (PartFault around.now None (all nodes.entry) (all inner.entry)) result }
{
    let ends = read_ends(alloc, nodes, around)?;
    let properties = shared_properties(alloc, inner)?;
    Ok(Net {
        name,
        ends,
        properties,
    })
}

/// The row of nets that has this name and this array, and so on.
fn read_row(
    alloc: Global,
    named: BusName,
    nodes: Nodes<'_>,
    inner: Nodes<'_>,
    around: &Surroundings,
) -> Result<NetForm, EdifError>
    requires nodes { AllByRecursion (λ u. has_keyword PortRef (bare u) ≡ true) (all nodes) }
    requires names { AreNamed around.now }
    ensures { Answers (HasParts around.now named.name named.array (all nodes.entry) (all inner.entry)) (PartFault around.now named.array (all nodes.entry) (all inner.entry)) result }
{
    let BusName {
        name,
        array,
        place: _,
    } = named;
    let joined = read_stretches(alloc, nodes, &array, around)?;
    let properties = shared_properties(alloc, inner)?;
    Ok(NetForm {
        name,
        array,
        joined,
        properties,
    })
}

/// The net that has this name, the properties among these followers of its form, and joins what the forms of ends at these nodes mean.
fn read_written(
    alloc: Global,
    named: BusName,
    nodes: Nodes<'_>,
    inner: Nodes<'_>,
    around: &Surroundings,
) -> Result<Written, EdifError>
    requires nodes { AllByRecursion (λ u. has_keyword PortRef (bare u) ≡ true) (all nodes) }
    requires names { AreNamed around.now }
    ensures { Answers (λ w. HasParts around.now named.name named.array (all nodes.entry) (all inner.entry) (form_in w)) (PartFault around.now named.array (all nodes.entry) (all inner.entry)) result }
{
    if named.array.is_some() {
        let row = read_row(alloc, named, nodes, inner, around)?;
        return Ok(Written::Many(row));
    }
    let net = read_one(alloc, named.name, nodes, inner, around)?;
    Ok(Written::One(net))
}

/// The net that a form at a node means, as it is written.
fn read_net<'a>(
    alloc: Global,
    node: Node<'a>,
    around: &Surroundings,
) -> Result<NetAt<'a>, EdifError>
    requires keyword { has_keyword NetWord (bare (here node)) ≡ true }
    requires names { AreNamed around.now }
    ensures { Answers (ReadNet around.now (here node.entry)) (NetFaultIn around.now (here node.entry)) result }
{
    let parts = read_parts(alloc, node, Keyword::Net)?;
    let named = read_bus_name(alloc, parts.fixed.at(0))?;
    let ends = read_joined(alloc, parts.fixed.at(1))?;
    let place = named.place;
    let net = read_written(alloc, named, ends, parts.inner, around)?;
    Ok(NetAt { net, place, ends })
}

/// How many nets stand in a form.
fn written_size(net: &Written) -> u32
    ensures { result ≡ row_size (form_in net.now).array }
{
    match net {
        Written::One(_) => 1,
        Written::Many(form) => row_size(&form.array),
    }
}

/// Whether there is room for the nets of the form at a node, which is read so, behind those of a list, and for their ends; else the
/// error is the first form beyond a limit.
fn form_room(node: Node<'_>, read: &NetAt<'_>, list: &NetList) -> Result<(), EdifError>
    requires keyword { has_keyword NetWord (bare (here node)) ≡ true }
    requires nets { length list.now.nets.items ≤ MOST_NETS }
    requires ends { length list.now.ends.items ≤ MOST_ENDS }
    ensures { (s : Surroundings) (before : List Placed) → ReadNet s (here node.entry) read.now → NetsSoFar s before list.now
        → Answers (λ _. RowFits list.now (here node.entry) (form_in read.now.net)) (NextNetFault s before (here node.entry)) result }
{
    let size = written_size(&read.net);
    nets_room(list.nets.len(), size, node.place())?;
    ends_room(read.ends, size, list.ends.len())
}

/// Adds the nets of a form, whose name stands at this place. After `NoMemory` some of them may be there.
fn add_written(alloc: Global, net: Written, place: u64, list: &mut NetList) -> Result<(), NoMemory>
    requires { All (λ s. s.first + row_size (form_in net).array ≤ 2 ^ 32) (form_in net).joined }
    ensures { OnOk result (RowAdded (form_in net) place list.old list.new) }
{
    match net {
        Written::One(net) => add_net(alloc, net, place, list),
        Written::Many(form) => add_row(alloc, form, place, list),
    }
}

/// Adds the nets for which the form of a net at a node stands to those that are there; else the error names what is wrong with the form,
/// whatever follows it.
fn take_net(
    alloc: Global,
    node: Node<'_>,
    around: &Surroundings,
    list: &mut NetList,
) -> Result<(), EdifError>
    requires keyword { has_keyword NetWord (bare (here node)) ≡ true }
    requires names { AreNamed around.now }
    requires nets { length list.old.nets.items ≤ MOST_NETS }
    requires ends { length list.old.ends.items ≤ MOST_ENDS }
    ensures { (before : List Placed) → NetsSoFar around.now before list.old
        → Answers (λ _. NetsSoFar around.now (before ++ here node.entry ∷ []) list.new) (NextNetFault around.now before (here node.entry)) result }
{
    let read = read_net(alloc, node, around)?;
    form_room(node, &read, list)?;
    row_places(read.ends, written_size(&read.net), &mut list.ends)?;
    add_written(alloc, read.net, read.place, list)?;
    Ok(())
}

/// The nets of the forms of nets among these followers of a form, in order, whatever their names and ends are.
fn take_nets(alloc: Global, inner: Nodes<'_>, around: &Surroundings) -> Result<NetList, EdifError>
    requires { AreNamed around.now }
    ensures { Answers (NetsSoFar around.now (all inner.entry)) (NetsFaultIn around.now (those_of NetWord (all inner.entry))) result }
{
    let mut list = NetList::for_forms(alloc, inner)?;
    for node in inner.iter() {
        if is_form_of(node, Keyword::Net) {
            take_net(alloc, node, around, &mut list)?;
        }
    }
    Ok(list)
}

/// The nets for which the forms of nets among these followers of a form stand, in order, with names that differ and each bit joined
/// once.
pub(crate) fn read_nets(
    alloc: Global,
    inner: Nodes<'_>,
    around: &Surroundings,
) -> Result<Parts<Listed<Net>>, EdifError>
    requires { AreNamed around.now }
    ensures { Answers (ReadNets around.now (all inner.entry)) (NetsFaultIn around.now (those_of NetWord (all inner.entry))) result }
{
    let list = take_nets(alloc, inner, around)?;
    check_ends(alloc, &list)?;
    check_names(alloc, &list)?;
    let nets = list.into_nets(alloc)?;
    Ok(nets)
}
