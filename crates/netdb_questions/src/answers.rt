//! Answers by names, from what names lead to.
ghost use Rattle.std.specs.Prelude.{◌≡◌, Some};
ghost use Rattle.std.specs.Option.{option_map};
ghost use Rattle.flat_items.specs.Lent.{net_of as net_lent};
ghost use Rattle.ask_spec.specs.Nets.{first_of, inner_net_of, is_same_net, net_of};
ghost use Rattle.netdb_questions.specs.Answers.{FindsFirst, FindsNet, FindsOccurrence, FindsSame, IsAnsweredBy, IsSameAs, IsThere, IsToldOf};

use crate::finding::{NetName, PortAt, Refusal, bit_named, net_named, path_named};
use crate::items::{first_made, occurrence_made};
use ask_names::Names;
use db_version::Snapshot;
use flat_ask::Ask;
use flat_items::NetRef;
use flat_spec::{Item, NetAt};
use netlist_schema::NoMemory;
use std::alloc::Global;

/// The occurrence at a path: `NoPath` exactly where there is none.
fn occurrence_there(alloc: Global, ask: &Ask<Snapshot>, path: &[u32]) -> Result<Item, Refusal>
    ensures { IsThere ask.now path.now result }
{
    let Some(cell) = ask.at(path) else {
        return Err(Refusal::NoPath);
    };
    match occurrence_made(alloc, ask, path, cell) {
        Ok(item) => Ok(item),
        Err(NoMemory) => Err(Refusal::NoMemory),
    }
}

/// The occurrence at the path that a text names.
pub(crate) fn find_occurrence(
    alloc: Global,
    names: &Names<Snapshot>,
    ask: &Ask<Snapshot>,
    text: &[u8],
) -> Result<Item, Refusal>
    requires { names.now ≡ ask.now }
    ensures { FindsOccurrence ask.now text.now result }
{
    match path_named(names, text) {
        Ok(path) => occurrence_there(alloc, ask, path.as_slice()),
        Err(refusal) => Err(refusal),
    }
}

/// A first net that was found, where one was.
fn answer_first(alloc: Global, found: Option<NetRef<'_>>) -> Result<Item, Refusal>
    ensures { IsAnsweredBy (option_map net_lent found.entry) result }
{
    let Some(first) = found else {
        return Err(Refusal::NoNet);
    };
    match first_made(alloc, first) {
        Ok(item) => Ok(item),
        Err(NoMemory) => Err(Refusal::NoMemory),
    }
}

/// The first net at a bit of an occurrence, seen from outside.
fn net_there(alloc: Global, ask: &Ask<Snapshot>, at: &PortAt, bit: u32) -> Result<Item, Refusal>
    ensures { IsAnsweredBy (net_of ask.now at.now.path at.now.port bit) result }
{
    match ask.net_of(at.path.as_slice(), at.port, bit) {
        Ok(found) => answer_first(alloc, found),
        Err(NoMemory) => Err(Refusal::NoMemory),
    }
}

/// The same, seen from inside.
fn inner_net_there(
    alloc: Global,
    ask: &Ask<Snapshot>,
    at: &PortAt,
    bit: u32,
) -> Result<Item, Refusal>
    ensures { IsAnsweredBy (inner_net_of ask.now at.now.path at.now.port bit) result }
{
    match ask.inner_net_of(at.path.as_slice(), at.port, bit) {
        Ok(found) => answer_first(alloc, found),
        Err(NoMemory) => Err(Refusal::NoMemory),
    }
}

/// The first net at the bit that is named, seen from outside.
pub(crate) fn find_net(
    alloc: Global,
    names: &Names<Snapshot>,
    ask: &Ask<Snapshot>,
    text: &[u8],
    name: &[u8],
    bit: u32,
) -> Result<Item, Refusal>
    requires { names.now ≡ ask.now }
    ensures { FindsNet net_of ask.now text.now name.now bit result }
{
    match bit_named(names, text, name, bit) {
        Ok(at) => net_there(alloc, ask, &at, bit),
        Err(refusal) => Err(refusal),
    }
}

/// The same, seen from inside.
pub(crate) fn find_inner_net(
    alloc: Global,
    names: &Names<Snapshot>,
    ask: &Ask<Snapshot>,
    text: &[u8],
    name: &[u8],
    bit: u32,
) -> Result<Item, Refusal>
    requires { names.now ≡ ask.now }
    ensures { FindsNet inner_net_of ask.now text.now name.now bit result }
{
    match bit_named(names, text, name, bit) {
        Ok(at) => inner_net_there(alloc, ask, &at, bit),
        Err(refusal) => Err(refusal),
    }
}

/// The first of the nets that are connected with a net.
fn first_there(alloc: Global, ask: &Ask<Snapshot>, net: &NetAt) -> Result<Item, Refusal>
    ensures { IsAnsweredBy (Some (first_of ask.now net.now)) result }
{
    match ask.first_of(net.path.as_slice(), net.net) {
        Ok(first) => answer_first(alloc, Some(first)),
        Err(NoMemory) => Err(Refusal::NoMemory),
    }
}

/// The first of the nets that are connected with the net that is named.
pub(crate) fn find_first(
    alloc: Global,
    names: &Names<Snapshot>,
    ask: &Ask<Snapshot>,
    text: &[u8],
    name: &[u8],
) -> Result<Item, Refusal>
    requires { names.now ≡ ask.now }
    ensures { FindsFirst ask.now text.now name.now result }
{
    match net_named(names, text, name) {
        Ok(net) => first_there(alloc, ask, &net),
        Err(refusal) => Err(refusal),
    }
}

/// Whether two nets are connected, where there is memory to tell.
fn are_same(ask: &Ask<Snapshot>, one: &NetAt, other: &NetAt) -> Result<bool, Refusal>
    ensures { IsToldOf (is_same_net ask.now one.now other.now) result }
{
    match ask.is_same_net(NetRef::of(one), NetRef::of(other)) {
        Ok(same) => Ok(same),
        Err(NoMemory) => Err(Refusal::NoMemory),
    }
}

/// Whether a net is connected with the one that is named.
fn same_as(
    names: &Names<Snapshot>,
    ask: &Ask<Snapshot>,
    net: &NetAt,
    other: NetName<'_>,
) -> Result<bool, Refusal>
    requires { names.now ≡ ask.now }
    ensures { IsSameAs ask.now net.now other.entry.path.now other.entry.net.now result }
{
    match net_named(names, other.path, other.net) {
        Ok(second) => are_same(ask, net, &second),
        Err(refusal) => Err(refusal),
    }
}

/// Whether the two nets that are named are connected.
pub(crate) fn find_same(
    names: &Names<Snapshot>,
    ask: &Ask<Snapshot>,
    one: NetName<'_>,
    other: NetName<'_>,
) -> Result<bool, Refusal>
    requires { names.now ≡ ask.now }
    ensures { FindsSame ask.now one.entry.path.now one.entry.net.now other.entry.path.now other.entry.net.now result }
{
    match net_named(names, one.path, one.net) {
        Ok(first) => same_as(names, ask, &first, other),
        Err(refusal) => Err(refusal),
    }
}
