//! Lists of items, of which one after another is given.
ghost use Rattle.std.specs.Prelude.{◌≡◌, ◌≤◌, ◌<◌, ◌+◌, ◌++◌, ◌∷◌, [], IfOk, IsSome, length, slice_get};
ghost use Rattle.std.specs.Option.{option_copied, option_map};
ghost use Rattle.netlist_schema.specs.declared.limits.TheConstants.{MOST_INSTS};
ghost use Rattle.ask_spec.specs.Places.{insts_of, nets_of};
ghost use Rattle.ask_spec.specs.Roles.{pins_as};
ghost use Rattle.netdb_questions.specs.Items.{nets_in, occurrences_below};
ghost use Rattle.netdb_questions.specs.Lists.{Gives, IsListAt, IsListOf, IsListOfPins, Takes, given_by, insts_left, left_of, nets_left};

use crate::finding::{Refusal, net_named, path_named};
use crate::items::{net_made, occurrence_made};
use ask_names::Names;
use ask_spec::Role;
use db_version::Snapshot;
use flat_ask::Ask;
use flat_lookup::{insts_at, net_count};
use flat_spec::{Item, NetAt, Path};
use net_pins::Listing;
use netlist_schema::{CellId, Inst, Listed, NoMemory, PartsRef};
use std::alloc::Global;
use thiserror::Error;

/// Why a list gives no next item.
#[derive(Clone, Copy, Debug, PartialEq, Eq, Error)]
pub enum NextError {
    /// No list was begun.
    #[error("no list")]
    NoList,
    /// An allocation was refused.
    #[error("no memory")]
    NoMemory,
}

/// The list that was begun last.
pub(crate) enum Begun {
    /// None was.
    Nothing,
    Pins(Listing<Snapshot>),
    /// The occurrences right below the one at the path, from that place on.
    Insts { path: Path, place: u32 },
    /// The nets of the occurrence at the path, from that place on.
    Nets { path: Path, place: u32 },
}

impl Drop for Begun {
    fn drop(self) {
        match self {
            Begun::Nothing => {}
            Begun::Pins(_) => {}
            Begun::Insts { path: _, place: _ } => {}
            Begun::Nets { path: _, place: _ } => {}
        }
    }
}

/// A list of the pins of a net that stand in a role at it.
fn pins_of_net(ask: &Ask<Snapshot>, role: Role, net: &NetAt) -> Result<Begun, Refusal>
    ensures { IsListOf ask.now (pins_as role ask.now net.now) result }
{
    match ask.list(role, net.path.as_slice(), net.net) {
        Ok(pins) => Ok(Begun::Pins(pins)),
        Err(NoMemory) => Err(Refusal::NoMemory),
    }
}

/// The same of the net that is named.
pub(crate) fn begin_pins(
    names: &Names<Snapshot>,
    ask: &Ask<Snapshot>,
    role: Role,
    text: &[u8],
    name: &[u8],
) -> Result<Begun, Refusal>
    requires { names.now ≡ ask.now }
    ensures { IsListOfPins ask.now role text.now name.now result }
{
    match net_named(names, text, name) {
        Ok(net) => pins_of_net(ask, role, &net),
        Err(refusal) => Err(refusal),
    }
}

/// A list of the occurrences right below the one that a text names.
pub(crate) fn begin_insts(names: &Names<Snapshot>, text: &[u8]) -> Result<Begun, Refusal>
    ensures { IsListAt occurrences_below names.now text.now result }
{
    match path_named(names, text) {
        Ok(path) => Ok(Begun::Insts { path, place: 0 }),
        Err(refusal) => Err(refusal),
    }
}

/// A list of the nets of the occurrence that a text names.
pub(crate) fn begin_nets(names: &Names<Snapshot>, text: &[u8]) -> Result<Begun, Refusal>
    ensures { IsListAt nets_in names.now text.now result }
{
    match path_named(names, text) {
        Ok(path) => Ok(Begun::Nets { path, place: 0 }),
        Err(refusal) => Err(refusal),
    }
}

/// The instances of the occurrence at a path.
fn insts_there<'a>(ask: &'a Ask<Snapshot>, path: &[u32]) -> PartsRef<'a, Listed<Inst>>
    ensures value { result ≡ insts_of ask.now path.now }
    ensures limit { length result ≤ MOST_INSTS }
{
    let Some(cell) = ask.at(path) else {
        return PartsRef::none();
    };
    insts_at(ask.design(), cell)
}

/// The instance at a place, where there is one.
fn inst_in<'a>(insts: &PartsRef<'a, Listed<Inst>>, place: u32) -> Option<&'a Inst>
    ensures { option_copied result ≡ slice_get insts.now place }
{
    match insts.get(place as usize) {
        Some(inst) => Some(inst.get()),
        None => None,
    }
}

/// The cell of the instance at a place of the occurrence at a path, where there is one; then there is a next place.
fn inst_cell(ask: &Ask<Snapshot>, path: &[u32], place: u32) -> Option<CellId>
    ensures found { result ≡ option_map (λ inst. inst.of) (slice_get (insts_of ask.now path.now) place) }
    ensures room { IsSome result → place < 4294967295 }
{
    let insts = insts_there(ask, path);
    match inst_in(&insts, place) {
        Some(inst) => Some(inst.of),
        None => None,
    }
}

/// How many nets there are in the occurrence at a path.
fn net_total(ask: &Ask<Snapshot>, path: &[u32]) -> u32
    ensures { result ≡ length (nets_of ask.now path.now) }
{
    match ask.at(path) {
        Some(cell) => net_count(ask.design(), cell),
        None => 0,
    }
}

/// A path with one more step.
fn path_below(alloc: Global, path: &[u32], step: u32) -> Result<Vec<u32>, NoMemory>
    ensures { IfOk result (λ below. below.items ≡ path.now ++ step ∷ []) }
{
    let mut below = Vec::from_slice(alloc, path)?;
    below.push(step)?;
    Ok(below)
}

/// The place behind a place.
fn place_behind(place: u32) -> u32
    requires { place < 4294967295 }
    ensures { result ≡ place + 1 }
{
    place + 1
}

/// The next instance of the occurrence at a path.
fn next_inst(
    alloc: Global,
    ask: &Ask<Snapshot>,
    path: &[u32],
    place: &mut u32,
) -> Result<Option<Item>, NoMemory>
    ensures { Takes (insts_left ask.now path.now place.old) (insts_left ask.now path.now place.new) result }
{
    let Some(cell) = inst_cell(ask, path, *place) else {
        return Ok(None);
    };
    let below = path_below(alloc, path, *place)?;
    let item = occurrence_made(alloc, ask, below.as_slice(), cell)?;
    *place = place_behind(*place);
    Ok(Some(item))
}

/// The next net of the occurrence at a path.
fn next_net(
    alloc: Global,
    ask: &Ask<Snapshot>,
    path: &[u32],
    place: &mut u32,
) -> Result<Option<Item>, NoMemory>
    ensures { Takes (nets_left ask.now path.now place.old) (nets_left ask.now path.now place.new) result }
{
    let count = net_total(ask, path);
    if *place >= count {
        return Ok(None);
    }
    let item = net_made(alloc, ask, path, *place)?;
    *place = place_behind(*place);
    Ok(Some(item))
}

/// What a list gave.
fn given(item: Result<Option<Item>, NoMemory>) -> Result<Option<Item>, NextError>
    ensures { result ≡ given_by item }
{
    match item {
        Ok(item) => Ok(item),
        Err(NoMemory) => Err(NextError::NoMemory),
    }
}

/// The next item of the list that was begun last.
pub(crate) fn next_of(
    alloc: Global,
    ask: &Ask<Snapshot>,
    list: &mut Begun,
) -> Result<Option<Item>, NextError>
    ensures { Gives (left_of ask.now list.old) (left_of ask.now list.new) result }
{
    match list {
        Begun::Nothing => Err(NextError::NoList),
        Begun::Pins(pins) => given(pins.next()),
        Begun::Insts { path, place } => given(next_inst(alloc, ask, path.as_slice(), place)),
        Begun::Nets { path, place } => given(next_net(alloc, ask, path.as_slice(), place)),
    }
}
