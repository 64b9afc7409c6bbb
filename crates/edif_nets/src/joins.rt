//! The bits that the nets of contents join, each at most once.
ghost use Rattle.std.specs.Prelude.{◌≡◌, ◌++◌, [], List, IfErr, IfOk, IsTrue, OnOk, length, map};
ghost use Rattle.std.specs.List.{zip};
ghost use Rattle.edif_spec.specs.Faults.{AtTwo, place_of};
ghost use Rattle.edif_tree.specs.Handles.{all};
ghost use Rattle.edif_nets.specs.Joins.{IsTwice, Joined, SameBit, ends_of, places_of, row_of};
ghost use Rattle.edif_nets.specs.Keys.{end_key};
ghost use Rattle.edif_nets.specs.NetLists.{JoinOnce, JoinTwice};
ghost use Rattle.edif_parts.specs.Reading.{Answers, Names as FailsBy};
ghost use Rattle.netlist_schema.specs.Names.{AreDistinct};

use crate::differ::{differ, end_key};
use crate::limits::small;
use crate::net_list::NetList;
use edif_parts::{EdifError, append, clash};
use edif_spec::ClashKind;
use edif_tree::Nodes;
use indexmap::IndexMap;
use netlist_schema::{End, Listed, Net, NoMemory};
use std::alloc::Global;
use std::marker::Model;

/// A bit, as a key.
#[derive(Clone, Copy, PartialEq, Eq, Hash)]
struct Key {
    inst: Option<u32>,
    port: u32,
    bit: u32,
}

/// The bits that nets have joined so far, each with the place of its end. Contracts see them in order.
pub struct Joins {
    places: IndexMap<Key, u64>,
}

impl Drop for Joins {
    fn drop(self) {
        let Joins { places: _ } = self;
    }
}

impl Model for Joins {
    ghost use Rattle.std.specs.Prelude.{List, ℕ, map};
    ghost use Rattle.edif_spec.specs.Design as design;

    ghost Value = { List (design.End × ℕ) };

    ghost view = { λ s. map (λ e. (record { inst = e.0.inst; port = e.0.port; bit = e.0.bit }, e.1)) s.places.entries };
}

impl Joins {
    /// No bits. Takes no memory.
    pub fn new(alloc: Global) -> Joins
        ensures { result ≡ [] }
    {
        Joins {
            places: IndexMap::new(alloc),
        }
    }

    /// Joins a bit at an end in this place. Where it is joined already, the error says so, with the place of the earlier end.
    fn add(&mut self, end: End, place: u64) -> Result<(), EdifError>
        ensures ok { OnOk result (Joined self.old end place self.new) }
        ensures err { IfErr result (λ e. FailsBy (IsTwice self.old end place) e) }
    {
        let key = Key {
            inst: end.inst,
            port: end.port,
            bit: end.bit,
        };
        if let Some(earlier) = self.places.insert(key, place)? {
            return Err(clash(ClashKind::EndTwice, place, earlier));
        }
        Ok(())
    }
}

/// Adds the places of these nodes.
fn net_places(nodes: Nodes<'_>, places: &mut Vec<u32>) -> Result<(), NoMemory>
    ensures { OnOk result (places.new.items ≡ places.old.items ++ map place_of (all nodes.entry)) }
{
    for node in nodes.iter() {
        let place = small(node.place())?;
        append(places, place)?;
    }
    Ok(())
}

/// Adds the places of the ends at these nodes in a row of so many nets, net by net. After `NoMemory` some of them may be there.
pub fn row_places(nodes: Nodes<'_>, size: u32, places: &mut Vec<u32>) -> Result<(), NoMemory>
    ensures { OnOk result (places.new.items ≡ places.old.items ++ places_of (row_of size (all nodes.entry))) }
{
    for _ in 0..size {
        net_places(nodes, places)?;
    }
    Ok(())
}

/// The ends of nets, which are so many, in order.
fn all_ends(alloc: Global, nets: &[Listed<Net>], count: usize) -> Result<Vec<End>, NoMemory>
    ensures { IfOk result (λ ends. ends.items ≡ ends_of nets.now) }
{
    let mut ends = Vec::with_capacity(alloc, count)?;
    for net in nets {
        ends.extend_from_slice(net.ends.as_slice())?;
    }
    Ok(ends)
}

/// Joins the bit of an end in this place. Where it is joined already, the error says so.
fn join_end(end: End, place: u32, joins: &mut Joins) -> Result<(), EdifError>
    ensures { Answers (λ _. Joined joins.old end place joins.new) (IsTwice joins.old end place) result }
{
    joins.add(end, u64::from(place))?;
    Ok(())
}

/// Joins these ends, which stand in these places, where none is yet. The error is the first that is joined already.
fn join_ends(ends: &[End], places: &[u32], joins: &mut Joins) -> Result<(), EdifError>
    requires places { length places.now ≡ length ends.now }
    requires joins { joins.old ≡ [] }
    ensures { Answers (λ _. AreDistinct ends.now) (λ f. AtTwo (SameBit f) (zip ends.now places.now)) result }
{
    for (index, end) in ends.iter().enumerate() {
        join_end(*end, places[index], joins)?;
    }
    Ok(())
}

/// Joins the ends of nets in a table, as `check_ends` answers.
fn find_twice(alloc: Global, list: &NetList) -> Result<(), EdifError>
    requires { length list.now.ends.items ≡ length (ends_of list.now.nets.items) }
    ensures { Answers (λ _. JoinOnce list.now) (JoinTwice list.now) result }
{
    let ends = all_ends(alloc, list.nets.as_slice(), list.ends.len())?;
    let mut joins = Joins::new(alloc);
    join_ends(ends.as_slice(), list.ends.as_slice(), &mut joins)
}

/// Adds the numbers of the bits that these ends join.
fn net_keys(ends: &[End], keys: &mut Vec<u64>) -> Result<(), NoMemory>
    ensures { OnOk result (keys.new.items ≡ keys.old.items ++ map end_key ends.now) }
{
    for end in ends {
        append(keys, end_key(*end))?;
    }
    Ok(())
}

/// The numbers of the bits that the ends of nets join, which are so many, in order.
fn end_keys(alloc: Global, nets: &[Listed<Net>], count: usize) -> Result<Vec<u64>, NoMemory>
    ensures { IfOk result (λ keys. keys.items ≡ map end_key (ends_of nets.now)) }
{
    let mut keys = Vec::with_capacity(alloc, count)?;
    for net in nets {
        net_keys(net.ends.as_slice(), &mut keys)?;
    }
    Ok(keys)
}

/// Whether no two of the ends of nets, which are so many, have bits of one number.
fn ends_apart(alloc: Global, nets: &[Listed<Net>], count: usize) -> Result<bool, NoMemory>
    ensures { IfOk result (λ apart. IsTrue apart → AreDistinct (ends_of nets.now)) }
{
    let mut keys = end_keys(alloc, nets, count)?;
    differ(alloc, &mut keys)
}

/// Whether the ends of nets join each bit once; else the error is that an end joins one again. Their numbers take far less memory than a
/// table of them, which is made only where two numbers are equal.
pub fn check_ends(alloc: Global, list: &NetList) -> Result<(), EdifError>
    requires { length list.now.ends.items ≡ length (ends_of list.now.nets.items) }
    ensures { Answers (λ _. JoinOnce list.now) (JoinTwice list.now) result }
{
    let apart = ends_apart(alloc, list.nets.as_slice(), list.ends.len())?;
    if apart {
        return Ok(());
    }
    find_twice(alloc, list)
}
