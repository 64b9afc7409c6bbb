//! Where the arguments of forms stand in the list of nodes.
ghost use Rattle.std.specs.Prelude.{◌≡◌, ◌+◌, ◌<◌, ◌≤◌, ◌∷◌, ◌++◌, [], get_or, length, Some, OnOk, OnErr, drop, slice_get, vec_capacity, vec_len};
ghost use Rattle.edif_tree.specs.NodeLists.{EndedLists, last_end, with_end};
ghost use Rattle.edif_tree.specs.Ranges.{ids_of};

use crate::stored::{NodeRange, StoredNode};
use netlist_schema::NoMemory;
use std::alloc::Global;
use std::marker::Model;

/// Lists of nodes that stand one behind the other in one list, by the places before which they end. Contracts see them as lists, and the
/// place before which the last one ends.
#[derive(Drop)]
pub struct NodeLists {
    ends: Vec<u32>,
}

impl Model for NodeLists {
    ghost use Rattle.edif_tree.specs.NodeLists.{EndedLists, last_end, lists_from};

    ghost Value = { EndedLists };

    ghost view = { λ l. record { lists = lists_from 0 l.ends.items; end = last_end 0 l.ends.items } };
}

/// Adds the place where a list ends. Where there is room, it is put there without a call.
#[inline(always)]
fn add_end(ends: &mut Vec<u32>, end: usize) -> Result<(), NoMemory>
    ensures ok { OnOk result (ends.new.items ≡ ends.old.items ++ end ∷ []) }
    ensures err { OnErr result (ends.new.items ≡ ends.old.items) }
{
    let Ok(end) = u32::try_from(end) else {
        return Err(NoMemory);
    };
    if ends.len() < ends.capacity() {
        ends.push_reserved(end);
        return Ok(());
    }
    ends.push(end)?;
    Ok(())
}

/// Where the list at a place begins.
fn end_before(ends: &[u32], at: usize) -> u32
    requires { at ≤ length ends.now }
    ensures { result ≡ get_or (0 ∷ ends.now) at 0 }
{
    if at == 0 {
        return 0;
    }
    ends[at - 1]
}

impl NodeLists {
    /// No lists. Takes no memory.
    pub fn new(alloc: Global) -> NodeLists
        ensures { result ≡ record { lists = []; end = 0 } }
    {
        NodeLists {
            ends: Vec::new(alloc),
        }
    }

    /// The number of lists.
    pub fn len(&self) -> usize
        ensures { result ≡ length self.now.lists }
    {
        self.ends.len()
    }

    /// Adds the list of the nodes from where the last one ends to before a place. Where memory is refused, the lists stay.
    #[inline(always)]
    pub fn push(&mut self, end: usize) -> Result<(), NoMemory>
        ensures ok { OnOk result (self.new ≡ with_end self.old end) }
        ensures err { OnErr result (self.new ≡ self.old) }
    {
        add_end(&mut self.ends, end)
    }

    /// The list at a place.
    pub fn get(&self, at: usize) -> NodeRange
        requires { at < length self.now.lists }
        ensures { slice_get self.now.lists at ≡ Some (ids_of result) }
    {
        NodeRange {
            first: end_before(&self.ends, at),
            end: self.ends[at],
        }
    }
}

/// The nodes from a place on.
fn rest(nodes: &[StoredNode], start: usize) -> &[StoredNode]
    requires { start ≤ length nodes.now }
    ensures { result.now ≡ drop start nodes.now }
{
    &nodes[start..]
}

/// The most nodes that are put one by one.
const FEW: usize = 8;

/// Puts nodes behind the others, for which there is room.
#[inline(always)]
fn put_few(nodes: &mut Vec<StoredNode>, more: &[StoredNode])
    requires { vec_len nodes.old + length more.now ≤ vec_capacity nodes.old }
    ensures { nodes.new.items ≡ nodes.old.items ++ more.now }
{
    for node in more {
        nodes.push_reserved(*node);
    }
}

/// Adds nodes behind the others. Where there is room for a few, they are put there without a call. Where memory is refused, all stays.
#[inline(always)]
fn add_nodes(nodes: &mut Vec<StoredNode>, more: &[StoredNode]) -> Result<(), NoMemory>
    ensures ok { OnOk result (nodes.new.items ≡ nodes.old.items ++ more.now) }
    ensures err { OnErr result (nodes.new.items ≡ nodes.old.items) }
{
    if more.len() <= FEW && more.len() <= nodes.capacity().saturating_sub(nodes.len()) {
        put_few(nodes, more);
        return Ok(());
    }
    nodes.extend_from_slice(more)?;
    Ok(())
}

/// Adds the loose nodes from a place on behind the others, as one list. Where memory is refused, all stays.
#[inline(always)]
pub(crate) fn add_list(
    nodes: &mut Vec<StoredNode>,
    lists: &mut NodeLists,
    loose: &[StoredNode],
    start: usize,
) -> Result<(), NoMemory>
    requires start { start ≤ length loose.now }
    ensures nodes { OnOk result (nodes.new.items ≡ nodes.old.items ++ drop start loose.now) }
    ensures lists { OnOk result (lists.new ≡ with_end lists.old (length nodes.new.items)) }
    ensures err_nodes { OnErr result (nodes.new.items ≡ nodes.old.items) }
    ensures err_lists { OnErr result (lists.new ≡ lists.old) }
{
    let before = nodes.len();
    add_nodes(nodes, rest(loose, start))?;
    match lists.push(nodes.len()) {
        Ok(()) => Ok(()),
        Err(error) => {
            nodes.truncate(before);
            Err(error)
        }
    }
}
