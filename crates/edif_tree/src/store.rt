//! A list of nodes, which only grows until it is whole.
ghost use Rattle.std.specs.Prelude.{◌≡◌, ◌≤◌, ◌∷◌, ◌++◌, [], length, IfOk, OnOk, OnErr};
ghost use Rattle.edif_spelling_spec.specs.Lent.{IsNamed, kind_of};
ghost use Rattle.netlist_schema.specs.Ident.{IsIdentifier};
ghost use Rattle.edif_tree.specs.Making.{IsLeaf, leaf_of};
ghost use Rattle.edif_tree.specs.Nodes.{IntegerOf, StringOf, WordOf, with_form, with_loose};

use crate::node_lists::{NodeLists, add_list};
use crate::rows::Rows;
use crate::stored::{NodeId, PackedKind, StoredKind, StoredNode};
use crate::texts::Texts;
use crate::words::Words;
use edif_spelling_spec::LentKind;
use netlist_schema::NoMemory;
use std::alloc::Global;
use std::marker::Model;

/// Nodes, each with its place and shape, as contracts see them. Each word stands once. The arguments of a form stand side by side, since
/// they are loose until it is closed.
pub struct Store {
    nodes: Vec<StoredNode>,
    /// The nodes that no closed form holds, in order.
    loose: Vec<StoredNode>,
    arguments: NodeLists,
    words: Words,
    integers: Vec<i64>,
    strings: Texts,
}

impl Drop for Store {
    fn drop(self) {
        let Store {
            nodes: _,
            loose: _,
            arguments: _,
            words: _,
            integers: _,
            strings: _,
        } = self;
    }
}

impl Model for Store {
    ghost use Rattle.edif_tree.specs.Nodes.{AreMade, Made, made_of};

    ghost Value = { Made };

    ghost view = { λ a. made_of (record { arguments = a.arguments.lists; words = a.words; integers = a.integers.items; strings = a.strings }) a.nodes.items a.loose.items };

    ghost invariant = { λ a. AreMade (record { arguments = a.arguments.lists; words = a.words; integers = a.integers.items; strings = a.strings }) a.arguments.end a.nodes.items a.loose.items };
}

/// A number as a node keeps it.
fn small(number: u64) -> Result<u32, NoMemory>
    ensures { IfOk result (λ n. n ≡ number) }
{
    match u32::try_from(number) {
        Ok(small) => Ok(small),
        Err(_) => Err(NoMemory),
    }
}

/// A node as it is kept.
fn stored(place: u64, kind: StoredKind) -> Result<StoredNode, NoMemory>
    ensures { IfOk result (λ node. node ≡ record { place = place; kind = kind }) }
{
    let place = small(place)?;
    let kind = PackedKind::of(kind)?;
    Ok(StoredNode { place, kind })
}

/// Adds a node behind the others. Where there is room, it is put there without a call.
#[inline(always)]
fn add_node(nodes: &mut Vec<StoredNode>, place: u64, kind: StoredKind) -> Result<(), NoMemory>
    ensures ok { OnOk result (nodes.new.items ≡ nodes.old.items ++ record { place = place; kind = kind } ∷ []) }
    ensures err { OnErr result (nodes.new.items ≡ nodes.old.items) }
{
    let node = stored(place, kind)?;
    if nodes.len() < nodes.capacity() {
        nodes.push_reserved(node);
        return Ok(());
    }
    nodes.push(node)?;
    Ok(())
}

impl Store {
    /// A store that holds no form. Takes no memory.
    pub fn new(alloc: Global) -> Store
        ensures { result ≡ record { rows = []; loose = [] } }
    {
        Store {
            nodes: Vec::new(alloc),
            loose: Vec::new(alloc),
            arguments: NodeLists::new(alloc),
            words: Words::new(alloc),
            integers: Vec::new(alloc),
            strings: Texts::new(alloc),
        }
    }

    /// The number of loose nodes.
    pub fn loose_len(&self) -> usize
        ensures { result ≡ length self.now.loose }
    {
        self.loose.len()
    }

    /// The node that the first loose one will be, where no form is closed before.
    pub fn next(&self) -> Result<NodeId, NoMemory>
        ensures { IfOk result (λ id. id.0 ≡ length self.now.rows) }
    {
        Ok(NodeId(small(self.nodes.len() as u64)?))
    }

    /// Adds the node of a word.
    #[inline(always)]
    fn push_word(&mut self, place: u64, name: &[u8]) -> Result<(), NoMemory>
        requires { IsIdentifier name.now }
        ensures ok { OnOk result (self.new ≡ with_loose self.old (record { place = place; shape = WordOf name.now })) }
    {
        let at = self.words.add(name)?;
        let at = small(at as u64)?;
        add_node(&mut self.loose, place, StoredKind::Word(at))
    }

    /// Adds the node of an integer.
    #[inline(never)]
    fn push_integer(&mut self, place: u64, value: i64) -> Result<(), NoMemory>
        ensures ok { OnOk result (self.new ≡ with_loose self.old (record { place = place; shape = IntegerOf value })) }
    {
        let at = small(self.integers.len() as u64)?;
        self.integers.push(value)?;
        add_node(&mut self.loose, place, StoredKind::Integer(at))
    }

    /// Adds the node of a string.
    #[inline(never)]
    fn push_string(&mut self, place: u64, text: &[u8]) -> Result<(), NoMemory>
        ensures ok { OnOk result (self.new ≡ with_loose self.old (record { place = place; shape = StringOf text.now })) }
    {
        let at = small(self.strings.len() as u64)?;
        self.strings.push(text)?;
        add_node(&mut self.loose, place, StoredKind::String(at))
    }

    /// Adds the node of a word, an integer or a string, which is loose.
    #[inline(always)]
    pub fn push_leaf(&mut self, place: u64, kind: LentKind<'_>) -> Result<(), NoMemory>
        requires leaf { IsLeaf (kind_of kind) }
        requires named { IsNamed kind }
        ensures ok { OnOk result (self.new ≡ with_loose self.old (record { place = place; shape = leaf_of (kind_of kind.entry) })) }
    {
        match kind {
            LentKind::Word(name) => self.push_word(place, name),
            LentKind::Integer(value) => self.push_integer(place, value),
            LentKind::String(text) => self.push_string(place, text),
            LentKind::LeftParen | LentKind::RightParen => unreachable!(),
        }
    }

    /// Closes a form, whose arguments are the loose nodes from a place on. Its own node is loose.
    #[inline(always)]
    pub fn push_form(&mut self, place: u64, start: usize) -> Result<(), NoMemory>
        requires { start ≤ length self.old.loose }
        ensures ok { OnOk result (self.new ≡ with_form self.old place start) }
    {
        let at = small(self.arguments.len() as u64)?;
        add_list(&mut self.nodes, &mut self.arguments, &self.loose, start)?;
        self.loose.truncate(start);
        add_node(&mut self.loose, place, StoredKind::Form(at))
    }

    /// All nodes, the loose ones last, to which no others come.
    pub fn finish(self) -> Result<Rows, NoMemory>
        ensures { IfOk result (λ rows. rows ≡ self.rows ++ self.loose) }
    {
        let Store {
            mut nodes,
            loose,
            arguments,
            words,
            integers,
            strings,
        } = self;
        nodes.extend_from_slice(&loose)?;
        let words = words.finish()?;
        Ok(Rows {
            nodes,
            arguments,
            words,
            integers,
            strings,
        })
    }
}
