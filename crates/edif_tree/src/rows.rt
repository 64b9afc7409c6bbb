//! A list of nodes that is whole.
ghost use Rattle.std.specs.Prelude.{◌≡◌, ◌<◌, length, Some, slice_get, option_map};
ghost use Rattle.edif_tree.specs.Keywords.{seen_keyword};
ghost use Rattle.edif_tree.specs.Nodes.{seen};

use crate::node_lists::NodeLists;
use crate::stored::{NodeId, StoredKind, StoredNode, StoredShape};
use crate::texts::Texts;
use crate::word_list::WordList;
use edif_keywords::Keyword;
use std::marker::Model;

/// Nodes to which no others come, each with its place and shape, as contracts see them.
pub struct Rows {
    pub(crate) nodes: Vec<StoredNode>,
    pub(crate) arguments: NodeLists,
    pub(crate) words: WordList,
    pub(crate) integers: Vec<i64>,
    pub(crate) strings: Texts,
}

impl Drop for Rows {
    fn drop(self) {
        let Rows {
            nodes: _,
            arguments: _,
            words: _,
            integers: _,
            strings: _,
        } = self;
    }
}

impl Model for Rows {
    ghost use Rattle.std.specs.Prelude.{List, map};
    ghost use Rattle.edif_tree.specs.Nodes.{NodeRow, row_of, AreWithin};

    ghost Value = { List NodeRow };

    ghost view = { λ a. map (row_of (record { arguments = a.arguments.lists; words = a.words; integers = a.integers.items; strings = a.strings })) a.nodes.items };

    ghost invariant = { λ a. AreWithin (record { arguments = a.arguments.lists; words = a.words; integers = a.integers.items; strings = a.strings }) a.nodes.items };
}

impl Rows {
    /// The place of a node.
    pub fn place(&self, id: NodeId) -> u64
        requires { id.0 < length self.now }
        ensures { option_map (λ row. row.place) (slice_get self.now id.0) ≡ Some result }
    {
        u64::from(self.nodes[id.0 as usize].place)
    }

    /// What stands at a node.
    pub fn shape(&self, id: NodeId) -> StoredShape<'_>
        requires { id.0 < length self.now }
        ensures { option_map (λ row. row.shape) (slice_get self.now id.0) ≡ Some (seen result) }
    {
        match self.nodes[id.0 as usize].kind.unpack() {
            StoredKind::Form(at) => StoredShape::Form(self.arguments.get(at as usize)),
            StoredKind::Word(at) => StoredShape::Word(self.words.name(at as usize)),
            StoredKind::Integer(at) => StoredShape::Integer(self.integers[at as usize]),
            StoredKind::String(at) => StoredShape::String(self.strings.get(at as usize)),
        }
    }

    /// The keyword that the word at a node spells, or `None` where it spells none, or no word stands there.
    pub fn keyword(&self, id: NodeId) -> Option<Keyword>
        requires { id.0 < length self.now }
        ensures { option_map (λ row. seen_keyword row.shape) (slice_get self.now id.0) ≡ Some result }
    {
        match self.nodes[id.0 as usize].kind.unpack() {
            StoredKind::Word(at) => self.words.keyword(at as usize),
            _ => None,
        }
    }
}
