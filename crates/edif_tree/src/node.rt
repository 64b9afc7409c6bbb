//! The nodes of a tree, as it lends them.
ghost use Rattle.std.specs.Prelude.{◌≡◌, true};
ghost use Rattle.edif_tree.specs.Order.{is_node, are_nodes};
ghost use Rattle.edif_tree.specs.Ranges.{ids_of};

use crate::each::Each;
use crate::stored::{NodeId, NodeRange, StoredShape};
use crate::tree::Tree;
use edif_keywords::Keyword;
use netlist_schema::Ident;

/// A node of a tree.
#[derive(Clone, Copy)]
pub struct Node<'a> {
    pub(crate) tree: &'a Tree,
    pub(crate) id: NodeId,
    pub ghost stands: { is_node tree.now.rows id ≡ true },
}

/// Nodes of a tree, in order.
#[derive(Clone, Copy)]
pub struct Nodes<'a> {
    pub(crate) tree: &'a Tree,
    pub(crate) ids: NodeRange,
    pub ghost stand: { are_nodes tree.now.rows (ids_of ids) ≡ true },
}

/// What stands at a node.
#[derive(Clone, Copy)]
pub enum Shape<'a> {
    /// A form, by the nodes of its arguments in order.
    Form(Nodes<'a>),
    /// A word, by its name.
    Word(&'a Ident),
    /// A number.
    Integer(i64),
    /// A string, by the bytes that it stands for.
    String(&'a [u8]),
}

impl<'a> Node<'a> {
    ghost use Rattle.std.specs.Prelude.{◌≡◌};
    ghost use Rattle.edif_tree.specs.Nodes.{place_of};
    ghost use Rattle.edif_tree.specs.Handles.{here, Shows};
    ghost use Rattle.edif_tree.specs.Keywords.{form_keyword, word_keyword};

    /// The number of bytes before its first token, which for a form is its `(`. Takes no memory.
    pub fn place(self) -> u64
        ensures { result ≡ place_of (here self.entry) }
    {
        self.tree.place(self.id)
    }

    /// What stands there: the nodes of a form's arguments in order, or a token. Takes no memory.
    #[inline(always)]
    pub fn shape(self) -> Shape<'a>
        ensures { Shows result (here self.entry) }
    {
        let tree = self.tree;
        match tree.shape(self.id) {
            StoredShape::Form(ids) => Shape::Form(Nodes { tree, ids }),
            StoredShape::Word(name) => Shape::Word(name),
            StoredShape::Integer(value) => Shape::Integer(value),
            StoredShape::String(text) => Shape::String(text),
        }
    }

    /// The keyword that the word there spells, or `None` where it spells none, or no word stands there. Takes no memory.
    #[inline(always)]
    fn spelled(self) -> Option<Keyword>
        ensures { result ≡ word_keyword (here self.entry) }
    {
        self.tree.keyword(self.id)
    }

    /// The keyword of the form there, or `None` where it begins with none, or no form stands there. Takes no memory.
    #[inline(always)]
    pub fn keyword(self) -> Option<Keyword>
        ensures { result ≡ form_keyword (here self.entry) }
    {
        let Shape::Form(nodes) = self.shape() else {
            return None;
        };
        let Some((first, _)) = nodes.split_first() else {
            return None;
        };
        first.spelled()
    }
}

impl<'a> Nodes<'a> {
    ghost use Rattle.std.specs.Prelude.{◌≡◌, ◌<◌, ◌≤◌, ◌∷◌, [], length, slice_get, Some, IfSome, IfNone, take, drop};
    ghost use Rattle.edif_tree.specs.Handles.{here, all};
    ghost use Rattle.edif_tree.specs.Eaches.{left};

    /// How many there are. Takes no memory.
    pub fn len(self) -> usize
        ensures { result ≡ length (all self.entry) }
    {
        self.ids.len()
    }

    /// The one at a place. Takes no memory.
    pub fn at(self, i: usize) -> Node<'a>
        requires { i < length (all self) }
        ensures { slice_get (all self.entry) i ≡ Some (here result) }
    {
        Node {
            tree: self.tree,
            id: self.ids.at(i),
        }
    }

    /// The first and the others, where there is one. Takes no memory.
    #[inline(always)]
    pub fn split_first(self) -> Option<(Node<'a>, Nodes<'a>)>
        ensures some { IfSome result (λ p. all self.entry ≡ here p.0 ∷ all p.1) }
        ensures none { IfNone result (all self.entry ≡ []) }
    {
        let tree = self.tree;
        let (first, others) = self.ids.split_first()?;
        Some((Node { tree, id: first }, Nodes { tree, ids: others }))
    }

    /// Those before a place, and those from there on. Takes no memory.
    pub fn split_at(self, mid: usize) -> (Nodes<'a>, Nodes<'a>)
        requires { mid ≤ length (all self) }
        ensures front { all result.0 ≡ take mid (all self.entry) }
        ensures back { all result.1 ≡ drop mid (all self.entry) }
    {
        let tree = self.tree;
        let (front, back) = self.ids.split_at(mid);
        (Nodes { tree, ids: front }, Nodes { tree, ids: back })
    }

    /// Each of them in order. Takes no memory.
    pub fn iter(self) -> Each<'a>
        ensures { left result ≡ all self.entry }
    {
        Each { nodes: self }
    }
}
