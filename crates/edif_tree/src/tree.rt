//! A tree as a list of nodes.
ghost use Rattle.std.specs.Prelude.{◌≡◌, ◌<◌, ◌++◌, IfOk, length, option_map, slice_get, Some, true};
ghost use Rattle.edif_spelling_spec.specs.Tree.{Placed};
ghost use Rattle.edif_tree.specs.Keywords.{seen_keyword};
ghost use Rattle.edif_tree.specs.Nodes.{IsAt, seen};
ghost use Rattle.edif_tree.specs.Order.{is_node};
ghost use Rattle.edif_tree.specs.Handles.{here};

use crate::node::Node;
use crate::rows::Rows;
use crate::store::Store;
use crate::stored::{NodeId, StoredShape};
use edif_keywords::Keyword;
use netlist_schema::NoMemory;
use std::marker::Model;

/// A tree, as contracts see it: the table of its nodes, and the node of the whole file. A tree of the file stands at that node.
pub struct Tree {
    nodes: Rows,
    root: NodeId,
}

impl Drop for Tree {
    fn drop(self) {
        let Tree { nodes: _, root: _ } = self;
    }
}

impl Model for Tree {
    ghost use Rattle.std.specs.Prelude.{◌≡◌, true};
    ghost use Rattle.edif_tree.specs.Nodes.{Table};
    ghost use Rattle.edif_tree.specs.Order.{is_node};

    ghost Value = { Table };

    ghost view = { λ a. record { rows = a.nodes; root = a.root } };

    ghost invariant = { λ a. is_node a.nodes a.root ≡ true };
}

impl Tree {
    /// The tree of these nodes.
    pub(crate) fn of(nodes: Store, root: NodeId) -> Result<Tree, NoMemory>
        requires { is_node (nodes.rows ++ nodes.loose) root ≡ true }
        ensures { IfOk result (λ tree. tree ≡ record { rows = nodes.rows ++ nodes.loose; root = root }) }
    {
        let nodes = nodes.finish()?;
        Ok(Tree { nodes, root })
    }

    /// The node of the whole file. Takes no memory.
    pub fn root(&self) -> Node<'_>
        ensures { (t : Placed) → IsAt self.now.rows self.now.root t → here result ≡ t }
    {
        Node {
            tree: self,
            id: self.root,
        }
    }

    /// The place of a node of this tree.
    pub(crate) fn place(&self, id: NodeId) -> u64
        requires { id.0 < length self.now.rows }
        ensures { option_map (λ row. row.place) (slice_get self.now.rows id.0) ≡ Some result }
    {
        self.nodes.place(id)
    }

    /// What stands at a node of this tree.
    pub(crate) fn shape(&self, id: NodeId) -> StoredShape<'_>
        requires { id.0 < length self.now.rows }
        ensures { option_map (λ row. row.shape) (slice_get self.now.rows id.0) ≡ Some (seen result) }
    {
        self.nodes.shape(id)
    }

    /// The keyword that the word at a node of this tree spells.
    pub(crate) fn keyword(&self, id: NodeId) -> Option<Keyword>
        requires { id.0 < length self.now.rows }
        ensures { option_map (λ row. seen_keyword row.shape) (slice_get self.now.rows id.0) ≡ Some result }
    {
        self.nodes.keyword(id)
    }
}
