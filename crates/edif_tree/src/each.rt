//! Nodes one after the other.
ghost use Rattle.std.specs.Iterator.{YieldsFirstBy, item_count};
ghost use Rattle.edif_tree.specs.Handles.{here};
ghost use Rattle.edif_tree.specs.Eaches.{left};

use crate::node::{Node, Nodes};

/// Yields nodes of a tree in order.
#[derive(Drop)]
pub struct Each<'a> {
    pub(crate) nodes: Nodes<'a>,
}

impl<'a> Iterator for Each<'a> {
    type Item = Node<'a>;

    ghost next_gives = { YieldsFirstBy here left };

    ghost remaining = { item_count left };

    fn next(&mut self) -> Option<Node<'a>> {
        let (first, others) = self.nodes.split_first()?;
        self.nodes = others;
        Some(first)
    }
}
