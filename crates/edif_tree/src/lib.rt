//! Tokens to a tree of nodes, or their first tree fault. The nodes stand in one list, and no call goes down by recursion.
#![tactic(auto)]

mod each;
mod errors;
mod laws;
mod making;
mod node;
mod node_lists;
mod read;
mod rows;
mod store;
mod stored;
mod texts;
mod tree;
mod tree_maker;
mod word_list;
mod words;

pub use each::Each;
pub use errors::TreeError;
pub use laws::one_tree_stands;
pub use node::{Node, Nodes, Shape};
pub use read::read_tree;
pub use tree::Tree;
pub use tree_maker::TreeMaker;
