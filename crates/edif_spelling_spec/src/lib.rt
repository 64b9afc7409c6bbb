//! How tokens are spelled: the tokens of a text, its first lexical fault, and which bytes spell which tree.
#![tactic(auto)]

mod end_laws;
mod laws;
mod lent;
mod token;
mod tree_fault;
mod tree_laws;

pub use end_laws::{fault_stays, tree_fault_stays};
pub use laws::{
    one_fault, one_reading, one_spelled_tree, one_tree, row_is_spelled, spelled_has_no_fault,
};
pub use lent::{LentKind, Tokens};
pub use token::{LexKind, Token, TokenKind};
pub use tree_fault::TreeKind;
pub use tree_laws::{fault_is_first, one_placed_tree, spelled_has_no_tree_fault, tree_or_fault};
