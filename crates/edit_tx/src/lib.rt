//! Transactions: operations that are tried on a pinned version of a design.
#![tactic(auto)]

mod apply;
mod pin;
mod tx;

pub use apply::apply_op;
pub use db_version::{Snapshot, Version};
pub use pin::Pin;
pub use tx::{Left, Tx};
