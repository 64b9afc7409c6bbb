//! Lists in pages, which lists share; copies, and want of memory. It stands on no other crate of the repository.
#![tactic(auto)]

mod copied;
mod each;
mod memory;
mod page;
mod paged;
mod pages;
mod spots;

pub use copied::Copied;
pub use each::Each;
pub use memory::NoMemory;
pub use page::{behind, copies};
pub use paged::Paged;
pub use spots::ROOM;
