//! What the single operations read, by names and along paths, and how they write.
#![tactic(auto)]

mod find;
mod named;
mod op_error;
mod places;
mod plan;
mod read;
mod walk;
mod write;

pub use find::{inst_place, is_inst_taken, is_net_taken, net_place, port_place, property_place};
pub use named::NamedInsts;
pub use op_error::OpError;
pub use places::places_by_name;
pub use plan::Plan;
pub use read::{find_named, read_named};
pub use walk::{Crossed, add_inside, goes_through, leads, reaches};
pub use write::{put_notes, put_plan, write_one};
