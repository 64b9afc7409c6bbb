//! What stands in the cells of a design: instances and nets by the id of their cell, identifiers of ports and nets, and where a path
//! leads.
#![tactic(auto)]

mod contents;
mod names;
mod way;

pub use contents::{inst_at, insts_at, net_at, net_count, nets_at};
pub use names::{net_name, port_name};
pub use way::cell_along;
