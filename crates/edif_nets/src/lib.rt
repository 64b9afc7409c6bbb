//! The nets of contents as a list: the rows for which forms stand, the limits on them, and whether their names and their bits differ.
#![tactic(auto)]

mod differ;
mod joins;
mod limits;
mod net_list;
mod rows;

pub use joins::{check_ends, row_places};
pub use limits::{ends_room, nets_room};
pub use net_list::{NetList, check_names};
pub use rows::{add_net, add_row, row_size};
