//! The flattening of a design: its occurrences, which of their nets are connected, and the first net of each such group.
//! It holds the types of a flattening, the definitions that contracts cite, and the laws that follow from them.
#![tactic(auto)]

mod item;
mod laws;
mod path;

pub use item::{Item, NetAt};
pub use laws::{
    board_is_flattened, connection_is_local, counter_is_flattened, each_cell_has_one_tree,
    each_net_has_one_representative, items_go_down, joined_bits_are_there,
    occurrences_and_nets_are_all, pair_is_flattened, pins_are_exact,
    representatives_are_handed_down, test_tells_connection, tower_begins,
};
pub use path::Path;
