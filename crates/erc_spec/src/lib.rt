//! An electrical check of a flattened design: which nets no pin drives, which several pins drive, and which inputs no net joins. It holds
//! the type of what is found, the definitions that contracts cite, what is written of it, and laws with worked designs.
#![tactic(auto)]

mod finding;
mod laws;

pub use finding::Finding;
pub use laws::{
    clash_is_found, levels_are_found, many_is_exact, nothing_is_found_in_counter, open_is_exact,
    open_pins_are_told_in_order, ports_of_the_top_are_found, told_nets_are_there,
    undriven_board_is_found, undriven_is_exact, weak_pins_drive,
};
