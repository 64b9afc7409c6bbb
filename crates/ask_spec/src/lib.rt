//! What is asked of a flattened design without walking it: what stands at a path, which net is at a pin, which pins are at a net. It holds
//! the definitions that contracts cite, and laws with worked designs.
#![tactic(auto)]

mod laws;
mod role;

pub use laws::{
    board_is_asked, classes_are_told, counter_is_asked, drivers_are_counted, levels_are_asked,
    pins_are_parted, pins_are_told, places_are_told, sides_agree,
};
pub use role::Role;
