//! Where the cells of a design are used, and the design with nothing but its top and the cells below it. It holds the definitions that
//! contracts cite, worked designs, and laws.
#![tactic(auto)]

mod laws;
mod used_at;
mod worked;

pub use laws::{
    index_has_each_cell, kept_are_below, kept_stand_anew, kept_stays, kept_stays_kept,
    users_are_instances,
};
pub use used_at::UsedAt;
pub use worked::{large_is_used, small_is_used, topless_stays};
