//! The single operations on cells, nets, properties and notes, and those that show, over cells that are read and edited one by one;
//! and what they plan over what they have read: another net or instance, contents without a net, a new cell, other notes, what is
//! shown; or why they refuse.
#![tactic(auto)]

mod add;
mod cell_plans;
mod net_plans;
mod nets;
mod note_plans;
mod notes;
mod property_plans;
mod props;
mod show;
mod show_plans;

pub use add::add_cell;
pub use nets::{add_net, drop_net};
pub use notes::{drop_note, set_note};
pub use props::set_prop;
pub use show::{show_cell, show_inst, show_net};
