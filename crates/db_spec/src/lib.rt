//! Calls on a shared design, their answers, and which histories of them are legal; and that what operations read is in the design
//! that they are run on. It holds definitions and laws, and no algorithm.
#![tactic(auto)]

mod event;
mod laws;
mod read_laws;
mod worked;

pub use event::{Answer, Call, Event};
pub use laws::{
    collect_leaves_what_is_held, full_stays_full, growth, legal_by_parts, one_answer, one_history,
    one_more_event, pin_stays_live, replies_on_head, states_are_sound, version_stays,
    versions_are_valid, versions_follow, written_is_there,
};
pub use read_laws::{conflicts_are_pinned, needs_are_there};
pub use worked::{
    held_pins_have_room, inside_and_interface_are_apart, least_object_and_last_commit_are_named,
    pinned_version_is_kept, rounds_have_room, second_commit_is_refused,
};
