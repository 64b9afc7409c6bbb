//! The items of one occurrence of a design, one at a time, from where a walk stands; and the notes of a design by the paths of the
//! occurrences for which they are.
#![tactic(auto)]

mod behind;
mod enter;
mod firsts;
mod ground;
mod items;
mod lent;
mod named;
mod noted;
mod notes;
mod pins;
mod place;
mod ports;
mod steps;
mod texts;

pub use behind::stage_behind;
pub use ground::Ground;
pub use items::item_ahead;
pub use lent::{ItemRef, NetRef, PropertiesRef};
pub use notes::PlacedNotes;
pub use place::{Frame, Parent, PinAt, Place, Stage};
pub use steps::Steps;
pub use texts::{ItemText, NetText, text_ahead};
