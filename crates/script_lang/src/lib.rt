//! Scripts as text: reading one, and the texts of operations, replies, objects and events.
#![tactic(auto)]

mod events;

pub use events::event_text;
pub use script_reader::{ScriptError, parse};
pub use script_spec::{Script, ScriptLine, Step};
pub use script_texts::{object_text, reply_text};
