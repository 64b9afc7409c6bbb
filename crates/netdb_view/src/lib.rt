//! A view: one version of a design, read without the database that it came from.
#![tactic(auto)]

mod fields;
mod kept;
mod texts;
mod view;

pub use fields::Field;
pub use flat_writer::FlatError;
pub use netdb_outside::WriteError;
pub use view::{BeginError, LineStep, Step, View};
