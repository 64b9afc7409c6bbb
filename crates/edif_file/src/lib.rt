//! The bytes of a design file: the design that they mean, or what is wrong with them and how that is said.
#![tactic(auto)]

mod no_design;
mod reader;
mod texts;

pub use no_design::NoDesign;
pub use reader::DesignReader;
pub use texts::fault_text;
