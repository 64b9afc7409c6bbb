//! Writing a design as an EDIF file.
#![tactic(auto)]

mod cell;
mod contents;
mod library;
mod reference;
mod small;
mod spelled;
mod top;
mod whole;

pub use netdb_outside::WriteError;
pub use whole::write_design;
