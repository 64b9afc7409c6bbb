//! How the names, strings and integers of a design are spelled in an EDIF file, and what a name means in its scope.
#![tactic(auto)]

mod folded;
mod plain;
mod property;
mod scope;
mod strings;
mod words;

pub use property::property_text;
pub use scope::{Defined, Meant, Scope};
pub use strings::write_string;
pub use words::{write_ident, write_integer};
