//! From a tree to the parts of a design: names, texts, values, properties, ports and interfaces.
#![tactic(auto)]

mod error;
mod few_names;
mod interface;
mod lists;
mod name_table;
mod names;
mod own_names;
mod parts;
mod ports;
mod properties;
mod texts;
mod values;

pub use error::{EdifError, bad_form, clash, fault_at, over_limit};
pub use interface::{Interface, read_interface};
pub use lists::append;
pub use names::{NameAt, Names, read_name};
pub use own_names::OwnNames;
pub use parts::{integer_at, is_word, read_parts, room_for, room_wanted, word_at};
pub use ports::{BusName, read_bus_name};
pub use properties::{PropertyAt, read_properties, read_property};
pub use texts::read_text_among;
