//! The pin table of a design, as comma-separated text. It holds the definitions that contracts cite, and worked tables as laws.
#![tactic(auto)]

mod laws;

pub use laws::{counter_table_is_shown, fields_are_quoted};
