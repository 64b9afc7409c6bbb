//! The run of a number: a generated design is edited again and again in one thread, as by two callers, and then counted.
#![tactic(auto)]

mod tell;

pub use tell::summary;
