//! The registry of pins: which pins are live, and which versions they hold.
#![tactic(auto)]

mod pins;

pub use pins::Pins;
