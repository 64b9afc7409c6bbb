//! Whether scripts walk where no flattening can be walked.
#![tactic(auto)]

mod walking;

pub use walking::cannot_walk;
