//! Scripts that are run beside each other, each by a worker of its own, and the report of their run, on its way to a sink.
#![tactic(auto)]

mod ended;
mod report;
mod run;
mod workers;

pub use ended::RunEnd;
pub use netdb_outside::WriteError;
pub use report::write_run;
pub use run::{Closed, run_scripts};
