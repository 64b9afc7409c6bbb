//! The top call: words and files in, bytes and a status out.
#![tactic(auto)]

mod run;
mod texts;
mod verdict;

pub use edif_file::fault_text;
pub use edif_spec::EdifFault;
pub use netdb_spec::Status;
pub use run::run_netdb;
pub use texts::status_text;
