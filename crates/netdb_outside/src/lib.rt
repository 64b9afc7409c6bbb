//! The outside of a program, as traits: files to be read, a sink to be written, and a gate that is told how far a script has
//! come. Each has a form in memory, and files and sink have one over the system's. `BufferedSink` gathers bytes into pieces for a sink.
#![tactic(auto)]

mod buffered_sink;
mod contents;
mod files;
mod gate;
mod hold_gate;
mod host_files;
mod host_out;
mod mem_files;
mod mem_sink;
mod pieces;
mod sink;
mod write_error;

pub use buffered_sink::{Appended, BufferedSink};
pub use contents::{FileRead, read_file};
pub use files::{Files, Got, Opened};
pub use gate::{FreeGate, Gate};
pub use hold_gate::{Hold, HoldGate};
pub use host_files::{HostFiles, read_retrying};
pub use host_out::HostOut;
pub use mem_files::{MemFiles, NamedFile, names_differ};
pub use mem_sink::MemSink;
pub use pieces::{Ended, Taker, read_pieces};
pub use sink::{Put, Sink};
pub use write_error::WriteError;
