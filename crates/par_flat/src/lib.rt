//! The items of a flattening, and their lines on their way to a sink, by workers beside each other.
#![tactic(auto)]

mod crew;
mod cut;
mod desks;
mod items;
mod limits;
mod lines;
mod parts;
mod rounds;
mod write;

pub use flat_writer::FlatError;
pub use items::par_flat;
pub use limits::MOST_WORKERS;
pub use occ_walk::WalkError;
pub use write::write_par_flat;
