//! The cells at and below a top, with the cells of their instances first.
#![tactic(auto)]

mod below;
mod marks;

pub use below::cells_below;
pub use marks::CellMarks;
