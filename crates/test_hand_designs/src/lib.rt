//! Designs that are made by hand, for tests. A plan is plain data, and `design` makes the design that it says.
#![tactic(auto)]

mod parts;
mod plans;
mod worked;

pub use plans::{
    CellPlan, DesignPlan, EndPlan, Inside, InstPlan, NetPlan, NotePlan, PortPlan, PropertyPlan,
    TopPlan, design,
};
pub use worked::{bare, beside, board};
