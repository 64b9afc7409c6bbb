//! Flattenings by workers beside each other, on worked designs.
#![tactic(auto)]

#[cfg(test)]
mod designs;
#[cfg(test)]
mod measures;
#[cfg(test)]
mod rows;
#[cfg(test)]
mod shares;
#[cfg(test)]
mod turns;
