//! Tests of the crates that look into designs and flatten them, on designs that are read from their texts; worked rows of port
//! classes and of walks, on designs that are made by hand; and what an electrical check finds, and what is written of it.
#![tactic(auto)]

#[cfg(test)]
mod board;
#[cfg(test)]
mod classes;
#[cfg(test)]
mod finding;
#[cfg(test)]
mod finding_designs;
#[cfg(test)]
mod findings;
#[cfg(test)]
mod items;
#[cfg(test)]
mod walks;
