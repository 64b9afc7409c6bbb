//! Tests of the parts of the database: pins, the commits of objects, a value behind a turn, and tables.
#![tactic(auto)]

#[cfg(test)]
mod commits;
#[cfg(test)]
mod pins;
#[cfg(test)]
mod tables;
#[cfg(test)]
mod turns;
