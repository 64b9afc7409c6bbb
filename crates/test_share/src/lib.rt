//! Tests of the shared database: worked calls of two callers, in one thread and in several, and many callers at once.
#![tactic(auto)]

mod callers;
#[cfg(test)]
mod designs;
#[cfg(test)]
mod lists;
#[cfg(test)]
mod many;
#[cfg(test)]
mod rows;
#[cfg(test)]
mod said;
#[cfg(test)]
mod steps;
#[cfg(test)]
mod trio;
