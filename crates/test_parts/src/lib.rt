//! Tests of lists: those in pages beside plain ones, what is lent of a list and left of one, and lists in one piece.
#![tactic(auto)]

#[cfg(test)]
mod each;
#[cfg(test)]
mod items;
#[cfg(test)]
mod lent;
#[cfg(test)]
mod lists;
#[cfg(test)]
mod pages;
#[cfg(test)]
mod rows;
