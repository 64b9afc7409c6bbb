//! Tests of the crates that read and write files. They show what no clause says: that calls succeed where there is memory, and that
//! the definitions give the texts, places and words that were meant. One design is made by hand, since no file has it: a cell stands
//! before one that it places.
#![tactic(auto)]

#[cfg(test)]
mod arrays;
#[cfg(test)]
mod checks;
#[cfg(test)]
mod designs;
#[cfg(test)]
mod forms;
#[cfg(test)]
mod lexing;
#[cfg(test)]
mod lists;
#[cfg(test)]
mod order;
#[cfg(test)]
mod reading;
#[cfg(test)]
mod trees;
#[cfg(test)]
mod words;
