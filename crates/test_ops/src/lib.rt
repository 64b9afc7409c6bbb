//! Tests of single operations: those of worked lists, each with its reply, and operations on designs with many cells. Tests of uses and of
//! what is kept: worked designs, edits after each of which the index is compared with one made anew, a history by hand, copies, and a long
//! chain.
#![tactic(auto)]

#[cfg(test)]
mod large;
#[cfg(test)]
mod rows;
#[cfg(test)]
mod said;
#[cfg(test)]
mod used_chain;
#[cfg(test)]
mod used_copies;
#[cfg(test)]
mod used_edits;
#[cfg(test)]
mod used_histories;
#[cfg(test)]
mod used_keeps;
#[cfg(test)]
mod used_said;
#[cfg(test)]
mod used_texts;
