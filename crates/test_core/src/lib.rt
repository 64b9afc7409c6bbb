//! Worked histories of a database of one thread, as tests: pins, transactions, commits and collects by two callers; and a walk over a
//! pinned version, which goes on when other versions are made, its pin has ended and its version was collected.
#![tactic(auto)]

#[cfg(test)]
mod block_designs;
#[cfg(test)]
mod calls;
#[cfg(test)]
mod conflicts;
#[cfg(test)]
mod designs;
#[cfg(test)]
mod full;
#[cfg(test)]
mod names;
#[cfg(test)]
mod pins;
#[cfg(test)]
mod versions;
#[cfg(test)]
mod walks;
