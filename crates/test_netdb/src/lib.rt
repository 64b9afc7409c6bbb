//! The worked rows of the program, run on its top call over files and a sink in memory.
#![tactic(auto)]

#[cfg(test)]
mod arrays;
#[cfg(test)]
mod calls;
#[cfg(test)]
mod checks;
#[cfg(test)]
mod eco;
#[cfg(test)]
mod eco_texts;
#[cfg(test)]
mod faults;
#[cfg(test)]
mod further;
#[cfg(test)]
mod gates;
#[cfg(test)]
mod generated;
#[cfg(test)]
mod rows;
#[cfg(test)]
mod runs;
#[cfg(test)]
mod texts;
#[cfg(test)]
mod tower;
#[cfg(test)]
mod workers;
