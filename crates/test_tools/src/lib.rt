//! Tests of what tools hold and ask: the desk, views, questions about a version by place and by name, the calls on what was opened, and
//! the check of reports.
#![tactic(auto)]

#[cfg(test)]
mod ask_by_name;
#[cfg(test)]
mod ask_checks;
#[cfg(test)]
mod ask_designs;
#[cfg(test)]
mod ask_listings;
#[cfg(test)]
mod ask_rows;
#[cfg(test)]
mod ask_threads;
#[cfg(test)]
mod asked;
#[cfg(test)]
mod designs;
#[cfg(test)]
mod desk;
#[cfg(test)]
mod questions;
#[cfg(test)]
mod report_rows;
#[cfg(test)]
mod report_texts;
#[cfg(test)]
mod views;
#[cfg(test)]
mod written;
