//! Tests of the outside of a program: files and sinks, in memory and of the system, and the gate that makes callers wait for each other.
#![tactic(auto)]

#[cfg(test)]
mod faking;
#[cfg(test)]
mod gates;
#[cfg(test)]
mod outside;
