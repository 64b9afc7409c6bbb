//! `Gate`: what is told how far a script has come.

/// What a script calls before each line that is neither blank nor a comment, again when a block is run again, and once at
/// its end with the number of its last line plus one. Lines count from 1 and callers from 0. It promises nothing: it may
/// wait, and it decides nothing.
pub trait Gate {
    /// The caller is at this line.
    fn reached(&self, caller: u32, line: u32);

    /// Whether it may hold a caller. Where it never does, callers need not come at the same time: one thread may call for all of them, one
    /// behind the other.
    fn may_hold(&self) -> bool {
        true
    }
}

/// A gate that is always open, and does nothing.
#[derive(Clone, Copy, Debug, PartialEq, Eq)]
pub struct FreeGate;

impl Gate for FreeGate {
    fn reached(&self, _caller: u32, _line: u32) {}

    fn may_hold(&self) -> bool {
        false
    }
}
