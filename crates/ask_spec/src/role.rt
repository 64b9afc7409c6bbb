//! What is asked of the pins of a net.

/// As what a pin stands at its net.
#[derive(Clone, Copy, Debug, PartialEq, Eq)]
pub enum Role {
    /// As any.
    Any,
    /// As one that drives the net.
    Driver,
    /// As one that the net loads.
    Load,
}
