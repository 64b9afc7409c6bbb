//! What a seat holds.
use edit_tx::{Pin, Tx};
use thiserror::Error;

/// What a seat holds.
#[derive(Drop)]
pub enum Held {
    /// Nothing: it may pin a version.
    Nothing,
    /// A pin: its version may be read, and a transaction begun on it.
    OnPin(Pin),
    /// A transaction, with its pin.
    InTx(Tx),
}

/// There is no such seat, or what it holds does not fit the call. Nothing was changed.
#[derive(Clone, Copy, Debug, PartialEq, Eq, Error)]
#[error("wrong use")]
pub struct WrongUse;
