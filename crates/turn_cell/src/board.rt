//! The table under a turn: three words, one slot, and what is known of the seats.
use crate::logged::Logged;
use atomic_table::TableRule;
use std::collections::LinkedList;
use std::snapshot::Snapshot;

/// The word with the next ticket to be drawn.
pub const TICKET: usize = 0;

/// The word with the ticket that is served.
pub const SERVING: usize = 1;

/// The word with the number of entries.
pub const COUNT: usize = 2;

/// The slot that has the value.
pub const SLOT: usize = 0;

/// How far a seat is with its turn. This and the types below stand in contracts and proofs alone: no value of them is made.
pub enum Phase<E> {
    /// It has no ticket.
    Rest,
    /// It drew this ticket.
    Waiting(u64),
    /// Its ticket is served, and it took the slot, whose value had this list.
    InTurn(u64, LinkedList<E>),
    /// Its ticket is served, its entry is counted, and it gave the slot back.
    Counted(u64),
}

/// What the first seat keeps of a seat that was joined into it.
pub struct Joined<B, E> {
    pub number: u64,
    pub base: B,
    pub seen: LinkedList<E>,
    pub own: LinkedList<E>,
}

/// What a seat knows.
pub struct Holder<B, E> {
    pub number: u64,
    pub base: B,
    pub phase: Phase<E>,
    /// The entries that it has seen.
    pub seen: LinkedList<E>,
    /// The entries that it made.
    pub own: LinkedList<E>,
    /// How many seats were made; only the first seat knows it.
    pub made: u64,
    /// The seats that were joined into this one, which is the first.
    pub joined: LinkedList<Joined<B, E>>,
}

/// A seat as the table keeps it.
pub enum View<B, E> {
    /// It was joined into the first seat.
    Spent,
    Live(Holder<B, E>),
}

/// What the table is told once, when it is made.
#[derive(Drop)]
pub struct About<V> {
    pub opening: Snapshot<V>,
    pub seats: u64,
}

/// What holds of the table between any two steps.
pub struct TurnRule;

impl<V: Logged> TableRule<Option<V>, View<V::Base, V::Entry>, About<V>> for TurnRule {
    ghost use Rattle.turn_cell.specs.Rule.{IsKept};
    ghost use Rattle.turn_cell.specs.Steps.{newcomer};

    ghost holds = { λ about. IsKept V.base V.entries V.made_by (V.base about.opening.value) about.seats };

    ghost first = { λ about. newcomer 0 1 (V.base about.opening.value) };
}
