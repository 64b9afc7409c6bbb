//! The six kinds of step, and what each tells its seat.
ghost use Rattle.turn_cell.specs.declared.board.View.TheVariants.{Spent};
ghost use Rattle.turn_cell.specs.Steps.{Draws, Looks, Counts, Serves, with_one_made, next_seat, with_joined};

use crate::board::View;
use crate::logged::Logged;
use atomic_table::{Join, Play, Split};

/// The first seat makes another one.
pub(crate) struct SplitSeat;

impl<B, E> Split<View<B, E>> for SplitSeat {
    ghost left = { with_one_made };

    ghost right = { next_seat };
}

/// A seat at rest draws a ticket.
pub(crate) struct Draw;

impl<V: Logged> Play<Option<V>, View<V::Base, V::Entry>> for Draw {
    ghost then = { λ _ m n w. Draws m n w };
}

/// A waiting seat looks at the ticket that is served, and takes the slot where that is its own.
pub(crate) struct Look;

impl<V: Logged> Play<Option<V>, View<V::Base, V::Entry>> for Look {
    ghost then = { λ _ m n w. Looks V.base V.entries V.made_by m n w };
}

/// A seat in its turn counts its entry and gives the slot back.
pub(crate) struct Count;

impl<V: Logged> Play<Option<V>, View<V::Base, V::Entry>> for Count {
    ghost then = { λ _ m n w. Counts V.entries V.made_by m w };
}

/// The next ticket is served. A seat that counted no entry gives the slot back.
pub(crate) struct Serve;

impl<V: Logged> Play<Option<V>, View<V::Base, V::Entry>> for Serve {
    ghost then = { λ _ m n w. Serves V.made_by m w };
}

/// The first seat takes in another one.
pub(crate) struct JoinSeat;

impl<B, E> Join<View<B, E>> for JoinSeat {
    ghost both = { with_joined };

    ghost spent = { Spent };
}
