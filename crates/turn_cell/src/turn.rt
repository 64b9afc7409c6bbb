//! The turn and its seats.
ghost use Rattle.std.specs.Prelude.{◌≡◌, ◌≤◌, ◌<◌, ◌^◌, ℕ, ◌⊎◌, [], ◌∷◌, length, slice_get, Some, IfOk, vec_len, MatchBool, All, Contains};
ghost use mathlib.Core.List.{IsPrefix};
ghost use Rattle.turn_cell.specs.Seats.{SeatFacts, new_seat, IsAtRest, IsSameSeat, HasSeat, HasEachSeat, HasTheTurn, taken, Adds, Gains, log_of, entries_of, AgreeWith};
ghost use Rattle.turn_cell.specs.Views.{phase_of, number_of, seen_of, own_of, ticket_of, IsLive, IsResting, IsIn};
ghost use Rattle.turn_cell.specs.Steps.{newcomer};
ghost use Rattle.turn_cell.specs.declared.limits.TheConstants.{MOST_SEATS};

use crate::board::{About, COUNT, SERVING, SLOT, TICKET, TurnRule, View};
use crate::logged::Logged;
use crate::plays::{Count, Draw, JoinSeat, Look, Serve, SplitSeat};
use atomic_table::{Seat, Shared, Table};
use netlist_schema::NoMemory;
use std::alloc::Global;
use std::marker::Model;
use std::snapshot::Snapshot;
use std::sync::Wait;
use std::thread;

/// How often a caller looks for its ticket before it sleeps.
const LOOKS: u32 = 64;

/// One value, and the order in which seats have it. It is shared by `&`; each caller has a `TurnSeat` of its own.
#[derive(Drop)]
pub struct Turn<V: Logged> {
    table: Table<Option<V>, View<V::Base, V::Entry>, About<V>, TurnRule, Global>,
}

impl<V: Logged> Model for Turn<V> {
    ghost use Rattle.std.specs.Prelude.{◌≡◌, ◌<◌, ◌≤◌};
    ghost use Rattle.turn_cell.specs.Seats.{TurnFacts};

    ghost Value = { TurnFacts V.Base };

    ghost view = { λ t. record {
      id = t.table.shared.table_id;
      seats = t.table.shared.key.seats;
      base = V.base t.table.shared.key.opening.value;
    } };

    ghost invariant = { λ t. (t.table.shared.table_id.words ≡ 3) × (t.table.shared.table_id.slots ≡ 1)
        × (0 < t.table.shared.key.seats) };
}

/// A caller's place in the turn. Between calls it is at rest, with neither ticket nor turn; from `enter` to `leave` it has
/// the turn. It may go from thread to thread.
#[derive(Drop)]
pub struct TurnSeat<V: Logged> {
    number: u32,
    seat: Seat<Option<V>, View<V::Base, V::Entry>>,
}

impl<V: Logged> Model for TurnSeat<V> {
    ghost use Rattle.std.specs.Prelude.{◌≡◌};
    ghost use Rattle.turn_cell.specs.Seats.{SeatFacts};
    ghost use Rattle.turn_cell.specs.Views.{base_of, phase_of, seen_of, own_of, IsLive, in_hand};

    ghost Value = { SeatFacts V.Base V.Entry };

    ghost view = { λ s. record {
      turn = s.seat.table_id;
      number = s.number;
      base = base_of s.seat.me.0;
      phase = phase_of s.seat.me.0;
      seen = seen_of s.seat.me.0;
      own = own_of s.seat.me.0;
    } };

    ghost invariant = { λ s. IsLive s.number s.seat.me.0 × (s.seat.me.1 ≡ in_hand (phase_of s.seat.me.0)) };
}

impl<V: Logged> TurnSeat<V> {
    /// The seat's number: its place, from 0, among the seats that `Turn::new` gave. It stays.
    pub fn number(&self) -> u32
        ensures { result ≡ self.now.number }
    {
        self.number
    }
}

type Board<V> = Shared<
    Option<V>,
    View<<V as Logged>::Base, <V as Logged>::Entry>,
    About<V>,
    TurnRule,
>;

type Place<V> = Seat<Option<V>, View<<V as Logged>::Base, <V as Logged>::Entry>>;

// The low 32 bits of a word.
fn low_half(word: u64) -> u32 {
    (word % 4_294_967_296) as u32
}

// The seats of a new table, in the order of their numbers.
fn deal<V: Logged>(
    alloc: Global,
    shared: &Board<V>,
    mut first: Place<V>,
    seats: u32,
) -> Result<Vec<TurnSeat<V>>, NoMemory>
    requires table { (first.table_id ≡ shared.now.table_id) × (0 < shared.now.table_id.words) }
    requires count { (1 ≤ seats) × (seats ≤ shared.now.key.seats) }
    requires first { first.me ≡ (newcomer 0 1 (V.base shared.now.key.opening.value), []) }
    ensures { let base = V.base shared.now.key.opening.value in
        IfOk result (λ row. (vec_len row ≡ seats)
        × ((k : ℕ) → k < seats
        → slice_get row.items k ≡ Some (new_seat shared.now.table_id k base))) }
{
    let mut row = Vec::with_capacity(alloc, seats as usize)?;
    for number in 1..seats {
        let seat = shared.split_seat::<SplitSeat>(&mut first);
        row.push_reserved(TurnSeat { number, seat });
    }
    let seat = TurnSeat {
        number: 0,
        seat: first,
    };
    match row.insert(0, seat) {
        Ok(()) => Ok(row),
        Err(_) => Err(NoMemory),
    }
}

impl<V: Logged> Turn<V> {
    ghost use Rattle.turn_cell.specs.Views.{IsWaiting, IsInTurn, HasBase};
    ghost use Rattle.turn_cell.specs.Steps.{with_phase, HasLeft};
    ghost use Rattle.turn_cell.specs.declared.board.Phase.TheVariants.{InTurn};

    /// A turn round the value, whose list has to be empty, and its seats, 1 to 64, in the order of their numbers from 0. No
    /// seat is made later. After `NoMemory` the value is dropped.
    pub fn new(alloc: Global, value: V, seats: u32) -> Result<(Turn<V>, Vec<TurnSeat<V>>), NoMemory>
        requires count { (1 ≤ seats) × (seats ≤ MOST_SEATS) }
        requires empty { V.entries value ≡ [] }
        ensures turn { IfOk result (λ r. (r.0.seats ≡ seats) × (r.0.base ≡ V.base value)) }
        ensures seats { IfOk result (λ r. (vec_len r.1 ≡ seats)
            × ((k : ℕ) → k < seats
            → slice_get r.1.items k ≡ Some (new_seat r.0.id k (V.base value)))) }
    {
        let about = About {
            opening: Snapshot::of(&value),
            seats: u64::from(seats),
        };
        let mut slots = Vec::new(alloc);
        if slots.push(Some(value)).is_err() {
            return Err(NoMemory);
        }
        match Table::new(alloc, &[0, 0, 0], slots, &about) {
            Ok((table, first)) => {
                let row = deal(alloc, &table.shared, first, seats)?;
                Ok((Turn { table }, row))
            }
            Err(_) => Err(NoMemory),
        }
    }

    /// Draws a ticket and waits until it is served. From then on the value is the caller's, who gives it back by `leave`;
    /// every other seat waits so long. The value has the seat's base, and its list is the log: the seat has seen a prefix of
    /// it, and its own list is just its entries there. Takes no memory.
    pub fn enter(&self, rt: &impl Wait, seat: &mut TurnSeat<V>) -> V
        requires own { seat.old.turn ≡ self.now.id }
        requires rest { IsAtRest seat.old }
        ensures base { seat.new.base ≡ Some (V.base result) }
        ensures turn { HasTheTurn seat.new × (taken seat.new ≡ V.entries result) }
        ensures log { AgreeWith V.made_by (V.entries result) seat.new.number seat.new.seen seat.new.own }
        ensures same { IsSameSeat seat.old seat.new × (seat.new.seen ≡ seat.old.seen)
            × (seat.new.own ≡ seat.old.own) }
    {
        let ticket = self
            .table
            .shared
            .fetch_add::<Draw>(&mut seat.seat, TICKET, 1);
        self.wait(rt, &mut seat.seat, ticket);
        match self.table.shared.exchange(&mut seat.seat, SLOT, None) {
            Some(value) => value,
            None => unreachable!(),
        }
    }

    // Looks until the ticket is served.
    fn wait(&self, rt: &impl Wait, seat: &mut Place<V>, ticket: u64)
        requires own { seat.old.table_id ≡ self.now.id }
        requires waits { IsWaiting ticket seat.old.me.0 }
        ensures own { (seat.new.table_id ≡ seat.old.table_id) × (seat.new.id ≡ seat.old.id) }
        ensures turn { let v = seat.old.me.0 in
            (x : V) × HasBase (V.base x) v
            × (seat.new.me ≡ (with_phase (InTurn ticket (V.entries x)) v, (0, Some x) ∷ seat.old.me.1))
            × AgreeWith V.made_by (V.entries x) (number_of v) (seen_of v) (own_of v) }
    {
        let mut looks = 0;
        for _ in rt.forever() {
            let found = self.table.shared.load::<Look>(seat, SERVING);
            if found == ticket {
                return;
            }
            self.rest_a_while(rt, found, &mut looks);
        }
        unreachable!()
    }

    /// Gives the value back and lets the next seat in. The value has the seat's base still. Its list is the one that `enter`
    /// gave and, with `added`, one entry of this seat's number more; it has fewer than 2^64 entries. Then the seat is at rest,
    /// has seen this list, and its own list has that entry more. Takes no memory and waits for nobody.
    pub fn leave(&self, seat: &mut TurnSeat<V>, value: V, added: bool)
        requires own { seat.old.turn ≡ self.now.id }
        requires turn { HasTheTurn seat.old }
        requires base { seat.old.base ≡ Some (V.base value) }
        requires list { MatchBool added
            (Adds V.made_by seat.old.number (taken seat.old) (V.entries value))
            (V.entries value ≡ taken seat.old) }
        requires short { length (V.entries value) < 2 ^ 64 }
        ensures rest { IsAtRest seat.new × IsSameSeat seat.old seat.new }
        ensures seen { (seat.new.seen ≡ V.entries value) × IsPrefix seat.old.seen seat.new.seen }
        ensures own { seat.new.own ≡ entries_of V.made_by seat.new.number seat.new.seen }
        ensures grown { MatchBool added (Gains seat.old seat.new) (seat.new.own ≡ seat.old.own) }
    {
        self.hand_on(&mut seat.seat, value, added);
        self.wake();
    }

    // Lets others go on, and after some looks sleeps while the served ticket is the one that was found.
    fn rest_a_while(&self, rt: &impl Wait, found: u64, looks: &mut u32) {
        if *looks < LOOKS {
            *looks += 1;
            thread::yield_now();
        } else {
            self.table.shared.park(rt, SERVING, low_half(found));
        }
    }

    // Wakes those who sleep until the next ticket is served, where a ticket is out.
    fn wake(&self) {
        if self.table.shared.peek(TICKET) != self.table.shared.peek(SERVING) {
            self.table.shared.wake_all(SERVING);
        }
    }

    // Puts the value into the slot, counts its entry if there is one, and serves the next ticket.
    fn hand_on(&self, seat: &mut Place<V>, value: V, added: bool)
        requires own { seat.old.table_id ≡ self.now.id }
        requires turn { let p = phase_of seat.old.me.0 in
            IsInTurn (ticket_of p) (log_of p) seat.old.me.0 × (seat.old.me.1 ≡ (0, None) ∷ []) }
        requires value { HasBase (V.base value) seat.old.me.0 × (length (V.entries value) < 2 ^ 64) }
        requires added { let log = log_of (phase_of seat.old.me.0) in
            MatchBool added
            (Adds V.made_by (number_of seat.old.me.0) log (V.entries value))
            (V.entries value ≡ log) }
        ensures own { (seat.new.table_id ≡ seat.old.table_id) × (seat.new.id ≡ seat.old.id)
            × (seat.new.me.1 ≡ []) }
        ensures left { let p = phase_of seat.old.me.0 in
            HasLeft V.made_by added (ticket_of p) (log_of p) (V.entries value) seat.old.me.0 seat.new.me.0 }
    {
        let hollow = self.table.shared.exchange(seat, SLOT, Some(value));
        let None = hollow else { unreachable!() };
        if added {
            self.table.shared.fetch_add::<Count>(seat, COUNT, 1);
        }
        self.table.shared.fetch_add::<Serve>(seat, SERVING, 1);
    }

    /// Takes the value out. All seats come back, at rest, in any order. The value has the base of the turn and of each seat,
    /// and its list is the log: what each seat has seen is a prefix of it, each seat's own list is just its entries there,
    /// and there are no others. Takes no memory and waits for nobody.
    pub fn close(self, seats: Vec<TurnSeat<V>>) -> V
        requires own { All (λ s. (s.turn ≡ self.id) × IsAtRest s) seats.items }
        requires all { HasEachSeat self.seats seats.items }
        ensures base { (V.base result ≡ self.base) × All (λ s. s.base ≡ Some (V.base result)) seats.items }
        ensures seats { All (λ s. AgreeWith V.made_by (V.entries result) s.number s.seen s.own) seats.items }
        ensures others { All (λ e. V.made_by e < self.seats) (V.entries result) }
    {
        let first = gather(&self.table.shared, seats);
        let Turn { table } = self;
        let mut closed = table.close_with(first);
        let slot = closed.take(SLOT);
        closed.free();
        match slot {
            Some(value) => value,
            None => unreachable!(),
        }
    }
}

// Joins all seats into the first one.
fn gather<V: Logged>(shared: &Board<V>, mut seats: Vec<TurnSeat<V>>) -> Place<V>
    requires table { 0 < shared.now.table_id.words }
    requires own { All (λ s. (s.turn ≡ shared.now.table_id) × IsAtRest s) seats.items }
    requires first { HasSeat seats.items 0 }
    ensures own { (result.table_id ≡ shared.now.table_id) × IsResting result.me.0 }
    ensures all { All (IsIn result.me.0) seats.items }
{
    let TurnSeat {
        number: _,
        seat: first,
    } = take_first(&mut seats);
    join_all(shared, first, seats)
}

// Takes the first seat out of the row.
fn take_first<V: Logged>(seats: &mut Vec<TurnSeat<V>>) -> TurnSeat<V>
    requires { HasSeat seats.old.items 0 }
    ensures number { result.number ≡ 0 }
    ensures found { Contains seats.old.items result }
    ensures others { All (λ s. Contains seats.new.items s ⊎ (s ≡ result)) seats.old.items
        × All (Contains seats.old.items) seats.new.items }
{
    let Some(place) = seats.iter().position(|seat| seat.number == 0) else {
        unreachable!()
    };
    seats.remove(place)
}

// Joins the others into the first seat.
fn join_all<V: Logged>(
    shared: &Board<V>,
    mut first: Place<V>,
    mut others: Vec<TurnSeat<V>>,
) -> Place<V>
    requires table { (first.table_id ≡ shared.now.table_id) × (0 < shared.now.table_id.words) }
    requires first { IsLive 0 first.me.0 × IsResting first.me.0 }
    requires others { All (λ s. (s.turn ≡ shared.now.table_id) × IsAtRest s) others.items }
    ensures own { (result.table_id ≡ first.table_id) × IsResting result.me.0 }
    ensures first { (s : SeatFacts V.Base V.Entry) → IsIn first.me.0 s → IsIn result.me.0 s }
    ensures others { All (IsIn result.me.0) others.items }
{
    while let Some(other) = others.pop() {
        let TurnSeat { number: _, seat } = other;
        shared.join_seat::<JoinSeat>(&mut first, seat);
    }
    first
}
