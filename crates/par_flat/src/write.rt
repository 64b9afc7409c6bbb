//! `write_par_flat`: the lines of a flattening.
ghost use Rattle.std.specs.Prelude.{◌≡◌, ◌↔◌, ◌<◌, ◌≤◌, ◌+◌, ◌*◌, ◌^◌, ◌++◌, ◌∷◌, [], Err, IfErr, IfOk, None, OnErr, OnOk, codes, drop, length, take};
ghost use Rattle.std.specs.Option.{ForSome};
ghost use Rattle.std.specs.Thread.{IsSync};
ghost use Rattle.netdb_outside.specs.Outside.{Appends, AppendsFront, Rose};
ghost use Rattle.netlist_schema.specs.Design.{Design};
ghost use Rattle.flat_spec.specs.Flattening.{flattening};
ghost use Rattle.flat_lines_spec.specs.Lines.{flattening_text, item_lines};
ghost use Rattle.par_flat.specs.Desks.{AreDesks, AreMade, IsCrew, IsMade, IsReady, IsSeat, text_of, waiting_text};
ghost use Rattle.par_flat.specs.Lines.{IsRound};
ghost use Rattle.par_flat.specs.declared.limits.TheConstants.{MOST_WORKERS};

use crate::crew::{Crew, crew_of, ready_of, take_lines};
use crate::desks::{Desk, Lines};
use crate::lines::make_lines;
use crate::rounds::{FIRST_AT_ONCE, MOST_BYTES, Round, are_few, next_at_once, share_of};
use flat_writer::{FlatError, outcome, write_flat};
use netdb_outside::{Gate, Put, Sink, WriteError};
use netlist_schema::Shown;
use occ_walk::WalkError;
use par_parts::CountedGround;
use std::alloc::Global;
use std::thread::{self, Threads, join_mut};

/// The number of items from which on one walk writes them.
const MOST_ITEMS: u64 = 9_223_372_036_854_775_808;

/// The lines of one worker.
fn work<S: Shown + Drop, G: Gate>(
    ground: &CountedGround<S>,
    round: Round,
    gate: &G,
    desk: &mut Desk,
)
    requires one { desk.old.worker < round.workers }
    requires seat { ForSome desk.old.seat (IsSeat ground.now) }
    requires few { round.first + round.workers * round.most.items < 2 ^ 64 }
    ensures worker { desk.new.worker ≡ desk.old.worker }
    ensures seat { ForSome desk.new.seat (IsSeat ground.now) }
    ensures made { IsMade ground.now (drop (round.first + desk.old.worker * round.most.items) (flattening ground.now)) round.most desk.new.lines }
{
    let worker = desk.worker;
    let first = round.first + u64::from(worker) * round.most.items;
    gate.reached(worker, 1);
    let made = make_lines(ground, desk, first, round.most);
    gate.reached(worker, 2);
    desk.lines.made = made;
}

/// Has each worker make its lines: in a thread of its own, or where that is not wanted or one can't be started, here. All have ended when
/// it returns.
fn work_each<R: Threads + Sync, S: Shown + Drop + Sync, G: Gate + Sync>(
    rt: &R,
    ground: &CountedGround<S>,
    round: Round,
    gate: &G,
    desks: &mut [Desk],
)
    requires len { length desks.old ≡ round.workers }
    requires desks { AreDesks ground.now desks.old }
    requires few { round.first + round.workers * round.most.items < 2 ^ 64 }
    ensures desks { AreDesks ground.now desks.new }
    ensures made { AreMade ground.now (drop round.first (flattening ground.now)) round.most desks.new }
{
    let threads = if round.threads { desks.len().max(1) } else { 1 };
    thread::for_each_mut(
        rt,
        desks,
        threads,
        &|_place: usize, desk: &mut Desk|
            requires { IsReady ground.now round desk.old }
            ensures worker { desk.new.worker ≡ desk.old.worker }
            ensures seat { ForSome desk.new.seat (IsSeat ground.entry.now) }
            ensures made { IsMade ground.entry.now
                (drop (round.first + desk.old.worker * round.most.items) (flattening ground.entry.now)) round.most desk.new.lines }
        { work(ground, round, gate, desk) },
    );
}

/// Puts a piece.
fn put<K: Sink>(bytes: &[u8], out: &mut K) -> Result<(), WriteError>
    ensures ok { OnOk result (Appends (K.written out.old) (K.written out.new) (bytes.now)) }
    ensures err { OnErr result (AppendsFront (K.written out.old) (K.written out.new) (bytes.now)) }
    ensures fault { result ≡ Err WriteError.WriteFault → Rose (K.faults out.old) (K.faults out.new) }
    ensures never_falls { K.faults out.old ≤ K.faults out.new }
{
    match out.put(bytes) {
        Put::Put => Ok(()),
        Put::Failed => Err(WriteError::WriteFault),
        Put::NoMemory => Err(WriteError::NoMemory),
    }
}

/// Puts the lines of workers, one behind the other.
fn put_lines<K: Sink>(ready: &[Lines], out: &mut K) -> Result<(), WriteError>
    ensures ok { OnOk result (Appends (K.written out.old) (K.written out.new) (text_of ready.now)) }
    ensures err { OnErr result (AppendsFront (K.written out.old) (K.written out.new) (text_of ready.now)) }
    ensures fault { result ≡ Err WriteError.WriteFault → Rose (K.faults out.old) (K.faults out.new) }
    ensures never_falls { K.faults out.old ≤ K.faults out.new }
{
    for lines in ready {
        put(lines.text.as_slice(), out)?;
    }
    Ok(())
}

/// Has the lines of one round made.
fn make_round<R: Threads + Sync, S: Shown + Drop + Sync, G: Gate + Sync>(
    rt: &R,
    ground: &CountedGround<S>,
    round: Round,
    gate: &G,
    desks: &mut Vec<Desk>,
)
    requires len { length desks.old.items ≡ round.workers }
    requires desks { AreDesks ground.now desks.old.items }
    requires few { round.first + round.workers * round.most.items < 2 ^ 64 }
    ensures len { length desks.new.items ≡ round.workers }
    ensures desks { AreDesks ground.now desks.new.items }
    ensures made { AreMade ground.now (drop round.first (flattening ground.now)) round.most desks.new.items }
{
    work_each(rt, ground, round, gate, desks.as_mut_slice());
}

/// Has the lines of one round made, and those that wait put: at the same time, where threads are wanted, else one behind the other.
fn make_and_put<R: Threads + Sync, S: Shown + Drop + Sync, G: Gate + Sync, K: Sink>(
    rt: &R,
    ground: &CountedGround<S>,
    round: Round,
    gate: &G,
    crew: &mut Crew,
    out: &mut K,
) -> Result<(), WriteError>
    requires crew { IsCrew ground.now round.workers crew.old }
    requires few { round.first + round.workers * round.most.items < 2 ^ 64 }
    ensures crew { IsCrew ground.now round.workers crew.new }
    ensures made { AreMade ground.now (drop round.first (flattening ground.now)) round.most crew.new.desks.items }
    ensures ok { OnOk result (Appends (K.written out.old) (K.written out.new) (waiting_text crew.old)) }
    ensures err { OnErr result (AppendsFront (K.written out.old) (K.written out.new) (waiting_text crew.old)) }
    ensures fault { result ≡ Err WriteError.WriteFault → Rose (K.faults out.old) (K.faults out.new) }
    ensures never_falls { K.faults out.old ≤ K.faults out.new }
{
    let ready = ready_of(crew.waiting.as_slice(), crew.ready);
    let desks = &mut crew.desks;
    let mut make = ||
        requires { IsSync R.row × IsSync S.row × IsSync G.row × (length desks.now.items ≡ round.workers) × AreDesks ground.now desks.now.items
            × (round.first + round.workers * round.most.items < 2 ^ 64) }
        ensures len { length desks.exit.now.items ≡ round.workers }
        ensures desks { AreDesks ground.entry.now desks.exit.now.items }
        ensures made { AreMade ground.entry.now (drop round.first (flattening ground.entry.now)) round.most desks.exit.now.items }
    { make_round(rt, ground, round, gate, desks) };
    let mut put = || -> Result<(), WriteError>
        ensures ok { OnOk result (Appends (K.written out.entry.now) (K.written out.exit.now) (text_of ready.entry.now)) }
        ensures err { OnErr result (AppendsFront (K.written out.entry.now) (K.written out.exit.now) (text_of ready.entry.now)) }
        ensures fault { result ≡ Err WriteError.WriteFault → Rose (K.faults out.entry.now) (K.faults out.exit.now) }
        ensures never_falls { K.faults out.entry.now ≤ K.faults out.exit.now }
    { put_lines(ready, out) };
    if round.threads {
        let ((), put) = join_mut(rt, &mut make, &mut put);
        return put;
    }
    make();
    put()
}

/// One round: its lines are made, and those that wait are put; behind that the lines of the round wait: how many items those are.
fn next_round<R: Threads + Sync, S: Shown + Drop + Sync, G: Gate + Sync, K: Sink>(
    rt: &R,
    ground: &CountedGround<S>,
    round: Round,
    gate: &G,
    crew: &mut Crew,
    out: &mut K,
) -> Result<u64, WriteError>
    requires crew { IsCrew ground.now round.workers crew.old }
    requires few { round.first + round.workers * round.most.items < 2 ^ 64 }
    ensures crew { OnOk result (IsCrew ground.now round.workers crew.new) }
    ensures round { IfOk result (IsRound ground.now (drop round.first (flattening ground.now)) round.most round.workers) }
    ensures text { IfOk result (λ made. waiting_text crew.new ≡ item_lines ground.now (take made (drop round.first (flattening ground.now)))) }
    ensures ok { OnOk result (Appends (K.written out.old) (K.written out.new) (waiting_text crew.old)) }
    ensures err { OnErr result (AppendsFront (K.written out.old) (K.written out.new) (waiting_text crew.old)) }
    ensures fault { result ≡ Err WriteError.WriteFault → Rose (K.faults out.old) (K.faults out.new) }
    ensures never_falls { K.faults out.old ≤ K.faults out.new }
{
    make_and_put(rt, ground, round, gate, crew, out)?;
    match take_lines(crew, round.most) {
        Ok(made) => Ok(made),
        Err(_) => Err(WriteError::NoMemory),
    }
}

/// So many workers, who have not begun.
fn new_crew(alloc: Global, workers: u32) -> Result<Crew, WriteError>
    ensures crew { (d : Design) → IfOk result (IsCrew d workers) }
    ensures none { IfOk result (λ crew. crew.ready ≡ 0) }
    ensures err { IfErr result (λ error. error ≡ WriteError.NoMemory) }
{
    match crew_of(alloc, workers) {
        Ok(crew) => Ok(crew),
        Err(_) => Err(WriteError::NoMemory),
    }
}

/// Whether the text of a round is longer than half of what it may be.
fn is_long(ready: &[Lines]) -> bool {
    let mut bytes = 0usize;
    for lines in ready {
        bytes = bytes.saturating_add(lines.text.len());
    }
    bytes > MOST_BYTES / 2
}

/// Puts the lines of all items, which are that many.
fn put_items<R: Threads + Sync, S: Shown + Drop + Sync, G: Gate + Sync, K: Sink>(
    rt: &R,
    ground: &CountedGround<S>,
    workers: u32,
    count: u64,
    gate: &G,
    out: &mut K,
) -> Result<(), WriteError>
    requires many { (1 ≤ workers) × (workers ≤ MOST_WORKERS) }
    requires count { count ≡ length (flattening ground.now) }
    requires few { count < MOST_ITEMS }
    ensures ok { OnOk result (Appends (K.written out.old) (K.written out.new) (item_lines ground.now (flattening ground.now))) }
    ensures err { OnErr result (AppendsFront (K.written out.old) (K.written out.new) (item_lines ground.now (flattening ground.now))) }
    ensures fault { result ≡ Err WriteError.WriteFault → Rose (K.faults out.old) (K.faults out.new) }
    ensures never_falls { K.faults out.old ≤ K.faults out.new }
{
    let threads = gate.may_hold() || !are_few(workers, count);
    let mut first = 0;
    let mut at_once = FIRST_AT_ONCE;
    let mut crew = new_crew(ground.alloc(), workers)?;
    'rounds: while first < count {
        let wanted = at_once.min(count - first);
        let round = Round {
            workers,
            threads,
            first,
            most: share_of(workers, wanted),
        };
        let made = next_round(rt, ground, round, gate, &mut crew, out)?;
        let long = is_long(ready_of(crew.waiting.as_slice(), crew.ready));
        at_once = next_at_once(at_once, made >= wanted, long);
        first += made;
    }
    put_lines(ready_of(crew.waiting.as_slice(), crew.ready), out)
}

/// Puts the lines of all items, which are that many, and `end`.
fn put_all<R: Threads + Sync, S: Shown + Drop + Sync, G: Gate + Sync, K: Sink>(
    rt: &R,
    ground: &CountedGround<S>,
    workers: u32,
    count: u64,
    gate: &G,
    out: &mut K,
) -> Result<(), WriteError>
    requires many { (1 ≤ workers) × (workers ≤ MOST_WORKERS) }
    requires count { count ≡ length (flattening ground.now) }
    requires few { count < MOST_ITEMS }
    ensures ok { OnOk result (Appends (K.written out.old) (K.written out.new) (item_lines ground.now (flattening ground.now) ++ (codes "end" ++ 10 ∷ []))) }
    ensures err { OnErr result (AppendsFront (K.written out.old) (K.written out.new) (item_lines ground.now (flattening ground.now) ++ (codes "end" ++ 10 ∷ []))) }
    ensures fault { result ≡ Err WriteError.WriteFault → Rose (K.faults out.old) (K.faults out.new) }
    ensures never_falls { K.faults out.old ≤ K.faults out.new }
{
    put_items(rt, ground, workers, count, gate, out)?;
    put(b"end\n", out)
}

/// Writes the lines of a design, of which this is the counted ground.
fn write_counted<R: Threads + Sync, S: Shown, W: Shown + Drop + Sync, G: Gate + Sync, K: Sink>(
    rt: &R,
    ground: &CountedGround<W>,
    design: &S,
    workers: u32,
    gate: &G,
    out: &mut K,
) -> Result<(), FlatError>
    requires same { ground.now ≡ S.design design.now }
    requires many { (1 ≤ workers) × (workers ≤ MOST_WORKERS) }
    ensures has_top { result ≡ Err FlatError.NoTop → ⊥ }
    ensures ok { OnOk result (Appends (K.written out.old) (K.written out.new) (flattening_text (S.design design.now) None)) }
    ensures err { OnErr result (AppendsFront (K.written out.old) (K.written out.new) (flattening_text (S.design design.now) None)) }
    ensures fault { result ≡ Err FlatError.WriteFault → Rose (K.faults out.old) (K.faults out.new) }
    ensures never_falls { K.faults out.old ≤ K.faults out.new }
{
    let count = ground.item_count();
    if count < MOST_ITEMS {
        return outcome(put_all(rt, ground, workers, count, gate, out));
    }
    write_flat(ground.alloc(), design, None, out)
}

/// Writes the lines of a design's flattening, and behind them `end`, as `write_flat` does without a limit, where 1 to 64 workers make them
/// beside each other, each in a thread, or where one can't be started, here. Where the gate holds nobody and there are no more than 1,024
/// items a worker, no thread is started, and they make their lines one behind the other. They work in rounds, in each of which all have the
/// same share, but that at the end there may be fewer items. A round makes the lines of no more than 1,048,576 items (and of fewer more
/// than there are workers, where their number does not divide that), and no more than 16 MiB of text and a line of each worker: a worker
/// with so much text stops, and the next round begins behind the first that did. The first round has 131,072 items; the next one has twice
/// as many where the text was no longer than 8 MiB, and half as many where a worker stopped. The lines of one round are put here while
/// those of the next are made in threads, so the texts of two rounds stand in memory, which take no more than twice their length. A worker
/// goes on from where it stood in the round before, so what it passes over it passes over once, unless another one stopped.
///
/// In each round each worker, also one with no item, calls the gate with its number and 1 before its first line, and with 2 behind its
/// last one.
///
/// `NoTop` comes exactly where the design has no top, and then the sink is as it was. After another error a front of that text was
/// written. `WriteFault` comes only where the sink had a fault.
pub fn write_par_flat<R: Threads + Sync, S: Shown + Sync, G: Gate + Sync, K: Sink>(
    rt: &R,
    alloc: Global,
    design: &S,
    workers: u32,
    gate: &G,
    out: &mut K,
) -> Result<(), FlatError>
    requires { (1 ≤ workers) × (workers ≤ MOST_WORKERS) }
    ensures no_top { (result ≡ Err FlatError.NoTop) ↔ ((S.design design.now).top ≡ None) }
    ensures untouched { result ≡ Err FlatError.NoTop → out.new ≡ out.old }
    ensures ok { OnOk result (Appends (K.written out.old) (K.written out.new) (flattening_text (S.design design.now) None)) }
    ensures err { OnErr result (AppendsFront (K.written out.old) (K.written out.new) (flattening_text (S.design design.now) None)) }
    ensures fault { result ≡ Err FlatError.WriteFault → Rose (K.faults out.old) (K.faults out.new) }
    ensures never_falls { K.faults out.old ≤ K.faults out.new }
{
    match CountedGround::by_workers(rt, alloc, design, workers) {
        Ok(ground) => write_counted(rt, &ground, design, workers, gate, out),
        Err(WalkError::NoTop) => Err(FlatError::NoTop),
        Err(WalkError::NoMemory) => Err(FlatError::NoMemory),
    }
}
