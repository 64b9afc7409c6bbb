//! The lines of a flattening.
ghost use Rattle.std.specs.Prelude.{◌≡◌, ◌↔◌, ◌≤◌, ◌-◌, Err, IsTrue, None, OnErr, OnOk, Some, false, option_map};
ghost use Rattle.netdb_outside.specs.Buffered.{Writes};
ghost use Rattle.netdb_outside.specs.Outside.{Appends, AppendsFront, Rose};
ghost use Rattle.flat_lines_spec.specs.Lines.{flattening_text};
ghost use Rattle.flat_items.specs.Texts.{IsItemText};
ghost use Rattle.flat_spec.specs.Types.{Item};
ghost use Rattle.flat_writer.specs.Given.{GivesItem, GivesLine, text_of_items};

use crate::error::{FlatError, outcome};
use crate::shown::Line;
use flat_items::ItemText;
use netdb_outside::{BufferedSink, Sink, WriteError};
use netlist_schema::Shown;
use occ_walk::{Walk, WalkError};
use std::alloc::Global;

/// Writes the lines of a design's flattening, of at most so many items where there is a limit, and behind them `end`, or `more` where
/// items are left. Items are lent one at a time, so memory is wanted as a walk wants it, and for a piece of some kilobytes; with a limit
/// of N the walk goes on to no more than N + 1 items.
///
/// `NoTop` comes exactly where the design has no top, and then the sink is as it was. After another error a front of that text was
/// written. `WriteFault` comes only where the sink had a fault.
pub fn write_flat<S: Shown, K: Sink>(
    alloc: Global,
    design: &S,
    limit: Option<u64>,
    out: &mut K,
) -> Result<(), FlatError>
    ensures no_top { (result ≡ Err FlatError.NoTop) ↔ ((S.design design.now).top ≡ None) }
    ensures untouched { result ≡ Err FlatError.NoTop → out.new ≡ out.old }
    ensures ok { OnOk result (Appends (K.written out.old) (K.written out.new) (flattening_text (S.design design.now) limit)) }
    ensures err { OnErr result (AppendsFront (K.written out.old) (K.written out.new) (flattening_text (S.design design.now) limit)) }
    ensures fault { result ≡ Err FlatError.WriteFault → Rose (K.faults out.old) (K.faults out.new) }
    ensures never_falls { K.faults out.old ≤ K.faults out.new }
{
    match Walk::new(alloc, design) {
        Ok(mut walk) => outcome(write_left(alloc, &mut walk, limit, out)),
        Err(WalkError::NoTop) => Err(FlatError::NoTop),
        Err(WalkError::NoMemory) => Err(FlatError::NoMemory),
    }
}

/// Writes the lines of the items that are left to a walk.
fn write_left<W: Shown + Drop, K: Sink>(
    alloc: Global,
    walk: &mut Walk<W>,
    limit: Option<u64>,
    out: &mut K,
) -> Result<(), WriteError>
    ensures ok { OnOk result (Appends (K.written out.old) (K.written out.new) (text_of_items walk.old.design limit walk.old.left)) }
    ensures err { OnErr result (AppendsFront (K.written out.old) (K.written out.new) (text_of_items walk.old.design limit walk.old.left)) }
    ensures fault { result ≡ Err WriteError.WriteFault → Rose (K.faults out.old) (K.faults out.new) }
    ensures never_falls { K.faults out.old ≤ K.faults out.new }
{
    let mut page = BufferedSink::new(alloc);
    put_left(alloc, walk, limit, &mut page, out);
    page.finish(out)
}

/// The same by way of a buffer.
fn put_left<W: Shown + Drop, K: Sink>(
    alloc: Global,
    walk: &mut Walk<W>,
    limit: Option<u64>,
    page: &mut BufferedSink,
    out: &mut K,
)
    ensures { Writes K.written K.faults out.old page.old out.new page.new (text_of_items walk.old.design limit walk.old.left) }
{
    let mut room = limit;
    'lines: loop {
        if !put_next(alloc, walk, room, page, out) {
            return;
        }
        room = one_less(room);
    }
}

/// The room behind an item.
#[inline(always)]
fn one_less(room: Option<u64>) -> Option<u64>
    ensures { result ≡ option_map (λ n. n - 1) room }
{
    room.map(|n| n.saturating_sub(1))
}

/// Whether there is no room for an item.
#[inline(always)]
fn is_full(room: Option<u64>) -> bool
    ensures { IsTrue result ↔ (room ≡ Some 0) }
{
    match room {
        Some(left) => left == 0,
        None => false,
    }
}

/// Writes the next line of what is left to a walk, with room for so many items where there is a limit: whether lines are left.
#[inline(always)]
fn put_next<W: Shown + Drop, K: Sink>(
    alloc: Global,
    walk: &mut Walk<W>,
    room: Option<u64>,
    page: &mut BufferedSink,
    out: &mut K,
) -> bool
    ensures same { walk.new.design ≡ walk.old.design }
    ensures gives { GivesLine (Writes K.written K.faults out.old page.old out.new page.new) walk.old.design room walk.old.left walk.new.left result }
{
    if page.is_stuck() {
        return false;
    }
    match walk.advance() {
        Ok(true) => put_ahead(alloc, walk, room, page, out),
        Ok(false) => {
            page.put(b"end\n", out);
            false
        }
        Err(_) => {
            page.run_out();
            false
        }
    }
}

/// The same, where the walk has gone on to its next item.
#[inline(always)]
fn put_ahead<W: Shown + Drop, K: Sink>(
    alloc: Global,
    walk: &mut Walk<W>,
    room: Option<u64>,
    page: &mut BufferedSink,
    out: &mut K,
) -> bool
    requires { walk.old.over ≡ false }
    ensures same { walk.new.design ≡ walk.old.design }
    ensures gives { GivesLine (Writes K.written K.faults out.old page.old out.new page.new) walk.old.design room walk.old.left walk.new.left result }
{
    let Some(item) = walk.text() else {
        return false;
    };
    let has_room = put_item(alloc, walk.design(), item, room, page, out);
    walk.skip();
    has_room
}

/// Writes the line of an item, or where there is no room for it the line that tells that items are left: whether there was room.
#[inline(always)]
fn put_item<S: Shown, K: Sink>(
    alloc: Global,
    design: &S,
    item: ItemText<'_>,
    room: Option<u64>,
    page: &mut BufferedSink,
    out: &mut K,
) -> bool
    ensures { (shown : Item) → IsItemText (S.design design.now) shown item.entry → GivesItem (Writes K.written K.faults out.old page.old out.new page.new) (S.design design.now) room shown result }
{
    if is_full(room) {
        page.put(b"more\n", out);
        return false;
    }
    page.put_text(alloc, &Line { design, item }, out);
    true
}
