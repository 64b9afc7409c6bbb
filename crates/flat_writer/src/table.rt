//! The rows of a pin table.
ghost use Rattle.std.specs.Prelude.{◌≡◌, ◌↔◌, ◌≤◌, ◌++◌, Err, None, OnErr, OnOk, false};
ghost use Rattle.netdb_outside.specs.Buffered.{Writes};
ghost use Rattle.netdb_outside.specs.Outside.{Appends, AppendsFront, Rose};
ghost use Rattle.flat_csv_spec.specs.PinTable.{header as names_of_columns, pin_row, pin_rows, pin_table};
ghost use Rattle.flat_items.specs.Texts.{IsItemText};
ghost use Rattle.flat_spec.specs.Types.{Item};
ghost use Rattle.flat_writer.specs.Given.{GivesRow};

use crate::error::{FlatError, outcome};
use crate::shown::PinRow;
use csv_report::header;
use flat_items::ItemText;
use netdb_outside::{BufferedSink, Sink, WriteError};
use netlist_schema::{Shown, design_is_valid};
use occ_walk::{Walk, WalkError};
use std::alloc::Global;

/// Writes the pin table of a design: the names of the columns, and a row for each pin of its flattening. Items are lent one at a time,
/// so memory is wanted as a walk wants it, and for a piece of some kilobytes.
///
/// `NoTop` comes exactly where the design has no top, and then the sink is as it was. After another error a front of that text was
/// written. `WriteFault` comes only where the sink had a fault.
pub fn write_pin_table<S: Shown, K: Sink>(
    alloc: Global,
    design: &S,
    out: &mut K,
) -> Result<(), FlatError>
    ensures no_top { (result ≡ Err FlatError.NoTop) ↔ ((S.design design.now).top ≡ None) }
    ensures untouched { result ≡ Err FlatError.NoTop → out.new ≡ out.old }
    ensures ok { OnOk result (Appends (K.written out.old) (K.written out.new) (pin_table (S.design design.now))) }
    ensures err { OnErr result (AppendsFront (K.written out.old) (K.written out.new) (pin_table (S.design design.now))) }
    ensures fault { result ≡ Err FlatError.WriteFault → Rose (K.faults out.old) (K.faults out.new) }
    ensures never_falls { K.faults out.old ≤ K.faults out.new }
{
    match Walk::new(alloc, design) {
        Ok(mut walk) => outcome(write_left(alloc, &mut walk, out)),
        Err(WalkError::NoTop) => Err(FlatError::NoTop),
        Err(WalkError::NoMemory) => Err(FlatError::NoMemory),
    }
}

/// Writes the names of the columns and the rows of the items that are left to a walk.
fn write_left<W: Shown + Drop, K: Sink>(
    alloc: Global,
    walk: &mut Walk<W>,
    out: &mut K,
) -> Result<(), WriteError>
    ensures ok { OnOk result (Appends (K.written out.old) (K.written out.new) (names_of_columns ++ pin_rows walk.old.design walk.old.left)) }
    ensures err { OnErr result (AppendsFront (K.written out.old) (K.written out.new) (names_of_columns ++ pin_rows walk.old.design walk.old.left)) }
    ensures fault { result ≡ Err WriteError.WriteFault → Rose (K.faults out.old) (K.faults out.new) }
    ensures never_falls { K.faults out.old ≤ K.faults out.new }
{
    let mut page = BufferedSink::new(alloc);
    page.put(header(), out);
    put_left(alloc, walk, &mut page, out);
    page.finish(out)
}

/// Writes the rows of the items that are left to a walk.
fn put_left<W: Shown + Drop, K: Sink>(
    alloc: Global,
    walk: &mut Walk<W>,
    page: &mut BufferedSink,
    out: &mut K,
)
    ensures { Writes K.written K.faults out.old page.old out.new page.new (pin_rows walk.old.design walk.old.left) }
{
    'rows: loop {
        if !put_next(alloc, walk, page, out) {
            return;
        }
    }
}

/// Writes the row of the next item that is left to a walk: whether there was one, and nothing failed before.
#[inline(always)]
fn put_next<W: Shown + Drop, K: Sink>(
    alloc: Global,
    walk: &mut Walk<W>,
    page: &mut BufferedSink,
    out: &mut K,
) -> bool
    ensures same { walk.new.design ≡ walk.old.design }
    ensures gives { GivesRow (Writes K.written K.faults out.old page.old out.new page.new) walk.old.design walk.old.left walk.new.left result }
{
    if page.is_stuck() {
        return false;
    }
    match walk.advance() {
        Ok(true) => put_ahead(alloc, walk, page, out),
        Ok(false) => false,
        Err(_) => {
            page.run_out();
            false
        }
    }
}

/// The same, where the walk has gone on to its next item.
#[inline(always)]
fn put_ahead<W: Shown + Drop, K: Sink>(
    alloc: Global,
    walk: &mut Walk<W>,
    page: &mut BufferedSink,
    out: &mut K,
) -> bool
    requires { walk.old.over ≡ false }
    ensures same { walk.new.design ≡ walk.old.design }
    ensures gives { GivesRow (Writes K.written K.faults out.old page.old out.new page.new) walk.old.design walk.old.left walk.new.left result }
{
    let Some(item) = walk.text() else {
        return false;
    };
    put_item(alloc, walk.design(), item, page, out);
    walk.skip();
    true
}

/// Writes the row of an item.
#[inline(always)]
fn put_item<S: Shown, K: Sink>(
    alloc: Global,
    design: &S,
    item: ItemText<'_>,
    page: &mut BufferedSink,
    out: &mut K,
)
    ensures { (shown : Item) → IsItemText (S.design design.now) shown item.entry → Writes K.written K.faults out.old page.old out.new page.new (pin_row (S.design design.now) shown) }
{
    design_is_valid(design);
    page.put_text(alloc, &PinRow { design, item }, out);
}
