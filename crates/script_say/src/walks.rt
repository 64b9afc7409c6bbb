//! The lines of a walk.
ghost use Rattle.std.specs.Prelude.{◌≡◌, ◌++◌, None, IfOk, OnOk, false};
ghost use Rattle.edif_names.specs.Parts.{Grows};
ghost use Rattle.flat_lines_spec.specs.Lines.{flattening_text, item_lines, last_line, shown_items};
ghost use Rattle.script_say.specs.Items.{IsLeft, SaysNext};

use crate::bytes::push_bytes;
use flat_report::text_line;
use netlist_schema::{NoMemory, Shown};
use occ_walk::Walk;
use std::alloc::Global;

/// Says the items of the flattening of a design, each in a line, at most so many where there is a limit, and behind them `end`, or
/// `more` where items are left. The design comes twice: to be walked, and to tell names.
///
/// Items are lent one at a time, and none is kept: it takes the memory of `Walk::new`, of the text of a path and of the whole text. After
/// `NoMemory` some bytes may stand behind those before.
pub fn say_walk<S: Shown + Drop>(
    alloc: Global,
    walked: S,
    design: &S,
    limit: Option<u64>,
    out: &mut Vec<u8>,
) -> Result<(), NoMemory>
    requires same { S.design walked ≡ S.design design.now }
    requires top { ¬ ((S.design design.now).top ≡ None) }
    ensures ok { OnOk result (out.new.items ≡ out.old.items ++ flattening_text (S.design design.now) limit) }
    ensures grows { Grows out.old.items out.new.items }
{
    let Ok(mut walk) = Walk::new(alloc, walked) else {
        return Err(NoMemory);
    };
    match limit {
        Some(limit) => say_most(alloc, &mut walk, design, limit, out),
        None => say_all(alloc, &mut walk, design, out),
    }
}

/// Says the next item, where the walk has gone on to it: whether there was one.
fn say_ahead<W: Shown + Drop, S: Shown>(
    alloc: Global,
    walk: &mut Walk<W>,
    design: &S,
    out: &mut Vec<u8>,
) -> Result<bool, NoMemory>
    requires same { walk.old.design ≡ S.design design.now }
    requires more { walk.old.over ≡ false }
    ensures same { walk.new.design ≡ walk.old.design }
    ensures next { IfOk result (SaysNext (S.design design.now) walk.old.left walk.new.left out.old.items out.new.items) }
    ensures grows { Grows out.old.items out.new.items }
{
    let Some(item) = walk.text() else {
        return Ok(false);
    };
    text_line(alloc, design, item, out)?;
    walk.skip();
    Ok(true)
}

/// Says the next item, where one is left: whether there was one.
fn say_next<W: Shown + Drop, S: Shown>(
    alloc: Global,
    walk: &mut Walk<W>,
    design: &S,
    out: &mut Vec<u8>,
) -> Result<bool, NoMemory>
    requires { walk.old.design ≡ S.design design.now }
    ensures same { walk.new.design ≡ walk.old.design }
    ensures next { IfOk result (SaysNext (S.design design.now) walk.old.left walk.new.left out.old.items out.new.items) }
    ensures grows { Grows out.old.items out.new.items }
{
    if !walk.advance()? {
        return Ok(false);
    }
    say_ahead(alloc, walk, design, out)
}

/// Whether an item is left.
fn is_left<S: Shown + Drop>(walk: &mut Walk<S>) -> Result<bool, NoMemory>
    ensures { IfOk result (IsLeft walk.old.left) }
{
    match walk.next()? {
        Some(_) => Ok(true),
        None => Ok(false),
    }
}

/// Says all items that are left, and `end`.
fn say_all<W: Shown + Drop, S: Shown>(
    alloc: Global,
    walk: &mut Walk<W>,
    design: &S,
    out: &mut Vec<u8>,
) -> Result<(), NoMemory>
    requires { walk.old.design ≡ S.design design.now }
    ensures ok { OnOk result (out.new.items ≡ out.old.items ++ (item_lines (S.design design.now) walk.old.left ++ last_line None walk.old.left)) }
    ensures grows { Grows out.old.items out.new.items }
{
    'items: loop {
        if !say_next(alloc, walk, design, out)? {
            return push_bytes(b"end\n", out);
        }
    }
}

/// Says at most so many of the items that are left, and `end`, or `more` where items are left then.
fn say_most<W: Shown + Drop, S: Shown>(
    alloc: Global,
    walk: &mut Walk<W>,
    design: &S,
    limit: u64,
    out: &mut Vec<u8>,
) -> Result<(), NoMemory>
    requires { walk.old.design ≡ S.design design.now }
    ensures ok { OnOk result (out.new.items
        ≡ out.old.items ++ (item_lines (S.design design.now) (shown_items (Some limit) walk.old.left) ++ last_line (Some limit) walk.old.left)) }
    ensures grows { Grows out.old.items out.new.items }
{
    for _told in 0..limit {
        if !say_next(alloc, walk, design, out)? {
            return push_bytes(b"end\n", out);
        }
    }
    if is_left(walk)? {
        return push_bytes(b"more\n", out);
    }
    push_bytes(b"end\n", out)
}
