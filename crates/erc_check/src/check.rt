//! The electrical check.
ghost use Rattle.std.specs.Prelude.{◌≡◌, ◌↔◌, Err, IfOk, None, OnOk, false};
ghost use Rattle.erc_spec.specs.Findings.{findings, findings_in};
ghost use Rattle.erc_check.specs.Front.{IsFront};
ghost use Rattle.erc_check.specs.Tally.{AddsAll, AddsFirst, AddsNext};

use crate::tally::Tally;
use erc_spec::Finding;
use netlist_schema::{NoMemory, Row, Shown};
use occ_walk::{Walk, WalkError};
use std::alloc::Global;

/// What an electrical check finds in a design: first, for each net that is the first of those connected with it, in order, whether no pin
/// drives it, or several do strongly; then, in order, each input of a leaf below the top that no net joins. An input of the top drives
/// strongly, and so does an output of a leaf below it; a pin that leads both ways or has no direction drives, but not strongly.
///
/// `WalkError` is the one error of all calls that walk a whole design: `NoTop` comes exactly where the design has no top, and the other is
/// want of memory.
///
/// It makes one walk. Beside it, for each pin that drives a net it looks for that net among those that are their own first, in as many
/// steps as the logarithm of their number. It takes memory as a walk does, for each net that is its own first, and for what is found.
pub fn erc_check<S: Shown>(alloc: Global, design: &S) -> Result<Row<Finding>, WalkError>
    ensures found { IfOk result (λ found. found ≡ findings (S.design design.now)) }
    ensures no_top { (result ≡ Err WalkError.NoTop) ↔ ((S.design design.now).top ≡ None) }
{
    let Some(_) = design.top() else {
        return Err(WalkError::NoTop);
    };
    match Walk::new(alloc, design) {
        Ok(mut walk) => match check_left(alloc, design, &mut walk) {
            Ok(found) => Ok(found),
            Err(_) => Err(WalkError::NoMemory),
        },
        Err(WalkError::NoTop) => Err(WalkError::NoTop),
        Err(WalkError::NoMemory) => Err(WalkError::NoMemory),
    }
}

/// What is found by the items that are left to a walk.
fn check_left<S: Shown, W: Shown + Drop>(
    alloc: Global,
    design: &S,
    walk: &mut Walk<W>,
) -> Result<Row<Finding>, NoMemory>
    ensures { IfOk result (λ found. IsFront (S.design design.now) walk.old.left → found ≡ findings_in (S.design design.now) walk.old.left) }
{
    let mut tally = Tally::new(alloc);
    add_left(alloc, design, walk, &mut tally)?;
    tally.found(alloc)
}

/// Adds the items that are left to a walk.
fn add_left<S: Shown, W: Shown + Drop>(
    alloc: Global,
    design: &S,
    walk: &mut Walk<W>,
    tally: &mut Tally,
) -> Result<(), NoMemory>
    ensures { OnOk result (AddsAll (S.design design.now) walk.old.left tally.old tally.new) }
{
    'items: while add_next(alloc, design, walk, tally)? {}
    Ok(())
}

/// Adds the next item that is left to a walk: whether there was one.
fn add_next<S: Shown, W: Shown + Drop>(
    alloc: Global,
    design: &S,
    walk: &mut Walk<W>,
    tally: &mut Tally,
) -> Result<bool, NoMemory>
    ensures { IfOk result (AddsNext (S.design design.now) walk.old.left walk.new.left tally.old tally.new) }
{
    if !walk.advance()? {
        return Ok(false);
    }
    add_ahead(alloc, design, walk, tally)?;
    Ok(true)
}

/// Adds the next item, where the walk has gone on to it.
fn add_ahead<S: Shown, W: Shown + Drop>(
    alloc: Global,
    design: &S,
    walk: &mut Walk<W>,
    tally: &mut Tally,
) -> Result<(), NoMemory>
    requires { walk.old.over ≡ false }
    ensures { OnOk result (AddsFirst (S.design design.now) walk.old.left walk.new.left tally.old tally.new) }
{
    let Some(item) = walk.current() else {
        return Ok(());
    };
    tally.add(alloc, design, item)?;
    walk.skip();
    Ok(())
}
