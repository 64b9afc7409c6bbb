//! `classes_by_workers`: what is told of all cells at and below a top.
ghost use Rattle.std.specs.Prelude.{◌≡◌, ◌<◌, [], ℕ, List, Contains, IfOk, OnOk, slice_index_or, vec_len};
ghost use Rattle.std.specs.List.{All};
ghost use Rattle.netlist_schema.specs.Hierarchy.{IsCell};
ghost use Rattle.netlist_schema.specs.Types.{CellId as Id};
ghost use Rattle.netlist_schema.specs.Valid.{IsValid};
ghost use Rattle.netlist_order_spec.specs.After.{AllAfter};
ghost use Rattle.flat_cells.specs.Below.{AreCellsBelow, ComesBehind};
ghost use Rattle.net_classes.specs.PortClasses.{AreClasses};
ghost use Rattle.par_classes.specs.Telling.{IsTelling, IsTold};

use crate::ready::tell_some;
use crate::rest::{tell_leaves, tell_rest};
use crate::told::{Telling, ToldCell, take_parts};
use flat_cells::CellMarks;
use net_classes::Classes;
use netlist_schema::{CellId, NoMemory, Shown};
use std::alloc::Global;
use std::sync::atomic::AtomicU64;
use std::thread::{self, Threads};

/// How often workers go over the cells of which is not told yet.
const MOST_PASSES: u32 = 64;

/// For fewer cells no thread is started, and where fewer were told in a pass, there is no other.
const FEW_CELLS: usize = 8;

/// Where fewer cells than one in so many were told in a pass, there is no other.
const LEAST_SHARE: usize = 16;

/// Those of the cells that are not marked.
fn unmarked(alloc: Global, below: &[CellId], marks: &CellMarks) -> Result<Vec<CellId>, NoMemory>
    ensures { IfOk result (λ found. All (Contains below.now) found.items) }
{
    let mut found = Vec::new(alloc);
    for cell in below {
        if !marks.has(*cell) {
            found.push(*cell)?;
        }
    }
    Ok(found)
}

/// What is to be told of those of these cells whose instances are all of marked cells, by so many workers: in a thread each, or where one
/// can't be started, here.
fn tell_each<R: Threads + Sync, S: Shown + Sync>(
    rt: &R,
    alloc: Global,
    design: &S,
    telling: &Telling,
    pending: &[CellId],
    workers: u32,
) -> Result<Vec<Result<Vec<ToldCell>, NoMemory>>, NoMemory>
    requires valid { IsValid (S.design design.now) }
    requires there { All (IsCell (S.design design.now)) pending.now }
    ensures len { IfOk result (λ parts. vec_len parts ≡ workers) }
    ensures each { IfOk result (λ parts. (w : ℕ) (d : _) (below : List Id) → w < workers
        → IsTelling (S.design design.now) below telling.now.marks telling.now.classes → All (Contains below) pending.now
        → IfOk (slice_index_or parts.items w d) (λ told. All (IsTold (S.design design.now) below) told.items)) }
{
    let taken = AtomicU64::new(0);
    let parts = thread::map_indices(
        rt,
        alloc,
        workers as usize,
        &|_worker: usize| -> Result<Vec<ToldCell>, NoMemory>
            requires { IsValid (S.design design.now) × All (IsCell (S.design design.now)) pending.now }
            ensures { (below : List Id) → IsTelling (S.design design.entry.now) below telling.entry.now.marks telling.entry.now.classes
                → All (Contains below) pending.entry.now → IfOk result (λ told. All (IsTold (S.design design.entry.now) below) told.items) }
        { tell_some(alloc, design, telling, pending, &taken) },
    )?;
    Ok(parts)
}

/// Has workers tell of those of these cells whose instances are all of marked cells: whether that was of so many that it may be done again.
fn tell_pass<R: Threads + Sync, S: Shown + Sync>(
    rt: &R,
    alloc: Global,
    design: &S,
    below: &[CellId],
    telling: &mut Telling,
    workers: u32,
) -> Result<bool, NoMemory>
    requires valid { IsValid (S.design design.now) }
    requires there { All (IsCell (S.design design.now)) below.now }
    requires telling { IsTelling (S.design design.now) below.now telling.old.marks telling.old.classes }
    ensures { OnOk result (IsTelling (S.design design.now) below.now telling.new.marks telling.new.classes) }
{
    let pending = unmarked(alloc, below, &telling.marks)?;
    if pending.len() < FEW_CELLS {
        return Ok(false);
    }
    let parts = tell_each(rt, alloc, design, telling, pending.as_slice(), workers)?;
    let told = take_parts(telling, parts)?;
    Ok(told >= FEW_CELLS && told >= pending.len() / LEAST_SHARE)
}

/// The same, as often as it pays.
fn tell_passes<R: Threads + Sync, S: Shown + Sync>(
    rt: &R,
    alloc: Global,
    design: &S,
    below: &[CellId],
    telling: &mut Telling,
    workers: u32,
) -> Result<(), NoMemory>
    requires valid { IsValid (S.design design.now) }
    requires there { All (IsCell (S.design design.now)) below.now }
    requires telling { IsTelling (S.design design.now) below.now telling.old.marks telling.old.classes }
    ensures { OnOk result (IsTelling (S.design design.now) below.now telling.new.marks telling.new.classes) }
{
    for _ in 0..MOST_PASSES {
        if !tell_pass(rt, alloc, design, below, telling, workers)? {
            return Ok(());
        }
    }
    Ok(())
}

/// The classes of the cells at and below a top, where these are the cells, each behind the cells of its instances. So many workers tell of
/// those cells whose instances are all of cells that are told, and this again, up to 64 times, as long as those were eight cells or more and
/// one in sixteen of those that were left, and eight are left; then this thread tells of the rest, one after another. A thread that cannot be
/// started is no fault: its worker's work is then done by another's thread. The one error is that an allocation was refused.
///
/// It takes memory as `Classes::of` does, and no more time but for a look at the instances of each cell in each pass and the starts of
/// threads.
pub fn classes_by_workers<R: Threads + Sync, S: Shown + Sync>(
    rt: &R,
    alloc: Global,
    design: &S,
    below: &[CellId],
    workers: u32,
) -> Result<Classes, NoMemory>
    requires valid { IsValid (S.design design.now) }
    requires there { All (IsCell (S.design design.now)) below.now }
    requires behind { AllAfter (ComesBehind (S.design design.now)) [] below.now }
    ensures { (top : Id) → AreCellsBelow (S.design design.now) top below.now → IfOk result (AreClasses (S.design design.now) top) }
{
    let classes = Classes::none(alloc, design)?;
    let marks = CellMarks::none(alloc, design)?;
    let mut telling = Telling { classes, marks };
    tell_leaves(alloc, design, below, &mut telling)?;
    tell_passes(rt, alloc, design, below, &mut telling, workers)?;
    tell_rest(alloc, design, below, telling)
}
