//! What walks share, found by workers.
ghost use Rattle.std.specs.Prelude.{◌≡◌, [], IfOk, Some};
ghost use Rattle.std.specs.List.{All};
ghost use Rattle.std.specs.Thread.{IsSync};
ghost use Rattle.netlist_schema.specs.Hierarchy.{IsCell};
ghost use Rattle.netlist_schema.specs.Types.{CellId as Id};
ghost use Rattle.netlist_schema.specs.Valid.{IsValid};
ghost use Rattle.netlist_order_spec.specs.After.{AllAfter};
ghost use Rattle.flat_cells.specs.Below.{AreCellsBelow, ComesBehind};
ghost use Rattle.net_classes.specs.PortClasses.{AreClasses};
ghost use Rattle.flat_items.specs.Stand.{IsGround, top_of};
ghost use Rattle.par_parts.specs.Items.{AreCounted, AreCounts};

use crate::ItemCounts;
use crate::counts::count_below;
use flat_cells::cells_below;
use flat_items::{Ground, PlacedNotes};
use flat_lookup::{insts_at, nets_at};
use net_classes::Classes;
use netlist_schema::{CellId, NoMemory, Shown};
use par_classes::classes_by_workers;
use std::alloc::Global;
use std::thread::{Threads, join};

/// For no more instances and nets in cells than that no thread is started.
const FEW_PARTS: usize = 4_096;

/// Whether there are so many instances and nets in these cells that a thread is started sooner than they are looked at.
pub(crate) fn are_many<S: Shown>(design: &S, below: &[CellId]) -> bool {
    let mut count = 0usize;
    for cell in below {
        count = count.saturating_add(insts_at(design, *cell).len());
        count = count.saturating_add(nets_at(design, *cell).len());
        if count > FEW_PARTS {
            return true;
        }
    }
    false
}

/// What is connected in the trees of these cells, told by so many workers, and how many items stand at and below an occurrence of each,
/// counted beside them.
fn classes_and_counts<R: Threads + Sync, S: Shown + Sync>(
    rt: &R,
    alloc: Global,
    design: &S,
    below: &[CellId],
    workers: u32,
) -> Result<(Classes, ItemCounts), NoMemory>
    requires valid { IsValid (S.design design.now) }
    requires there { All (IsCell (S.design design.now)) below.now }
    requires behind { AllAfter (ComesBehind (S.design design.now)) [] below.now }
    ensures classes { (top : Id) → AreCellsBelow (S.design design.now) top below.now → IfOk result (λ both. AreClasses (S.design design.now) top both.0) }
    ensures counts { IfOk result (λ both. AreCounted (S.design design.now) below.now both.1) }
{
    let (counted, told) = join(
        rt,
        || -> Result<ItemCounts, NoMemory>
            requires { IsSync S.row × IsValid (S.design design.now) × All (IsCell (S.design design.now)) below.now
                × AllAfter (ComesBehind (S.design design.now)) [] below.now }
            ensures { IfOk result (AreCounted (S.design design.entry.now) below.entry.now) }
        { count_below(alloc, design, below) },
        || -> Result<Classes, NoMemory>
            requires { IsSync R.row × IsSync S.row × IsValid (S.design design.now) × All (IsCell (S.design design.now)) below.now
                × AllAfter (ComesBehind (S.design design.now)) [] below.now }
            ensures { (top : Id) → AreCellsBelow (S.design design.entry.now) top below.entry.now
                → IfOk result (AreClasses (S.design design.entry.now) top) }
        { classes_by_workers(rt, alloc, design, below, workers) },
    );
    let classes = told?;
    let counts = counted?;
    Ok((classes, counts))
}

/// The ground of a design whose top has this cell, where the classes are told.
#[tactic(auto, using(flat_items::proofs::GroundLemmas::notes_resolve))]
fn ground_with<S: Shown + Drop>(
    alloc: Global,
    design: S,
    top: CellId,
    classes: Classes,
) -> Result<Ground<S>, NoMemory>
    requires valid { IsValid (S.design design) }
    requires has_top { (S.design design).top ≡ Some (top_of (S.design design)) }
    requires is_top { (top_of (S.design design)).cell ≡ top }
    requires classes { AreClasses (S.design design) top classes }
    ensures design { IfOk result (λ ground. ground.design ≡ design) }
    ensures ground { IfOk result (λ ground. IsGround (S.design ground.design) ground.classes ground.notes) }
{
    let notes = PlacedNotes::of(alloc, &design, top)?;
    Ok(Ground {
        alloc,
        design,
        classes,
        notes,
    })
}

/// The ground of a design whose top has this cell, and the counts, where these are the cells at and below the top.
fn parts_of<R: Threads + Sync, S: Shown + Drop + Sync>(
    rt: &R,
    alloc: Global,
    design: S,
    top: CellId,
    below: &[CellId],
    workers: u32,
) -> Result<(Ground<S>, ItemCounts), NoMemory>
    requires valid { IsValid (S.design design) }
    requires has_top { (S.design design).top ≡ Some (top_of (S.design design)) }
    requires is_top { (top_of (S.design design)).cell ≡ top }
    requires below { AreCellsBelow (S.design design) top below.now }
    requires there { All (IsCell (S.design design)) below.now }
    ensures design { IfOk result (λ both. both.0.design ≡ design) }
    ensures ground { IfOk result (λ both. IsGround (S.design both.0.design) both.0.classes both.0.notes) }
    ensures counts { IfOk result (λ both. AreCounts (S.design design) top both.1) }
{
    let (classes, counts) = classes_and_counts(rt, alloc, &design, below, workers)?;
    let ground = ground_with(alloc, design, top, classes)?;
    Ok((ground, counts))
}

/// The same by this thread alone.
fn parts_here<S: Shown + Drop>(
    alloc: Global,
    design: S,
    top: CellId,
    below: &[CellId],
) -> Result<(Ground<S>, ItemCounts), NoMemory>
    requires valid { IsValid (S.design design) }
    requires has_top { (S.design design).top ≡ Some (top_of (S.design design)) }
    requires is_top { (top_of (S.design design)).cell ≡ top }
    requires below { AreCellsBelow (S.design design) top below.now }
    requires there { All (IsCell (S.design design)) below.now }
    ensures design { IfOk result (λ both. both.0.design ≡ design) }
    ensures ground { IfOk result (λ both. IsGround (S.design both.0.design) both.0.classes both.0.notes) }
    ensures counts { IfOk result (λ both. AreCounts (S.design design) top both.1) }
{
    let ground = Ground::of(alloc, design, top)?;
    let counts = count_below(alloc, &ground.design, below)?;
    Ok((ground, counts))
}

/// The ground of a design whose top has this cell, and the counts: by so many workers, where the cells have so much in them that this pays.
#[tactic(auto, using(flat_items::proofs::GroundLemmas::top_is_cell))]
pub(crate) fn ground_by_workers<R: Threads + Sync, S: Shown + Drop + Sync>(
    rt: &R,
    alloc: Global,
    design: S,
    top: CellId,
    workers: u32,
) -> Result<(Ground<S>, ItemCounts), NoMemory>
    requires valid { IsValid (S.design design) }
    requires has_top { (S.design design).top ≡ Some (top_of (S.design design)) }
    requires is_top { (top_of (S.design design)).cell ≡ top }
    ensures design { IfOk result (λ both. both.0.design ≡ design) }
    ensures ground { IfOk result (λ both. IsGround (S.design both.0.design) both.0.classes both.0.notes) }
    ensures counts { IfOk result (λ both. AreCounts (S.design design) top both.1) }
{
    let below = cells_below(alloc, &design, top)?;
    let cells = below.as_slice();
    if workers > 1 && are_many(&design, cells) {
        return parts_of(rt, alloc, design, top, cells, workers);
    }
    parts_here(alloc, design, top, cells)
}
