//! `CountedGround`: what walks over the same design share.
ghost use Rattle.std.specs.Prelude.{◌≡◌, ◌↔◌, ◌+◌, ◌-◌, ◌^◌, ◌<◌, ◌≤◌, Err, IfOk, IfSome, None, OnErr, Some, drop, length, min, true};
ghost use Rattle.netlist_schema.specs.Valid.{IsValid};
ghost use Rattle.flat_spec.specs.Flattening.{flattening};
ghost use Rattle.occ_walk.specs.Left.{HasPassed, IsFirst, left, rest_of};
ghost use Rattle.occ_walk.specs.Walk.{IsLent, IsSettled, IsTextLent};
ghost use Rattle.flat_items.specs.Left.{is_over};
ghost use Rattle.flat_items.specs.Stand.{MayStand, stand_of, top_of};
ghost use Rattle.par_parts.specs.Skip.{HasPassedInst, IsFitting};

use crate::beside::ground_by_workers;
use crate::count::count_top;
use crate::{ItemCounts, count_items};
use flat_items::{Ground, ItemRef, ItemText, Place, Stage};
use flat_lookup::inst_at;
use flat_spec::Item;
use netlist_schema::{CellId, NoMemory, Shown};
use occ_walk::{WalkError, advance, current, next_item, skip, start, text};
use std::alloc::Global;
use std::marker::Model;
use std::thread::Threads;

/// A design with a top, what walks over it need to know, and how many items stand at and below an occurrence of each cell. It stays as
/// it is, so walks in several threads share it. Contracts see the design.
pub struct CountedGround<S: Shown + Drop> {
    ground: Ground<S>,
    top: CellId,
    counts: ItemCounts,
}

impl<S: Shown + Drop> Drop for CountedGround<S> {
    fn drop(self) {
        let CountedGround {
            ground: _,
            top: _,
            counts: _,
        } = self;
    }
}

impl<S: Shown + Drop> Model for CountedGround<S> {
    ghost use Rattle.netlist_schema.specs.Design.{Design};
    ghost use Rattle.par_parts.specs.CountedGround.{IsCounted};

    ghost Value = { Design };

    ghost view = { λ g. S.design g.ground.design };

    ghost invariant = { λ g. IsCounted (S.design g.ground.design) g.ground.classes g.ground.notes g.counts g.top };
}

/// The counted ground of a design whose top has this cell.
fn ground_of<S: Shown + Drop>(
    alloc: Global,
    design: S,
    top: CellId,
) -> Result<CountedGround<S>, NoMemory>
    requires valid { IsValid (S.design design) }
    requires has_top { (S.design design).top ≡ Some (top_of (S.design design)) }
    requires is_top { (top_of (S.design design)).cell ≡ top }
    ensures { IfOk result (λ counted. counted ≡ S.design design) }
{
    let ground = Ground::of(alloc, design, top)?;
    let counts = count_items(alloc, &ground.design, top)?;
    Ok(CountedGround {
        ground,
        top,
        counts,
    })
}

/// The same, found by so many workers.
fn ground_by<R: Threads + Sync, S: Shown + Drop + Sync>(
    rt: &R,
    alloc: Global,
    design: S,
    top: CellId,
    workers: u32,
) -> Result<CountedGround<S>, NoMemory>
    requires valid { IsValid (S.design design) }
    requires has_top { (S.design design).top ≡ Some (top_of (S.design design)) }
    requires is_top { (top_of (S.design design)).cell ≡ top }
    ensures { IfOk result (λ counted. counted ≡ S.design design) }
{
    let (ground, counts) = ground_by_workers(rt, alloc, design, top, workers)?;
    Ok(CountedGround {
        ground,
        top,
        counts,
    })
}

/// How many items stand at and below the occurrences of a cell, where they are no more than that.
fn fitting(counts: &ItemCounts, cell: CellId, most: u64) -> Option<u64>
    ensures { IfSome result (IsFitting counts.now cell most) }
{
    let count = counts.at(cell)?;
    if count <= most && count < u64::MAX {
        return Some(count);
    }
    None
}

/// How many of so many nets stand from one on before the last one, at most so many.
fn before_last(nets: usize, net: u32, most: u64) -> u32
    requires one { net < nets }
    requires few { nets < 2 ^ 32 }
    ensures most { result ≤ most }
    ensures within { net + result < nets }
{
    let others = nets as u64 - 1 - u64::from(net);
    others.min(most) as u32
}

impl<S: Shown + Drop + Sync> CountedGround<S> {
    /// The counted ground of a design, found by so many workers beside each other: in threads, or where one can't be started, here. Where
    /// there is one worker, or the cells have no more than 4,096 instances and nets in them, no thread is started. `NoTop` comes exactly
    /// where the design has no top. At an error the design is dropped.
    ///
    /// It takes time and memory as `of` does.
    pub fn by_workers<R: Threads + Sync>(
        rt: &R,
        alloc: Global,
        design: S,
        workers: u32,
    ) -> Result<CountedGround<S>, WalkError>
        ensures design { IfOk result (λ counted. counted ≡ S.design design) }
        ensures no_top { (result ≡ Err WalkError.NoTop) ↔ ((S.design design).top ≡ None) }
    {
        let Some(top) = design.top() else {
            return Err(WalkError::NoTop);
        };
        let cell = top.cell;
        match ground_by(rt, alloc, design, cell, workers) {
            Ok(ground) => Ok(ground),
            Err(_) => Err(WalkError::NoMemory),
        }
    }
}

impl<S: Shown + Drop> CountedGround<S> {
    /// The counted ground of a design. `NoTop` comes exactly where the design has no top. At an error the design is dropped.
    ///
    /// It takes time and memory as `Walk::new` does, and in proportion to the cells and instances of the design, times a logarithm of
    /// the number of cells: never in proportion to occurrences.
    pub fn of(alloc: Global, design: S) -> Result<CountedGround<S>, WalkError>
        ensures design { IfOk result (λ counted. counted ≡ S.design design) }
        ensures no_top { (result ≡ Err WalkError.NoTop) ↔ ((S.design design).top ≡ None) }
    {
        let Some(top) = design.top() else {
            return Err(WalkError::NoTop);
        };
        let cell = top.cell;
        match ground_of(alloc, design, cell) {
            Ok(ground) => Ok(ground),
            Err(_) => Err(WalkError::NoMemory),
        }
    }

    /// The allocator of walks over the ground.
    pub fn alloc(&self) -> Global {
        self.ground.alloc
    }

    /// The design.
    pub fn design(&self) -> &S
        ensures { S.design result.now ≡ self.now }
    {
        &self.ground.design
    }

    /// How many items the flattening has, as far as a number of 64 bits can say. Takes no memory.
    pub fn item_count(&self) -> u64
        ensures { result ≡ min (length (flattening self.now)) (2 ^ 64 - 1) }
    {
        count_top(&self.ground.design, &self.counts, self.top)
    }

    /// The place before the first item of all.
    pub fn start(&self) -> Result<Place, NoMemory>
        ensures stands { IfOk result (λ place. MayStand self.now (stand_of place)) }
        ensures left { IfOk result (λ place. left self.now (stand_of place) ≡ flattening self.now) }
    {
        start(&self.ground, self.top)
    }

    /// Goes on to the next item, where one is left: whether one is.
    #[inline(always)]
    pub fn advance(&self, place: &mut Place) -> Result<bool, NoMemory>
        requires { MayStand self.now (stand_of place.old) }
        ensures stands { MayStand self.now (stand_of place.new) }
        ensures left { left self.now (stand_of place.new) ≡ left self.now (stand_of place.old) }
        ensures gone { IfOk result (IsSettled (rest_of self.now (stand_of place.new))) }
    {
        advance(&self.ground, place)
    }

    /// Lends the next item of the occurrence, where one is left.
    #[inline(always)]
    pub fn current<'a>(&'a self, place: &'a Place) -> Option<ItemRef<'a>>
        requires { MayStand self.now (stand_of place.now) }
        ensures { IsLent (rest_of self.now (stand_of place.now)) result }
    {
        current(&self.ground, place)
    }

    /// Lends the next item of the occurrence with the texts of its paths, where one is left.
    #[inline(always)]
    pub fn text<'a>(&'a self, place: &'a Place) -> Option<ItemText<'a>>
        requires { MayStand self.now (stand_of place.now) }
        ensures { IsTextLent (rest_of self.now (stand_of place.now)) result }
    {
        text(&self.ground, place)
    }

    /// Passes over the next item of the occurrence, where one is left.
    #[inline(always)]
    pub fn skip(&self, place: &mut Place)
        requires { MayStand self.now (stand_of place.old) }
        ensures stands { MayStand self.now (stand_of place.new) }
        ensures passed { HasPassed self.now (stand_of place.old) (stand_of place.new) }
        ensures stays { is_over place.old.stage ≡ true → left self.now (stand_of place.new) ≡ left self.now (stand_of place.old) }
    {
        skip(&self.ground, place);
    }

    /// Gives the next item, where one is left. After `NoMemory` all are left that were.
    pub fn next_item(&self, place: &mut Place) -> Result<Option<Item>, NoMemory>
        requires { MayStand self.now (stand_of place.old) }
        ensures stands { MayStand self.now (stand_of place.new) }
        ensures next { IfOk result (IsFirst (left self.now (stand_of place.old)) (left self.now (stand_of place.new))) }
        ensures err { OnErr result (left self.now (stand_of place.new) ≡ left self.now (stand_of place.old)) }
    {
        next_item(&self.ground, place)
    }

    /// Where nets of the occurrence are given, passes over as many of them as are before the last one, at most so many: how many items
    /// more are to be passed over.
    pub(crate) fn pass_nets(&self, place: &mut Place, count: u64) -> u64
        requires { MayStand self.now (stand_of place.old) }
        ensures stands { MayStand self.now (stand_of place.new) }
        ensures less { result ≤ count }
        ensures left { drop result (left self.now (stand_of place.new)) ≡ drop count (left self.now (stand_of place.old)) }
    {
        let _ = &self.ground;
        let Stage::Nets(net) = place.stage else {
            return count;
        };
        let passed = before_last(place.here.names.len(), net, count);
        place.stage = Stage::Nets(net + passed);
        count - u64::from(passed)
    }

    /// Passes over what stands at and below the next instance, where that is no more than so many items: how many more are to be passed
    /// over. The own items were all given.
    pub(crate) fn pass_inst(&self, place: &mut Place, count: u64) -> Option<u64>
        requires stands { MayStand self.now (stand_of place.old) }
        requires over { is_over place.old.stage ≡ true }
        ensures { HasPassedInst self.now count (stand_of place.old) (stand_of place.new) result }
    {
        let next = place.here.next;
        let inst = inst_at(&self.ground.design, place.here.cell, next)?;
        let passed = fitting(&self.counts, inst.of, count)?;
        place.here.next = next + 1;
        Some(count - passed)
    }
}
