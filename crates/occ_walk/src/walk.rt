//! `Walk`: the items of a design, one at a time.
ghost use Rattle.std.specs.Prelude.{◌≡◌, ◌≢◌, ◌↔◌, [], ◌∷◌, Err, IfOk, IfNone, IfSome, IsSome, None, Ok, OnErr, Some, drop, false, true};
ghost use Rattle.netlist_schema.specs.Valid.{IsValid};
ghost use Rattle.flat_spec.specs.Flattening.{flattening};
ghost use Rattle.flat_spec.specs.Paths.{cell_along};
ghost use Rattle.occ_walk.specs.At.{items_below};
ghost use Rattle.occ_walk.specs.Walk.{GivesNext, IsLent, IsSettled, IsTextLent, another_follows};
ghost use Rattle.flat_items.specs.Stand.{top_of};

use crate::starts::{go_along, start};
use crate::steps::{advance, current, next_item, skip, skip_within, text};
use flat_items::{Ground, ItemRef, ItemText, Place};
use flat_spec::{Item, Path};
use netlist_schema::{CellId, NoMemory, Shown};
use std::alloc::Global;
use std::marker::Model;
use thiserror::Error;

/// Why there is no walk.
#[derive(Clone, Copy, Debug, PartialEq, Eq, Error)]
pub enum WalkError {
    /// The design has no top.
    #[error("no top")]
    NoTop,
    /// An allocation was refused.
    #[error("no memory")]
    NoMemory,
}

/// A walk over the flattening of a design, which it owns. Contracts see the design and the items that are left.
pub struct Walk<S: Shown + Drop> {
    ground: Ground<S>,
    place: Place,
}

impl<S: Shown + Drop> Drop for Walk<S> {
    fn drop(self) {
        let Walk {
            ground: _,
            place: _,
        } = self;
    }
}

impl<S: Shown + Drop> Model for Walk<S> {
    ghost use Rattle.occ_walk.specs.Walk.{Rest};
    ghost use Rattle.occ_walk.specs.Left.{left};
    ghost use Rattle.occ_walk.specs.Stands.{IsWalk};
    ghost use Rattle.flat_items.specs.Left.{is_over};
    ghost use Rattle.flat_items.specs.Stand.{stand_of};

    ghost Value = { Rest };

    ghost view = { λ w. record { design = S.design w.ground.design; left = left (S.design w.ground.design) (stand_of w.place); over = is_over w.place.stage } };

    ghost invariant = { λ w. IsWalk (S.design w.ground.design) w.ground.classes w.ground.notes (stand_of w.place) };
}

/// The walk over the items at and below the occurrence at a path of a design, whose top has this cell.
fn begin<S: Shown + Drop>(
    alloc: Global,
    design: S,
    top: CellId,
    path: &[u32],
) -> Result<Walk<S>, NoMemory>
    requires valid { IsValid (S.design design) }
    requires has_top { (S.design design).top ≡ Some (top_of (S.design design)) }
    requires is_top { (top_of (S.design design)).cell ≡ top }
    requires there { IsSome (cell_along (S.design design) top path.now) }
    ensures design { IfOk result (λ walk. walk.design ≡ S.design design) }
    ensures left { IfOk result (λ walk. walk.left ≡ items_below (S.design design) path.now) }
{
    let ground = Ground::of(alloc, design, top)?;
    let mut place = start(&ground, top)?;
    go_along(&ground, &mut place, path)?;
    Ok(Walk { ground, place })
}

impl<S: Shown + Drop> Walk<S> {
    /// A walk over the flattening of a design. `NoTop` comes exactly where the design has no top. At an error the design is dropped.
    ///
    /// It takes time and memory in proportion to the cells at and below the top with what is in them, and to the notes, times the
    /// logarithms of these numbers: never in proportion to occurrences.
    #[tactic(auto, using(crate::proofs::StartLemmas::below_top))]
    pub fn new(alloc: Global, design: S) -> Result<Walk<S>, WalkError>
        ensures design { IfOk result (λ walk. walk.design ≡ S.design design) }
        ensures left { IfOk result (λ walk. walk.left ≡ flattening (S.design design)) }
        ensures no_top { (result ≡ Err WalkError.NoTop) ↔ ((S.design design).top ≡ None) }
    {
        let Some(top) = design.top() else {
            return Err(WalkError::NoTop);
        };
        let cell = top.cell;
        match begin(alloc, design, cell, &[]) {
            Ok(walk) => Ok(walk),
            Err(_) => Err(WalkError::NoMemory),
        }
    }

    /// A walk over the items of a design at and below the occurrence at a path: those of the flattening whose path begins with it, in
    /// their order. It needs a path of the design, or a design without a top. `NoTop` comes exactly where the design has no top. At an
    /// error the design is dropped.
    ///
    /// It takes time and memory as `new` does, and for each step of the path as an occurrence that is entered.
    pub fn at(alloc: Global, design: S, path: &Path) -> Result<Walk<S>, WalkError>
        requires { IfSome (S.design design).top (λ top. IsSome (cell_along (S.design design) top.cell path.now)) }
        ensures design { IfOk result (λ walk. walk.design ≡ S.design design) }
        ensures left { IfOk result (λ walk. walk.left ≡ items_below (S.design design) path.now) }
        ensures no_top { (result ≡ Err WalkError.NoTop) ↔ ((S.design design).top ≡ None) }
    {
        let Some(top) = design.top() else {
            return Err(WalkError::NoTop);
        };
        let cell = top.cell;
        match begin(alloc, design, cell, path.as_slice()) {
            Ok(walk) => Ok(walk),
            Err(_) => Err(WalkError::NoMemory),
        }
    }

    /// The next item: `None` exactly where none is left, and from then on. After `NoMemory` the walk stands where it stood.
    ///
    /// It takes time in proportion to what the item shows, and where an occurrence is entered to its name, its nets, the ends on its
    /// instance and the occurrences that are left: never to the number of occurrences, cells or notes. A path of at most eight steps
    /// takes no memory.
    pub fn next(&mut self) -> Result<Option<Item>, NoMemory>
        ensures design { self.new.design ≡ self.old.design }
        ensures none { IfOk result (λ item. IfNone item ((self.old.left ≡ []) × (self.new.left ≡ []))) }
        ensures some { IfOk result (λ item. IfSome item (λ first. self.old.left ≡ first ∷ self.new.left)) }
        ensures err { OnErr result (self.new.left ≡ self.old.left) }
    {
        next_item(&self.ground, &mut self.place)
    }

    /// Goes on to the next item: `true` where one is left, `false` where none is. After `NoMemory` the walk stands where it stood.
    ///
    /// It takes time only where an occurrence is entered: in proportion to its name, its nets, the ends on its instance and the
    /// occurrences that are left.
    #[inline(always)]
    pub fn advance(&mut self) -> Result<bool, NoMemory>
        ensures design { self.new.design ≡ self.old.design }
        ensures left { self.new.left ≡ self.old.left }
        ensures settled { IfOk result (IsSettled self.new) }
        ensures some { result ≡ Ok true → self.new.left ≢ [] }
    {
        advance(&self.ground, &mut self.place)
    }

    /// Lends the next item, where the walk has gone on to it: `None` exactly where all items of the occurrence at which it stands were
    /// given. It takes no memory.
    #[inline(always)]
    pub fn current(&self) -> Option<ItemRef<'_>>
        ensures { IsLent self.now result }
    {
        current(&self.ground, &self.place)
    }

    /// Lends the next item as `current` does, with the texts of its paths.
    #[inline(always)]
    pub fn text(&self) -> Option<ItemText<'_>>
        ensures { IsTextLent self.now result }
    {
        text(&self.ground, &self.place)
    }

    /// The design.
    pub fn design(&self) -> &S
        ensures { S.design result.now ≡ self.now.design }
    {
        &self.ground.design
    }

    /// Passes over the next item, where the walk has gone on to it; else it leaves what is left. It takes no memory.
    #[inline(always)]
    pub fn skip(&mut self)
        ensures design { self.new.design ≡ self.old.design }
        ensures passed { self.old.over ≡ false → self.new.left ≡ drop 1 self.old.left }
        ensures stays { self.old.over ≡ true → self.new.left ≡ self.old.left }
    {
        skip(&self.ground, &mut self.place);
    }

    /// Passes over the next item where another one of the same occurrence follows it, which is the next one then: whether one does. Else
    /// nothing is changed. It takes no memory.
    #[inline(always)]
    pub fn skip_within(&mut self) -> bool
        ensures design { self.new.design ≡ self.old.design }
        ensures passed { result ≡ true → self.old.over ≡ false → self.new.left ≡ drop 1 self.old.left }
        ensures over { self.old.over ≡ true → result ≡ false }
        ensures follows { result ≡ another_follows self.old }
        ensures ahead { result ≡ true → self.new.over ≡ false }
        ensures stays { result ≡ false → self.new ≡ self.old }
    {
        skip_within(&self.ground, &mut self.place)
    }
}

impl<S: Shown + Drop> Iterator for Walk<S> {
    type Item = Result<Item, NoMemory>;

    ghost next_gives = { GivesNext };

    /// The next item as `Walk::next` gives it, or want of memory, after which the walk stands where it stood.
    fn next(&mut self) -> Option<Result<Item, NoMemory>> {
        match next_item(&self.ground, &mut self.place) {
            Ok(Some(item)) => Some(Ok(item)),
            Ok(None) => None,
            Err(error) => Some(Err(error)),
        }
    }
}
