//! The steps of a walk.
ghost use Rattle.std.specs.Prelude.{◌≡◌, ◌≢◌, [], IfOk, Ok, OnErr, false, true};
ghost use Rattle.occ_walk.specs.Left.{HasPassed, IsFirst, left, rest_of};
ghost use Rattle.occ_walk.specs.Walk.{IsLent, IsSettled, IsTextLent, another_follows};
ghost use Rattle.flat_items.specs.Left.{is_over, own_left};
ghost use Rattle.flat_items.specs.Stand.{IsGround, MayStand, here_of, stand_of};

use crate::frames::{Below, below_at};
use flat_items::{Ground, ItemRef, ItemText, Place, item_ahead, stage_behind, text_ahead};
use flat_spec::Item;
use netlist_schema::{NoMemory, Shown};

/// Goes on to the next occurrence, where one is left and all own items of this one were given: whether there is one.
#[inline(always)]
fn go_on<S: Shown + Drop>(ground: &Ground<S>, place: &mut Place) -> Result<bool, NoMemory>
    requires ground { IsGround (S.design ground.now.design) ground.now.classes ground.now.notes }
    requires stands { MayStand (S.design ground.now.design) (stand_of place.old) }
    requires done { own_left (S.design ground.now.design) (here_of (stand_of place.old)) place.old.stage ≡ [] }
    ensures stands { MayStand (S.design ground.now.design) (stand_of place.new) }
    ensures left { left (S.design ground.now.design) (stand_of place.new) ≡ left (S.design ground.now.design) (stand_of place.old) }
    ensures gone { IfOk result (IsSettled (rest_of (S.design ground.now.design) (stand_of place.new))) }
{
    'up: loop {
        let step = place.here.next;
        if let Some(below) = below_at(ground, place.path.steps.as_slice(), &place.here, step)? {
            let Below { frame, name } = below;
            place.enter(step, step + 1, name, frame)?;
            return Ok(true);
        }
        if !place.leave() {
            return Ok(false);
        }
    }
}

/// Goes on to the next item, where one is left: whether one is.
#[inline(always)]
pub fn advance<S: Shown + Drop>(ground: &Ground<S>, place: &mut Place) -> Result<bool, NoMemory>
    requires ground { IsGround (S.design ground.now.design) ground.now.classes ground.now.notes }
    requires stands { MayStand (S.design ground.now.design) (stand_of place.old) }
    ensures stands { MayStand (S.design ground.now.design) (stand_of place.new) }
    ensures left { left (S.design ground.now.design) (stand_of place.new) ≡ left (S.design ground.now.design) (stand_of place.old) }
    ensures gone { IfOk result (IsSettled (rest_of (S.design ground.now.design) (stand_of place.new))) }
    ensures some { result ≡ Ok true → left (S.design ground.now.design) (stand_of place.new) ≢ [] }
{
    if place.stage.is_over() {
        return go_on(ground, place);
    }
    Ok(true)
}

/// Lends the next item of the occurrence, where one is left.
#[inline(always)]
pub fn current<'a, S: Shown + Drop>(ground: &'a Ground<S>, place: &'a Place) -> Option<ItemRef<'a>>
    requires ground { IsGround (S.design ground.now.design) ground.now.classes ground.now.notes }
    requires stands { MayStand (S.design ground.now.design) (stand_of place.now) }
    ensures { IsLent (rest_of (S.design ground.now.design) (stand_of place.now)) result }
{
    item_ahead(ground, place)
}

/// Lends the next item of the occurrence with the texts of its paths, where one is left.
#[inline(always)]
pub fn text<'a, S: Shown + Drop>(ground: &'a Ground<S>, place: &'a Place) -> Option<ItemText<'a>>
    requires ground { IsGround (S.design ground.now.design) ground.now.classes ground.now.notes }
    requires stands { MayStand (S.design ground.now.design) (stand_of place.now) }
    ensures { IsTextLent (rest_of (S.design ground.now.design) (stand_of place.now)) result }
{
    text_ahead(ground, place)
}

/// Passes over the next item of the occurrence, where one is left.
#[inline(always)]
pub fn skip<S: Shown + Drop>(ground: &Ground<S>, place: &mut Place)
    requires ground { IsGround (S.design ground.now.design) ground.now.classes ground.now.notes }
    requires stands { MayStand (S.design ground.now.design) (stand_of place.old) }
    ensures stands { MayStand (S.design ground.now.design) (stand_of place.new) }
    ensures passed { HasPassed (S.design ground.now.design) (stand_of place.old) (stand_of place.new) }
    ensures stays { is_over place.old.stage ≡ true → left (S.design ground.now.design) (stand_of place.new) ≡ left (S.design ground.now.design) (stand_of place.old) }
{
    place.stage = stage_behind(ground, place);
}

/// Passes over the next item of the occurrence where another one follows it there: whether one does. Else nothing is changed.
#[inline(always)]
pub fn skip_within<S: Shown + Drop>(ground: &Ground<S>, place: &mut Place) -> bool
    requires ground { IsGround (S.design ground.now.design) ground.now.classes ground.now.notes }
    requires stands { MayStand (S.design ground.now.design) (stand_of place.old) }
    ensures stands { MayStand (S.design ground.now.design) (stand_of place.new) }
    ensures passed { result ≡ true → HasPassed (S.design ground.now.design) (stand_of place.old) (stand_of place.new) }
    ensures over { is_over place.old.stage ≡ true → result ≡ false }
    ensures follows { result ≡ another_follows (rest_of (S.design ground.now.design) (stand_of place.old)) }
    ensures ahead { result ≡ true → is_over place.new.stage ≡ false }
    ensures stays { result ≡ false → stand_of place.new ≡ stand_of place.old }
{
    let stage = stage_behind(ground, place);
    if stage.is_over() {
        return false;
    }
    place.stage = stage;
    true
}

/// Gives the next item of the occurrence, where one is left.
fn give<S: Shown + Drop>(ground: &Ground<S>, place: &mut Place) -> Result<Option<Item>, NoMemory>
    requires ground { IsGround (S.design ground.now.design) ground.now.classes ground.now.notes }
    requires stands { MayStand (S.design ground.now.design) (stand_of place.old) }
    requires some { is_over place.old.stage ≡ false }
    ensures stands { MayStand (S.design ground.now.design) (stand_of place.new) }
    ensures next { IfOk result (IsFirst (left (S.design ground.now.design) (stand_of place.old)) (left (S.design ground.now.design) (stand_of place.new))) }
    ensures err { OnErr result (stand_of place.new ≡ stand_of place.old) }
{
    let Some(ahead) = current(ground, place) else {
        return Ok(None);
    };
    let item = ahead.made(ground.alloc)?;
    skip(ground, place);
    Ok(Some(item))
}

/// Gives the next item, where one is left.
pub fn next_item<S: Shown + Drop>(
    ground: &Ground<S>,
    place: &mut Place,
) -> Result<Option<Item>, NoMemory>
    requires ground { IsGround (S.design ground.now.design) ground.now.classes ground.now.notes }
    requires stands { MayStand (S.design ground.now.design) (stand_of place.old) }
    ensures stands { MayStand (S.design ground.now.design) (stand_of place.new) }
    ensures next { IfOk result (IsFirst (left (S.design ground.now.design) (stand_of place.old)) (left (S.design ground.now.design) (stand_of place.new))) }
    ensures err { OnErr result (left (S.design ground.now.design) (stand_of place.new) ≡ left (S.design ground.now.design) (stand_of place.old)) }
{
    if !advance(ground, place)? {
        return Ok(None);
    }
    give(ground, place)
}
