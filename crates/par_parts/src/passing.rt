//! Items that are passed over.
ghost use Rattle.std.specs.Prelude.{◌≡◌, ◌<◌, ◌≤◌, IfOk, OnOk, drop, false, true};
ghost use Rattle.flat_spec.specs.Flattening.{flattening};
ghost use Rattle.occ_walk.specs.Left.{left};
ghost use Rattle.flat_items.specs.Left.{is_over};
ghost use Rattle.flat_items.specs.Stand.{MayStand, stand_of};

use crate::counted_ground::CountedGround;
use flat_items::Place;
use netlist_schema::{NoMemory, Shown};

/// Passes over own items of the occurrence, at most so many, where one is left: how many more are to be passed over.
fn pass_own<S: Shown + Drop>(ground: &CountedGround<S>, place: &mut Place, count: u64) -> u64
    requires stands { MayStand ground.now (stand_of place.old) }
    requires one { is_over place.old.stage ≡ false }
    requires some { 0 < count }
    ensures stands { MayStand ground.now (stand_of place.new) }
    ensures less { result < count }
    ensures left { drop result (left ground.now (stand_of place.new)) ≡ drop count (left ground.now (stand_of place.old)) }
{
    ground.skip(place);
    let mut more = count - 1;
    'own: while more > 0 {
        if place.stage.is_over() {
            return more;
        }
        ground.skip(place);
        more = ground.pass_nets(place, more - 1);
    }
    more
}

/// Passes over what stands at and below the instances from the next one on, as long as that is no more than so many items: how many more
/// are to be passed over. The own items were all given.
fn pass_insts<S: Shown + Drop>(ground: &CountedGround<S>, place: &mut Place, count: u64) -> u64
    requires stands { MayStand ground.now (stand_of place.old) }
    requires over { is_over place.old.stage ≡ true }
    ensures stands { MayStand ground.now (stand_of place.new) }
    ensures less { result ≤ count }
    ensures left { drop result (left ground.now (stand_of place.new)) ≡ drop count (left ground.now (stand_of place.old)) }
{
    let mut more = count;
    'insts: loop {
        match ground.pass_inst(place, more) {
            Some(left) => more = left,
            None => return more,
        }
    }
}

/// Passes over the items that are left of the occurrence, where some are, and over what stands at and below its instances, as long as
/// that is no more than so many items: how many more are to be passed over.
fn pass_more<S: Shown + Drop>(ground: &CountedGround<S>, place: &mut Place, count: u64) -> u64
    requires stands { MayStand ground.now (stand_of place.old) }
    requires one { is_over place.old.stage ≡ false }
    requires some { 0 < count }
    ensures stands { MayStand ground.now (stand_of place.new) }
    ensures less { result < count }
    ensures left { drop result (left ground.now (stand_of place.new)) ≡ drop count (left ground.now (stand_of place.old)) }
{
    let more = pass_own(ground, place, count);
    if place.stage.is_over() {
        return pass_insts(ground, place, more);
    }
    more
}

/// Passes over so many items, or over all that are left, where these are fewer. After `NoMemory` some of them were passed over.
///
/// What stands at and below an occurrence that is passed over as a whole takes no time but that of a look at its cell's count.
pub fn skip_many<S: Shown + Drop>(
    ground: &CountedGround<S>,
    place: &mut Place,
    count: u64,
) -> Result<(), NoMemory>
    requires { MayStand ground.now (stand_of place.old) }
    ensures stands { MayStand ground.now (stand_of place.new) }
    ensures left { OnOk result (left ground.now (stand_of place.new) ≡ drop count (left ground.now (stand_of place.old))) }
{
    let mut more = count;
    'on: loop {
        if more == 0 {
            return Ok(());
        }
        if !ground.advance(place)? {
            return Ok(());
        }
        more = pass_more(ground, place, more);
    }
}

/// The place behind so many items of the flattening, at its end where there are no more.
///
/// It takes time and memory as a walk that enters the occurrences on the way there, and time in proportion to their own items and
/// instances: never to the number of items that are passed over.
pub fn start_at<S: Shown + Drop>(ground: &CountedGround<S>, first: u64) -> Result<Place, NoMemory>
    ensures stands { IfOk result (λ place. MayStand ground.now (stand_of place)) }
    ensures left { IfOk result (λ place. left ground.now (stand_of place) ≡ drop first (flattening ground.now)) }
{
    let mut place = ground.start()?;
    skip_many(ground, &mut place, first)?;
    Ok(place)
}
