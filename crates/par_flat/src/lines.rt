//! The lines that one worker makes.
ghost use Rattle.std.specs.Prelude.{◌≡◌, ◌<◌, ◌+◌, ◌^◌, [], IfOk, OnOk, drop, false};
ghost use Rattle.std.specs.Option.{ForSome};
ghost use Rattle.flat_spec.specs.Flattening.{flattening};
ghost use Rattle.occ_walk.specs.Left.{left};
ghost use Rattle.flat_items.specs.Left.{is_over};
ghost use Rattle.flat_items.specs.Stand.{MayStand, stand_of};
ghost use Rattle.par_flat.specs.Desks.{IsSeat};
ghost use Rattle.par_flat.specs.Lines.{GivesLine, IsPart};

use crate::desks::{Desk, Most, Seat, place_at};
use flat_items::Place;
use flat_report::text_line;
use netlist_schema::{NoMemory, Shown};
use par_parts::CountedGround;

/// Adds the line of the next item, where the place has gone on to one.
#[inline(always)]
fn add_ahead<S: Shown + Drop>(
    ground: &CountedGround<S>,
    place: &mut Place,
    text: &mut Vec<u8>,
) -> Result<bool, NoMemory>
    requires stands { MayStand ground.now (stand_of place.old) }
    requires some { is_over place.old.stage ≡ false }
    ensures stands { MayStand ground.now (stand_of place.new) }
    ensures given { IfOk result (GivesLine ground.now (left ground.now (stand_of place.old)) text.old.items
        (left ground.now (stand_of place.new)) text.new.items) }
{
    let Some(item) = ground.text(place) else {
        return Ok(false);
    };
    text_line(ground.alloc(), ground.design(), item, text)?;
    ground.skip(place);
    Ok(true)
}

/// Adds the line of the next item, where one is left: whether one was.
#[inline(always)]
fn add_line<S: Shown + Drop>(
    ground: &CountedGround<S>,
    place: &mut Place,
    text: &mut Vec<u8>,
) -> Result<bool, NoMemory>
    requires stands { MayStand ground.now (stand_of place.old) }
    ensures stands { MayStand ground.now (stand_of place.new) }
    ensures given { IfOk result (GivesLine ground.now (left ground.now (stand_of place.old)) text.old.items
        (left ground.now (stand_of place.new)) text.new.items) }
{
    if !ground.advance(place)? {
        return Ok(false);
    }
    add_ahead(ground, place, text)
}

/// Adds the lines of the items that are left, no more than so many, and none behind a text that is so long. Returns how many it added.
fn add_lines<S: Shown + Drop>(
    ground: &CountedGround<S>,
    place: &mut Place,
    most: Most,
    text: &mut Vec<u8>,
) -> Result<u64, NoMemory>
    requires stands { MayStand ground.now (stand_of place.old) }
    requires empty { text.old.items ≡ [] }
    ensures stands { OnOk result (MayStand ground.now (stand_of place.new)) }
    ensures part { IfOk result (λ count. IsPart ground.now (left ground.now (stand_of place.old)) most count text.new.items) }
    ensures left { IfOk result (λ count. left ground.now (stand_of place.new) ≡ drop count (left ground.now (stand_of place.old))) }
{
    let mut count = 0;
    'lines: while count < most.items && text.len() < most.bytes {
        if !add_line(ground, place, text)? {
            return Ok(count);
        }
        count += 1;
    }
    Ok(count)
}

/// Makes the lines of the items behind the first so many, in place of those that the worker made before: of how many items. It goes on
/// from where the worker stands.
pub fn make_lines<S: Shown + Drop>(
    ground: &CountedGround<S>,
    desk: &mut Desk,
    first: u64,
    most: Most,
) -> Result<u64, NoMemory>
    requires seat { ForSome desk.old.seat (IsSeat ground.now) }
    requires fits { first + most.items < 2 ^ 64 }
    ensures worker { desk.new.worker ≡ desk.old.worker }
    ensures seat { ForSome desk.new.seat (IsSeat ground.now) }
    ensures part { IfOk result (λ count. IsPart ground.now (drop first (flattening ground.now)) most count desk.new.lines.text.items) }
{
    desk.lines.text.clear();
    let mut place = place_at(ground, desk.seat.take(), first)?;
    let count = add_lines(ground, &mut place, most, &mut desk.lines.text)?;
    desk.seat = Some(Seat {
        before: first + count,
        place,
    });
    Ok(count)
}
