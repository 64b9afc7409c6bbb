//! The next of the own items of an occurrence.
ghost use Rattle.std.specs.Prelude.{Some};
ghost use Rattle.flat_items.specs.Left.{IsAhead};
ghost use Rattle.flat_items.specs.Stand.{IsGround, IsStage, MayStand, here_of, stand_of};

use crate::enter::enter_item;
use crate::firsts::first_of;
use crate::ground::Ground;
use crate::lent::ItemRef;
use crate::pins::pin_item;
use crate::place::{Place, Stage};
use netlist_schema::Shown;

/// The item of a net of the occurrence.
#[inline(always)]
fn net_item<'a, S: Shown + Drop>(ground: &'a Ground<S>, place: &'a Place, net: u32) -> ItemRef<'a>
    requires ground { IsGround (S.design ground.now.design) ground.now.classes ground.now.notes }
    requires stands { MayStand (S.design ground.now.design) (stand_of place.now) }
    requires net { IsStage (S.design ground.now.design) (here_of (stand_of place.now)) (Stage.Nets net) }
    ensures { IsAhead (S.design ground.now.design) (here_of (stand_of place.now)) (Stage.Nets net) (Some result) }
{
    let path = place.path.steps.as_slice();
    ItemRef::Net {
        path,
        net,
        first: first_of(ground, path, &place.here, net),
    }
}

/// Lends the next of the own items of the occurrence at which a walk stands: `None` exactly where none is left.
///
/// An item takes time in proportion to its path, and for a pin to the logarithm of the joined bits of the parent. It takes no memory.
#[inline(always)]
pub fn item_ahead<'a, S: Shown + Drop>(
    ground: &'a Ground<S>,
    place: &'a Place,
) -> Option<ItemRef<'a>>
    requires ground { IsGround (S.design ground.now.design) ground.now.classes ground.now.notes }
    requires stands { MayStand (S.design ground.now.design) (stand_of place.now) }
    ensures { IsAhead (S.design ground.now.design) (here_of (stand_of place.now)) place.now.stage result }
{
    match place.stage {
        Stage::Whole => Some(enter_item(ground, place)),
        Stage::Nets(net) => Some(net_item(ground, place, net)),
        Stage::Pins(pin) => Some(pin_item(ground, place, pin)),
        Stage::Done => None,
    }
}
