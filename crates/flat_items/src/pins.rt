//! The items of pins.
ghost use Rattle.std.specs.Prelude.{◌≡◌, ◌++◌, ◌∷◌, [], IfSome, Some, slice_get};
ghost use Rattle.std.specs.Option.{option_map};
ghost use Rattle.flat_spec.specs.Pins.{net_at_pin, own_bits};
ghost use Rattle.flat_spec.specs.Representatives.{representative};
ghost use Rattle.flat_items.specs.Left.{IsAhead};
ghost use Rattle.flat_items.specs.Lent.{net_of};
ghost use Rattle.flat_items.specs.Stand.{IsFrame, IsGround, IsStage, MayStand, here_of, stand_of, top_of};
ghost use Rattle.flat_items.specs.Texts.{IsFront};

use crate::firsts::first_of;
use crate::ground::Ground;
use crate::lent::{ItemRef, NetRef};
use crate::place::{Frame, Parent, PinAt, Place, Stage};
use net_names::joined_net;
use netlist_schema::Shown;

/// The first net of the design that is connected with a bit of the top, where a net of the top joins it.
#[inline(always)]
fn first_inside<'a, S: Shown + Drop>(
    ground: &'a Ground<S>,
    top: &'a Frame,
    pin: PinAt,
) -> Option<NetRef<'a>>
    requires ground { IsGround (S.design ground.now.design) ground.now.classes ground.now.notes }
    requires top { IsFrame (S.design ground.now.design) [] top.now }
    requires pin { slice_get (own_bits (S.design ground.now.design) top.now.cell) pin.number ≡ Some (record { port = pin.port; bit = pin.bit }) }
    ensures net { option_map net_of result ≡ option_map (representative (S.design ground.now.design) (top_of (S.design ground.now.design)).cell)
        (net_at_pin (S.design ground.now.design) (top_of (S.design ground.now.design)).cell [] (record { port = pin.port; bit = pin.bit })) }
    ensures front { IfSome result (λ first. IsFront [] first.path.now) }
{
    match ground.classes.net_at(top.cell, pin.number) {
        Some(net) => Some(first_of(ground, &[], top, net)),
        None => None,
    }
}

/// The first net of the design that is connected with a bit of an instance, where a net of the parent joins it.
#[inline(always)]
fn first_outside<'a, S: Shown + Drop>(
    ground: &'a Ground<S>,
    parent: Parent<'a>,
    near: usize,
    pin: PinAt,
) -> Option<NetRef<'a>>
    requires ground { IsGround (S.design ground.now.design) ground.now.classes ground.now.notes }
    requires parent { IsFrame (S.design ground.now.design) parent.path.now parent.frame.now }
    ensures net { option_map net_of result ≡ option_map (representative (S.design ground.now.design) (top_of (S.design ground.now.design)).cell)
        (net_at_pin (S.design ground.now.design) (top_of (S.design ground.now.design)).cell (parent.entry.path.now ++ parent.entry.step ∷ []) (record { port = pin.port; bit = pin.bit })) }
    ensures front { IfSome result (λ first. IsFront parent.entry.path.now first.path.now) }
{
    let joints = ground.classes.joints(parent.frame.cell);
    match joined_net(joints, near, parent.step, pin.port, pin.bit) {
        Some(net) => Some(first_of(ground, parent.path, parent.frame, net)),
        None => None,
    }
}

/// The first net of the design that is connected with a pin of the occurrence, where a net joins it.
#[inline(always)]
pub(crate) fn first_at<'a, S: Shown + Drop>(
    ground: &'a Ground<S>,
    place: &'a Place,
    pin: PinAt,
) -> Option<NetRef<'a>>
    requires ground { IsGround (S.design ground.now.design) ground.now.classes ground.now.notes }
    requires stands { MayStand (S.design ground.now.design) (stand_of place.now) }
    requires pin { slice_get (own_bits (S.design ground.now.design) place.now.here.cell) pin.number ≡ Some (record { port = pin.port; bit = pin.bit }) }
    ensures net { option_map net_of result ≡ option_map (representative (S.design ground.now.design) (top_of (S.design ground.now.design)).cell)
        (net_at_pin (S.design ground.now.design) (top_of (S.design ground.now.design)).cell place.now.path.steps.items (record { port = pin.port; bit = pin.bit })) }
    ensures front { IfSome result (λ first. IsFront place.now.path.steps.items first.path.now) }
{
    match place.parent() {
        Some(parent) => {
            let near = place.here.from.saturating_add(pin.number as usize);
            first_outside(ground, parent, near, pin)
        }
        None => first_inside(ground, &place.here, pin),
    }
}

/// The item of a pin of the occurrence.
#[inline(always)]
pub(crate) fn pin_item<'a, S: Shown + Drop>(
    ground: &'a Ground<S>,
    place: &'a Place,
    pin: PinAt,
) -> ItemRef<'a>
    requires ground { IsGround (S.design ground.now.design) ground.now.classes ground.now.notes }
    requires stands { MayStand (S.design ground.now.design) (stand_of place.now) }
    requires pin { IsStage (S.design ground.now.design) (here_of (stand_of place.now)) (Stage.Pins pin) }
    ensures { IsAhead (S.design ground.now.design) (here_of (stand_of place.now)) (Stage.Pins pin) (Some result) }
{
    ItemRef::Pin {
        path: place.path.steps.as_slice(),
        port: pin.port,
        bit: pin.bit,
        first: first_at(ground, place, pin),
    }
}
