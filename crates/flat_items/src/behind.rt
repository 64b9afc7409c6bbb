//! What an occurrence gives behind an item.
ghost use Rattle.std.specs.Prelude.{◌≡◌, drop};
ghost use Rattle.netlist_schema.specs.Design.{Design};
ghost use Rattle.flat_spec.specs.Occurrences.{Occurrence};
ghost use Rattle.flat_items.specs.Left.{GoesOn, own_left};
ghost use Rattle.flat_items.specs.Ports.{IsPinAt, ports_shown};
ghost use Rattle.flat_items.specs.Stand.{IsGround, IsStage, MayStand, here_of, stand_of};

use crate::ground::Ground;
use crate::place::{PinAt, Place, Stage};
use crate::ports::{port_at, shown_ports};
use bus_members::width;
use netlist_schema::{Port, Shown};

/// The pin and those behind it, where there is one.
#[inline(always)]
fn from_pin(ports: &[Port], pin: PinAt) -> Stage
    ensures { (d : Design) (o : Occurrence) → ports.now ≡ ports_shown d o → IsPinAt (ports_shown d o) pin → GoesOn d o (own_left d o (Stage.Pins pin)) result }
{
    match port_at(ports, pin.port) {
        Some(_) => Stage::Pins(pin),
        None => Stage::Done,
    }
}

/// The net and what is behind it, where there is one, else the pins.
#[inline(always)]
fn from_net<S: Shown + Drop>(ground: &Ground<S>, place: &Place, net: u32) -> Stage
    requires ground { IsGround (S.design ground.now.design) ground.now.classes ground.now.notes }
    requires stands { MayStand (S.design ground.now.design) (stand_of place.now) }
    ensures { GoesOn (S.design ground.now.design) (here_of (stand_of place.now)) (own_left (S.design ground.now.design) (here_of (stand_of place.now)) (Stage.Nets net)) result }
{
    if (net as usize) < place.here.names.len() {
        return Stage::Nets(net);
    }
    let path = place.path.steps.as_slice();
    from_pin(
        shown_ports(&ground.design, path, place.here.cell),
        PinAt::FIRST,
    )
}

/// What is behind a net.
#[inline(always)]
fn behind_net<S: Shown + Drop>(ground: &Ground<S>, place: &Place, net: u32) -> Stage
    requires ground { IsGround (S.design ground.now.design) ground.now.classes ground.now.notes }
    requires stands { MayStand (S.design ground.now.design) (stand_of place.now) }
    requires net { IsStage (S.design ground.now.design) (here_of (stand_of place.now)) (Stage.Nets net) }
    ensures { GoesOn (S.design ground.now.design) (here_of (stand_of place.now))
        (drop 1 (own_left (S.design ground.now.design) (here_of (stand_of place.now)) (Stage.Nets net))) result }
{
    from_net(ground, place, net + 1)
}

/// The pins behind one.
#[inline(always)]
fn behind_pin<S: Shown + Drop>(ground: &Ground<S>, place: &Place, pin: PinAt) -> Stage
    requires ground { IsGround (S.design ground.now.design) ground.now.classes ground.now.notes }
    requires stands { MayStand (S.design ground.now.design) (stand_of place.now) }
    requires pin { IsStage (S.design ground.now.design) (here_of (stand_of place.now)) (Stage.Pins pin) }
    ensures { GoesOn (S.design ground.now.design) (here_of (stand_of place.now))
        (drop 1 (own_left (S.design ground.now.design) (here_of (stand_of place.now)) (Stage.Pins pin))) result }
{
    let path = place.path.steps.as_slice();
    let ports = shown_ports(&ground.design, path, place.here.cell);
    let Some(port) = port_at(ports, pin.port) else {
        return Stage::Done;
    };
    from_pin(ports, pin.behind(width(port)))
}

/// What the occurrence at which a walk stands gives behind its next item. It takes time in proportion to no more than its path, and no
/// memory.
#[inline(always)]
pub fn stage_behind<S: Shown + Drop>(ground: &Ground<S>, place: &Place) -> Stage
    requires ground { IsGround (S.design ground.now.design) ground.now.classes ground.now.notes }
    requires stands { MayStand (S.design ground.now.design) (stand_of place.now) }
    ensures { GoesOn (S.design ground.now.design) (here_of (stand_of place.now))
        (drop 1 (own_left (S.design ground.now.design) (here_of (stand_of place.now)) place.now.stage)) result }
{
    match place.stage {
        Stage::Whole => from_net(ground, place, 0),
        Stage::Nets(net) => behind_net(ground, place, net),
        Stage::Pins(pin) => behind_pin(ground, place, pin),
        Stage::Done => Stage::Done,
    }
}
