//! The next of the own items of an occurrence, with the texts of the paths.
ghost use Rattle.std.specs.Prelude.{◌≡◌, ◌≤◌, IfSome, Some, length, slice_get, take};
ghost use Rattle.std.specs.Option.{option_copied, option_map};
ghost use Rattle.flat_items.specs.Lent.{net_of};
ghost use Rattle.flat_items.specs.Stand.{IsFrame, IsGround, IsStage, MayStand, here_of, stand_of};
ghost use Rattle.flat_items.specs.Texts.{IsFirstText, IsFront, IsNetText, IsPathText, IsTextAhead};

use crate::enter::properties;
use crate::firsts::first_of;
use crate::ground::Ground;
use crate::lent::{NetRef, PropertiesRef};
use crate::pins::first_at;
use crate::place::{Frame, PinAt, Place, Stage};
use netlist_schema::Shown;
use path_texts::{PathText, or_slash};

/// A net of an occurrence: the text of the occurrence's path, and the net's place in the contents there, from 0.
#[derive(Clone, Copy)]
pub struct NetText<'a> {
    pub at: PathText<'a>,
    pub net: u32,
}

/// One item of a flattening, with the texts of its paths.
#[derive(Clone, Copy)]
pub enum ItemText<'a> {
    /// An occurrence, with its effective properties.
    Enter {
        at: PathText<'a>,
        properties: PropertiesRef<'a>,
    },
    /// A net of the occurrence, with the first net that is connected with it.
    Net {
        at: PathText<'a>,
        net: u32,
        first: NetText<'a>,
    },
    /// A bit of a port of the occurrence, with the first net that is connected with the net that joins the bit. There is none where no
    /// net joins it.
    Pin {
        at: PathText<'a>,
        port: u32,
        bit: u32,
        first: Option<NetText<'a>>,
    },
}

/// The frame with that place, where there is one.
#[inline(always)]
fn frame_in(frames: &[Frame], place: usize) -> Option<&Frame>
    ensures { option_copied result ≡ slice_get frames.now place }
{
    frames.get(place)
}

/// The frame of the occurrence behind so many steps of the path.
#[inline(always)]
fn frame_along<'a, S: Shown + Drop>(ground: &Ground<S>, place: &'a Place, count: usize) -> &'a Frame
    requires stands { MayStand (S.design ground.now.design) (stand_of place.now) }
    requires count { count ≤ length place.now.path.steps.items }
    ensures { IsFrame (S.design ground.now.design) (take count place.now.path.steps.items) result.now }
{
    let _ = ground;
    match frame_in(place.above.as_slice(), count) {
        Some(frame) => frame,
        None => &place.here,
    }
}

/// The text of so many steps of the path, and the cell to which they lead.
#[inline(always)]
fn text_along<'a, S: Shown + Drop>(
    ground: &Ground<S>,
    place: &'a Place,
    count: usize,
) -> PathText<'a>
    requires ground { IsGround (S.design ground.now.design) ground.now.classes ground.now.notes }
    requires stands { MayStand (S.design ground.now.design) (stand_of place.now) }
    requires count { count ≤ length place.now.path.steps.items }
    ensures { IsPathText (S.design ground.now.design) (take count place.now.path.steps.items) result }
{
    let frame = frame_along(ground, place, count);
    let text = place.text.as_slice();
    PathText {
        text: or_slash(&text[..frame.end]),
        cell: frame.cell,
    }
}

/// The text of the path, and the cell of the occurrence.
#[inline(always)]
fn text_here<'a, S: Shown + Drop>(ground: &Ground<S>, place: &'a Place) -> PathText<'a>
    requires ground { IsGround (S.design ground.now.design) ground.now.classes ground.now.notes }
    requires stands { MayStand (S.design ground.now.design) (stand_of place.now) }
    ensures path { IsPathText (S.design ground.now.design) place.now.path.steps.items result }
    ensures cell { result.cell ≡ place.now.here.cell }
{
    let _ = ground;
    PathText {
        text: or_slash(place.text.as_slice()),
        cell: place.here.cell,
    }
}

/// A net of an occurrence on the path.
#[inline(always)]
fn text_of<'a, S: Shown + Drop>(
    ground: &Ground<S>,
    place: &'a Place,
    net: NetRef<'_>,
) -> NetText<'a>
    requires ground { IsGround (S.design ground.now.design) ground.now.classes ground.now.notes }
    requires stands { MayStand (S.design ground.now.design) (stand_of place.now) }
    requires front { IsFront place.now.path.steps.items net.path.now }
    ensures { IsNetText (S.design ground.now.design) (net_of net.entry) result }
{
    NetText {
        at: text_along(ground, place, net.path.len()),
        net: net.net,
    }
}

/// The same, where there is one.
#[inline(always)]
fn text_of_first<'a, S: Shown + Drop>(
    ground: &Ground<S>,
    place: &'a Place,
    first: Option<NetRef<'_>>,
) -> Option<NetText<'a>>
    requires ground { IsGround (S.design ground.now.design) ground.now.classes ground.now.notes }
    requires stands { MayStand (S.design ground.now.design) (stand_of place.now) }
    requires front { IfSome first (λ net. IsFront place.now.path.steps.items net.path.now) }
    ensures { IsFirstText (S.design ground.now.design) (option_map net_of first.entry) result }
{
    match first {
        Some(net) => Some(text_of(ground, place, net)),
        None => None,
    }
}

/// The occurrence with its effective properties.
#[inline(always)]
fn enter_text<'a, S: Shown + Drop>(ground: &'a Ground<S>, place: &'a Place) -> ItemText<'a>
    requires ground { IsGround (S.design ground.now.design) ground.now.classes ground.now.notes }
    requires stands { MayStand (S.design ground.now.design) (stand_of place.now) }
    ensures { IsTextAhead (S.design ground.now.design) (here_of (stand_of place.now)) Stage.Whole (Some result) }
{
    ItemText::Enter {
        at: text_here(ground, place),
        properties: properties(ground, place),
    }
}

/// The item of a net of the occurrence.
#[inline(always)]
fn net_text<'a, S: Shown + Drop>(ground: &'a Ground<S>, place: &'a Place, net: u32) -> ItemText<'a>
    requires ground { IsGround (S.design ground.now.design) ground.now.classes ground.now.notes }
    requires stands { MayStand (S.design ground.now.design) (stand_of place.now) }
    requires net { IsStage (S.design ground.now.design) (here_of (stand_of place.now)) (Stage.Nets net) }
    ensures { IsTextAhead (S.design ground.now.design) (here_of (stand_of place.now)) (Stage.Nets net) (Some result) }
{
    let first = first_of(ground, place.path.steps.as_slice(), &place.here, net);
    ItemText::Net {
        at: text_here(ground, place),
        net,
        first: text_of(ground, place, first),
    }
}

/// The item of a pin of the occurrence.
#[inline(always)]
fn pin_text<'a, S: Shown + Drop>(
    ground: &'a Ground<S>,
    place: &'a Place,
    pin: PinAt,
) -> ItemText<'a>
    requires ground { IsGround (S.design ground.now.design) ground.now.classes ground.now.notes }
    requires stands { MayStand (S.design ground.now.design) (stand_of place.now) }
    requires pin { IsStage (S.design ground.now.design) (here_of (stand_of place.now)) (Stage.Pins pin) }
    ensures { IsTextAhead (S.design ground.now.design) (here_of (stand_of place.now)) (Stage.Pins pin) (Some result) }
{
    let first = first_at(ground, place, pin);
    ItemText::Pin {
        at: text_here(ground, place),
        port: pin.port,
        bit: pin.bit,
        first: text_of_first(ground, place, first),
    }
}

/// Lends the next of the own items of the occurrence at which a walk stands, with the texts of its paths: `None` exactly where none is
/// left.
///
/// A pin takes time in proportion to the logarithm of the joined bits of the parent, another item a time of its own. It takes no memory.
#[inline(always)]
pub fn text_ahead<'a, S: Shown + Drop>(
    ground: &'a Ground<S>,
    place: &'a Place,
) -> Option<ItemText<'a>>
    requires ground { IsGround (S.design ground.now.design) ground.now.classes ground.now.notes }
    requires stands { MayStand (S.design ground.now.design) (stand_of place.now) }
    ensures { IsTextAhead (S.design ground.now.design) (here_of (stand_of place.now)) place.now.stage result }
{
    match place.stage {
        Stage::Whole => Some(enter_text(ground, place)),
        Stage::Nets(net) => Some(net_text(ground, place, net)),
        Stage::Pins(pin) => Some(pin_text(ground, place, pin)),
        Stage::Done => None,
    }
}
