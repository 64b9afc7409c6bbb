//! The item of an occurrence itself.
ghost use Rattle.std.specs.Prelude.{◌≡◌, Some};
ghost use Rattle.flat_spec.specs.Effective.{base_properties, effective};
ghost use Rattle.flat_items.specs.Left.{IsAhead};
ghost use Rattle.flat_items.specs.Lent.{properties_of};
ghost use Rattle.flat_items.specs.Stand.{IsGround, MayStand, here_of, stand_of, top_of};

use crate::ground::Ground;
use crate::lent::{ItemRef, PropertiesRef};
use crate::place::{Place, Stage};
use flat_lookup::insts_at;
use netlist_schema::{Property, Shown};

/// The properties of the top.
fn top_properties<S: Shown>(design: &S) -> &[Property]
    ensures { result.now ≡ (top_of (S.design design.now)).properties }
{
    match design.top() {
        Some(top) => top.properties.as_slice(),
        None => &[],
    }
}

/// The properties that notes may change: those of the instance that leads to the occurrence, at the top those of the design.
#[inline(always)]
fn base_properties<'a, S: Shown>(design: &'a S, place: &Place) -> &'a [Property]
    requires { MayStand (S.design design.now) (stand_of place.now) }
    ensures { result.now ≡ base_properties (S.design design.now) (top_of (S.design design.now)) place.now.path.steps.items }
{
    match place.parent() {
        Some(parent) => {
            let insts = insts_at(design, parent.frame.cell);
            insts.at(parent.step as usize).properties.as_slice()
        }
        None => top_properties(design),
    }
}

/// The effective properties of the occurrence.
#[inline(always)]
pub(crate) fn properties<'a, S: Shown + Drop>(
    ground: &'a Ground<S>,
    place: &Place,
) -> PropertiesRef<'a>
    requires ground { IsGround (S.design ground.now.design) ground.now.classes ground.now.notes }
    requires stands { MayStand (S.design ground.now.design) (stand_of place.now) }
    ensures { properties_of result ≡ effective (S.design ground.now.design) (top_of (S.design ground.now.design)) place.now.path.steps.items }
{
    PropertiesRef {
        base: base_properties(&ground.design, place),
        notes: ground.design.notes().as_slice(),
        places: ground.notes.find(&place.path),
    }
}

/// The occurrence with its effective properties.
#[inline(always)]
pub(crate) fn enter_item<'a, S: Shown + Drop>(
    ground: &'a Ground<S>,
    place: &'a Place,
) -> ItemRef<'a>
    requires ground { IsGround (S.design ground.now.design) ground.now.classes ground.now.notes }
    requires stands { MayStand (S.design ground.now.design) (stand_of place.now) }
    ensures { IsAhead (S.design ground.now.design) (here_of (stand_of place.now)) Stage.Whole (Some result) }
{
    ItemRef::Enter {
        path: place.path.steps.as_slice(),
        cell: place.here.cell,
        properties: properties(ground, place),
    }
}
