//! `Listing`: the pins of a net, one at a time, which owns what they are listed from.
ghost use Rattle.std.specs.Prelude.{◌≡◌, ◌∷◌, [], IfNone, IfOk, IfSome, OnErr};
ghost use Rattle.ask_spec.specs.Roles.{pins_as};
ghost use Rattle.net_pins.specs.Spots.{GoesOn, IsPins, MayAsk, question, stand_of};

use crate::kept::Kept;
use crate::spot::{Asked, Spot, next_pin, start};
use ask_spec::Role;
use flat_items::{Ground, NetRef};
use flat_spec::{Item, NetAt};
use netlist_schema::{NoMemory, Shared, Shown};
use std::marker::Model;

/// The pins of a net, of which one after another is given. It holds the design with what is kept of it, so it lives as long as its caller
/// wants. Contracts see the pins that are left.
pub struct Listing<S: Shown + Drop> {
    ground: Shared<Ground<S>>,
    kept: Shared<Kept>,
    role: Role,
    first: NetAt,
    spot: Spot,
}

impl<S: Shown + Drop> Drop for Listing<S> {
    fn drop(self) {
        let Listing {
            ground: _,
            kept: _,
            role: _,
            first: _,
            spot: _,
        } = self;
    }
}

impl<S: Shown + Drop> Model for Listing<S> {
    ghost use Rattle.std.specs.Prelude.{List};
    ghost use Rattle.flat_spec.specs.Types.{Item};
    ghost use Rattle.net_pins.specs.Spots.{IsPins, left, question, stand_of};

    ghost Value = { List Item };

    ghost view = { λ l. left (question l.role (S.design l.ground.design) l.ground.classes l.kept l.first) (stand_of l.spot) };

    ghost invariant = { λ l. IsPins (question l.role (S.design l.ground.design) l.ground.classes l.kept l.first) (stand_of l.spot) };
}

/// What is asked, lent.
fn asked<'a, S: Shown + Drop>(
    ground: &'a Shared<Ground<S>>,
    kept: &'a Shared<Kept>,
    role: Role,
    first: &'a NetAt,
) -> Asked<'a, S>
    ensures { result ≡ question role (S.design ground.now.design) ground.now.classes kept.now first.now }
{
    let kept = kept.get();
    Asked {
        ground: ground.get(),
        rows: &kept.rows,
        tops: &kept.tops,
        role,
        first: NetRef::of(first),
    }
}

/// Before the first pin of a net, which is the first of those connected with it.
pub(crate) fn begin_listing<S: Shown + Drop>(
    ground: Shared<Ground<S>>,
    kept: Shared<Kept>,
    role: Role,
    first: NetAt,
) -> Result<Listing<S>, NoMemory>
    requires { MayAsk (question role (S.design ground.design) ground.classes kept first) }
    ensures { IfOk result (λ pins. pins ≡ pins_as role (S.design ground.design) first) }
{
    let spot = start(&asked(&ground, &kept, role, &first))?;
    Ok(Listing {
        ground,
        kept,
        role,
        first,
        spot,
    })
}

/// The next pin, which is passed.
fn next_listed<S: Shown + Drop>(
    ground: &Shared<Ground<S>>,
    kept: &Shared<Kept>,
    role: Role,
    first: &NetAt,
    spot: &mut Spot,
) -> Result<Option<Item>, NoMemory>
    requires { IsPins (question role (S.design ground.now.design) ground.now.classes kept.now first.now) (stand_of spot.old) }
    ensures { GoesOn (question role (S.design ground.now.design) ground.now.classes kept.now first.now) (stand_of spot.old) (stand_of spot.new) result }
{
    let lent = asked(ground, kept, role, first);
    next_pin(&lent, spot)
}

impl<S: Shown + Drop> Listing<S> {
    /// The next pin: `None` exactly where none is left, and from then on. After `NoMemory` it stands where it stood.
    pub fn next(&mut self) -> Result<Option<Item>, NoMemory>
        ensures none { IfOk result (λ item. IfNone item ((self.old ≡ []) × (self.new ≡ []))) }
        ensures some { IfOk result (λ item. IfSome item (λ first. self.old ≡ first ∷ self.new)) }
        ensures err { OnErr result (self.new ≡ self.old) }
    {
        next_listed(
            &self.ground,
            &self.kept,
            self.role,
            &self.first,
            &mut self.spot,
        )
    }
}
