//! `Pins`: the pins of a net, one at a time.
ghost use Rattle.std.specs.Prelude.{◌≡◌, ◌≢◌, ◌∷◌, [], IfNone, IfOk, IfSome, Ok, OnErr, drop, false, true};
ghost use Rattle.ask_spec.specs.Roles.{pins_as};
ghost use Rattle.net_pins.specs.Spots.{GivesNext, IsLent, MayAsk};

use crate::spot::{Asked, Spot, advance, current, next_pin, start};
use flat_items::ItemRef;
use flat_spec::Item;
use netlist_schema::{NoMemory, Shown};
use std::marker::Model;

/// The pins of a net, of which one after another is lent or given.
pub struct Pins<'a, S: Shown + Drop> {
    asked: Asked<'a, S>,
    spot: Spot,
}

impl<'a, S: Shown + Drop> Drop for Pins<'a, S> {
    fn drop(self) {
        let Pins { asked: _, spot: _ } = self;
    }
}

impl<'a, S: Shown + Drop> Model for Pins<'a, S> {
    ghost use Rattle.net_pins.specs.Spots.{IsPins, Rest, rest_of, stand_of};

    ghost Value = { Rest };

    ghost view = { λ p. rest_of p.asked (stand_of p.spot) };

    ghost invariant = { λ p. IsPins p.asked (stand_of p.spot) };
}

/// Before the first pin of what is asked.
pub(crate) fn begin<'a, S: Shown + Drop>(asked: Asked<'a, S>) -> Result<Pins<'a, S>, NoMemory>
    requires { MayAsk asked }
    ensures { IfOk result (λ pins. pins.left ≡ pins_as asked.entry.role asked.entry.design asked.entry.first) }
{
    let spot = start(&asked)?;
    Ok(Pins { asked, spot })
}

impl<'a, S: Shown + Drop> Pins<'a, S> {
    /// The next pin: `None` exactly where none is left, and from then on. After `NoMemory` it stands where it stood.
    pub fn next(&mut self) -> Result<Option<Item>, NoMemory>
        ensures none { IfOk result (λ item. IfNone item ((self.old.left ≡ []) × (self.new.left ≡ []))) }
        ensures some { IfOk result (λ item. IfSome item (λ first. self.old.left ≡ first ∷ self.new.left)) }
        ensures err { OnErr result (self.new.left ≡ self.old.left) }
    {
        next_pin(&self.asked, &mut self.spot)
    }

    /// Goes on to the next pin: `true` where one is left, `false` where none is. After `NoMemory` it stands where it stood.
    pub fn advance(&mut self) -> Result<bool, NoMemory>
        ensures left { self.new.left ≡ self.old.left }
        ensures ready { IfOk result (λ more. self.new.ready ≡ more) }
        ensures some { result ≡ Ok true → self.new.left ≢ [] }
        ensures none { result ≡ Ok false → self.new.left ≡ [] }
    {
        advance(&self.asked, &mut self.spot)
    }

    /// Lends the next pin, where one has gone on to it: `None` elsewhere. It takes no memory.
    pub fn current(&self) -> Option<ItemRef<'_>>
        ensures { IsLent self.now result }
    {
        current(&self.asked, &self.spot)
    }

    /// Passes over the next pin, where one has gone on to it; else it leaves what is left. It takes no memory.
    pub fn skip_one(&mut self)
        ensures passed { self.old.ready ≡ true → self.new.left ≡ drop 1 self.old.left }
        ensures stays { self.old.ready ≡ false → self.new.left ≡ self.old.left }
        ensures over { self.new.ready ≡ false }
    {
        self.spot.skip();
    }
}

impl<'a, S: Shown + Drop> Iterator for Pins<'a, S> {
    type Item = Result<Item, NoMemory>;

    ghost next_gives = { GivesNext };

    /// The next pin as `Pins::next` gives it, or want of memory, after which it stands where it stood.
    fn next(&mut self) -> Option<Result<Item, NoMemory>> {
        match next_pin(&self.asked, &mut self.spot) {
            Ok(Some(item)) => Some(Ok(item)),
            Ok(None) => None,
            Err(error) => Some(Err(error)),
        }
    }
}
