//! Where one stands among the pins of a net.
ghost use Rattle.std.specs.Prelude.{◌≡◌, ◌≢◌, ◌<◌, ◌≤◌, ◌-◌, ◌↔◌, [], ◌∷◌, ℕ, IfNone, IfOk, IfSome, None, Ok, OnErr, OnOk, drop, false, length, set, true};
ghost use Rattle.std.specs.List.{Contains};
ghost use Rattle.flat_items.specs.Lent.{item_of};
ghost use Rattle.ask_spec.specs.Roles.{pins_as};
ghost use Rattle.net_pins.specs.Levels.{AreInOrder, IsNextOf, LeadsTo, leads_in};
ghost use Rattle.net_pins.specs.Moves.{CanLeave, HasLeft, IsBelowAt, IsBlock, IsDropped, IsLeadAt, NothingHere, IsOwnBit, IsOwnLevel, at_bit, at_next, entered, last_step, made_ready, moved, passed_by};
ghost use Rattle.net_pins.specs.Spots.{IsFound, IsLent, MayAsk, MayStand, left, rest_of, stand_of};

use crate::levels::{Level, level_below, next_lead};
use ask_spec::Role;
use flat_items::{Ground, ItemRef, NetRef};
use flat_lookup::{cell_along, inst_at};
use flat_spec::Item;
use net_classes::Joint;
use net_rows::{OwnBit, Rows, TopRows};
use net_ways::top_cell;
use netlist_schema::{CellId, NoMemory, Shown};
use std::marker::Model;

/// What is asked: the pins of a net, which is the first of those connected with it, that stand in one role at it.
pub(crate) struct Asked<'a, S: Shown + Drop> {
    pub ground: &'a Ground<S>,
    pub rows: &'a Rows,
    pub tops: &'a TopRows,
    pub role: Role,
    pub first: NetRef<'a>,
}

/// Where one stands among the pins of a net: before the bit of the occurrence at the path, with the levels of the occurrences on the path
/// from the net's own to the one above. Where it is ready, that bit is the next pin.
pub(crate) struct Spot {
    pub levels: Vec<Level>,
    pub path: Vec<u32>,
    pub port: u32,
    pub bit: u32,
    pub ready: bool,
}

impl<'a, S: Shown + Drop> Drop for Asked<'a, S> {
    fn drop(self) {
        let Asked {
            ground: _,
            rows: _,
            tops: _,
            role: _,
            first: _,
        } = self;
    }
}

impl<'a, S: Shown + Drop> Model for Asked<'a, S> {
    ghost use Rattle.flat_items.specs.Lent.{net_of};
    ghost use Rattle.net_pins.specs.Spots.{Question};

    ghost Value = { Question };

    ghost view = { λ a. record { role = a.role; design = S.design a.ground.now.design; facts = a.ground.now.classes; cells = a.rows.now; tops = a.tops.now; first = net_of a.first } };
}

impl Drop for Spot {
    fn drop(self) {
        let Spot {
            levels: _,
            path: _,
            port: _,
            bit: _,
            ready: _,
        } = self;
    }
}

/// Drops the last element.
fn drop_last<T: Drop>(xs: &mut Vec<T>)
    requires { 1 ≤ length xs.old.items }
    ensures { IsDropped xs.old.items xs.new.items }
{
    xs.pop();
}

/// Sets the last step, where there is one.
fn set_last(path: &mut Vec<u32>, step: u32)
    ensures { path.new.items ≡ set path.old.items (length path.old.items - 1) step }
{
    let count = path.len();
    if count == 0 {
        return;
    }
    path[count - 1] = step;
}

impl Spot {
    /// Enters an occurrence below that at the path, whose level this is: one stands before its first instance. After `NoMemory` all is as
    /// before.
    fn enter(&mut self, level: Level) -> Result<(), NoMemory>
        ensures ok { OnOk result (stand_of self.new ≡ entered (stand_of self.old) level) }
        ensures err { OnErr result (stand_of self.new ≡ stand_of self.old) }
    {
        self.levels.reserve(1)?;
        self.path.push(0)?;
        self.levels.push_reserved(level);
        self.port = 0;
        self.bit = 0;
        Ok(())
    }

    /// Leaves the last occurrence for the instance behind it in the one above. Takes no memory.
    fn leave(&mut self)
        requires { CanLeave (stand_of self.old) }
        ensures { HasLeft (stand_of self.old) (stand_of self.new) }
    {
        drop_last(&mut self.levels);
        drop_last(&mut self.path);
        self.go_to_next();
    }

    /// Goes on to the next instance.
    fn go_to_next(&mut self)
        requires { last_step self.old.path.items < 4294967295 }
        ensures { stand_of self.new ≡ at_next (stand_of self.old) }
    {
        let step = self.step();
        self.go_to(step + 1, 0, 0);
    }

    /// Goes on to the bit of an instance of the last occurrence.
    fn go_to(&mut self, inst: u32, port: u32, bit: u32)
        ensures { stand_of self.new ≡ moved (stand_of self.old) inst port bit }
    {
        set_last(&mut self.path, inst);
        self.port = port;
        self.bit = bit;
    }

    /// The last step.
    fn step(&self) -> u32
        ensures { result ≡ last_step self.now.path.items }
    {
        match self.path.as_slice().last() {
            Some(step) => *step,
            None => 0,
        }
    }

    /// Passes over the pin at which one stands, where it is ready.
    pub fn skip(&mut self)
        requires { self.old.ready ≡ true → self.old.bit < 4294967295 }
        ensures { stand_of self.new ≡ passed_by (stand_of self.old) }
    {
        if !self.ready {
            return;
        }
        self.bit += 1;
        self.ready = false;
    }

    /// Goes on to the pin of a bit of the occurrence at the path.
    fn stand_at_own(&mut self, own: OwnBit)
        ensures { stand_of self.new ≡ made_ready (at_bit (stand_of self.old) own.port own.bit) }
    {
        self.port = own.port;
        self.bit = own.bit;
        self.ready = true;
    }

    /// Goes on to the pin of a joint of the last occurrence.
    fn stand_at(&mut self, joint: Joint)
        ensures { stand_of self.new ≡ made_ready (moved (stand_of self.old) joint.inst joint.port joint.bit) }
    {
        self.go_to(joint.inst, joint.port, joint.bit);
        self.ready = true;
    }
}

/// Where an instance leads.
#[derive(Drop)]
struct Below {
    of: CellId,
    leaf: bool,
}

/// The cell of an instance, and whether it is a leaf: `None` exactly where there is none.
fn below_in<S: Shown>(design: &S, cell: CellId, inst: u32) -> Option<Below>
    ensures { IsBelowAt (S.design design.now) cell inst result }
{
    let of = inst_at(design, cell, inst)?.of;
    let body = design.cell(of)?;
    Some(Below {
        of,
        leaf: body.contents.is_none(),
    })
}

/// The same in the design that is asked.
fn below_at<S: Shown + Drop>(asked: &Asked<'_, S>, cell: CellId, inst: u32) -> Option<Below>
    ensures { IsBelowAt asked.now.design cell inst result }
{
    below_in(&asked.ground.design, cell, inst)
}

/// The first joint of the last occurrence, whose level this is, that leads to a pin and at which one may stand, where there is one.
fn lead<S: Shown + Drop>(asked: &Asked<'_, S>, spot: &Spot, level: &Level) -> Option<Joint>
    requires { AreInOrder asked.now.cells level.now.cell }
    ensures { IsNextOf (leads_in asked.now.cells level.now.cell level.now.firsts.items) (last_step spot.now.path.items) (record { port = spot.now.port; bit = spot.now.bit }) result }
{
    next_lead(asked.rows, level, spot.step(), spot.port, spot.bit)
}

/// The level of an instance of a level, which is of that cell.
fn made_below<S: Shown + Drop>(
    asked: &Asked<'_, S>,
    level: &Level,
    inst: u32,
    of: CellId,
) -> Result<Level, NoMemory>
    requires { AreInOrder asked.now.cells level.now.cell }
    ensures cell { IfOk result (λ made. made.cell ≡ of) }
    ensures firsts { IfOk result (λ made. (f : ℕ) → Contains made.firsts.items f ↔ LeadsTo asked.now.facts of inst (leads_in asked.now.cells level.now.cell level.now.firsts.items) f) }
{
    level_below(
        asked.ground.alloc,
        &asked.ground.classes,
        asked.rows,
        level,
        inst,
        of,
    )
}

/// The next bit of the top that is a pin of the net, where the net is of the top and one is left.
fn own_bit<S: Shown + Drop>(asked: &Asked<'_, S>, spot: &Spot) -> Option<OwnBit>
    requires { MayAsk asked.now }
    ensures { IsOwnBit asked.now (stand_of spot.now) result }
{
    if asked.first.path.is_empty() {
        asked.tops.bit_from(asked.first.net, spot.port, spot.bit)
    } else {
        None
    }
}

/// The level of the net's own occurrence: `None` exactly where there is none.
fn own_level<S: Shown + Drop>(asked: &Asked<'_, S>) -> Result<Option<Level>, NoMemory>
    ensures { IfOk result (IsOwnLevel asked.now) }
{
    let design = &asked.ground.design;
    let Some(cell) = cell_along(design, top_cell(design), asked.first.path) else {
        return Ok(None);
    };
    let mut firsts = Vec::new(asked.ground.alloc);
    firsts.push(asked.first.net)?;
    Ok(Some(Level { cell, firsts }))
}

/// Enters the instance of a joint of the last occurrence, which is of that cell.
fn go_in<S: Shown + Drop>(
    asked: &Asked<'_, S>,
    spot: &mut Spot,
    cell: CellId,
    joint: Joint,
    of: CellId,
) -> Result<(), NoMemory>
    requires asks { MayAsk asked.now }
    requires stands { MayStand asked.now (stand_of spot.old) }
    requires looks { spot.old.ready ≡ false }
    requires lead { IsLeadAt asked.now (stand_of spot.old) cell joint }
    requires block { IsBlock asked.now.design cell joint.inst of }
    ensures stands { MayStand asked.now (stand_of spot.new) }
    ensures left { left asked.now (stand_of spot.new) ≡ left asked.now (stand_of spot.old) }
    ensures over { spot.new.ready ≡ false }
{
    let Some(level) = spot.levels.as_slice().last() else {
        return Ok(());
    };
    let made = made_below(asked, level, joint.inst, of)?;
    spot.go_to(joint.inst, 0, 0);
    spot.enter(made)
}

/// What one step finds.
#[derive(Clone, Copy, Debug, PartialEq, Eq)]
enum Found {
    /// The next pin.
    ThePin,
    /// Another occurrence, in which to look further.
    Occurrence,
    /// Nothing, since none is left.
    Nothing,
}

/// Goes to the contents of the net's own occurrence, where no bit of the top is left.
fn enter_own<S: Shown + Drop>(asked: &Asked<'_, S>, spot: &mut Spot) -> Result<Found, NoMemory>
    requires asks { MayAsk asked.now }
    requires stands { MayStand asked.now (stand_of spot.old) }
    requires looks { spot.old.ready ≡ false }
    requires own { spot.old.levels.items ≡ [] }
    requires none { IsOwnBit asked.now (stand_of spot.old) None }
    ensures stands { MayStand asked.now (stand_of spot.new) }
    ensures left { left asked.now (stand_of spot.new) ≡ left asked.now (stand_of spot.old) }
    ensures found { IfOk result (IsFound asked.now (stand_of spot.new)) }
    ensures err { OnErr result (spot.new.ready ≡ false) }
{
    let Some(level) = own_level(asked)? else {
        return Ok(Found::Nothing);
    };
    spot.enter(level)?;
    Ok(Found::Occurrence)
}

/// Looks among the bits of the top, and else goes to the contents of the net's own occurrence.
fn look_at_own<S: Shown + Drop>(asked: &Asked<'_, S>, spot: &mut Spot) -> Result<Found, NoMemory>
    requires asks { MayAsk asked.now }
    requires stands { MayStand asked.now (stand_of spot.old) }
    requires looks { spot.old.ready ≡ false }
    requires own { spot.old.levels.items ≡ [] }
    ensures stands { MayStand asked.now (stand_of spot.new) }
    ensures left { left asked.now (stand_of spot.new) ≡ left asked.now (stand_of spot.old) }
    ensures found { IfOk result (IsFound asked.now (stand_of spot.new)) }
    ensures err { OnErr result (spot.new.ready ≡ false) }
{
    match own_bit(asked, spot) {
        Some(own) => {
            spot.stand_at_own(own);
            Ok(Found::ThePin)
        }
        None => enter_own(asked, spot),
    }
}

/// Goes to a joint that leads to a pin.
fn look_at<S: Shown + Drop>(
    asked: &Asked<'_, S>,
    spot: &mut Spot,
    cell: CellId,
    joint: Joint,
) -> Result<Found, NoMemory>
    requires asks { MayAsk asked.now }
    requires stands { MayStand asked.now (stand_of spot.old) }
    requires looks { spot.old.ready ≡ false }
    requires lead { IsLeadAt asked.now (stand_of spot.old) cell joint }
    ensures stands { MayStand asked.now (stand_of spot.new) }
    ensures left { left asked.now (stand_of spot.new) ≡ left asked.now (stand_of spot.old) }
    ensures found { IfOk result (IsFound asked.now (stand_of spot.new)) }
    ensures err { OnErr result (spot.new.ready ≡ false) }
{
    let Some(below) = below_at(asked, cell, joint.inst) else {
        return Ok(Found::Nothing);
    };
    if below.leaf {
        spot.stand_at(joint);
        return Ok(Found::ThePin);
    }
    go_in(asked, spot, cell, joint, below.of)?;
    Ok(Found::Occurrence)
}

/// Goes back to the occurrence above, where there is one; in the last one nothing is left.
fn look_above<S: Shown + Drop>(asked: &Asked<'_, S>, spot: &mut Spot) -> Found
    requires asks { MayAsk asked.now }
    requires stands { MayStand asked.now (stand_of spot.old) }
    requires looks { spot.old.ready ≡ false }
    requires nothing { NothingHere asked.now (stand_of spot.old) }
    ensures stands { MayStand asked.now (stand_of spot.new) }
    ensures left { left asked.now (stand_of spot.new) ≡ left asked.now (stand_of spot.old) }
    ensures found { IsFound asked.now (stand_of spot.new) result }
{
    if spot.levels.len() < 2 {
        return Found::Nothing;
    }
    spot.leave();
    Found::Occurrence
}

/// Looks in the last occurrence, and else goes back to the one above.
fn look_in<S: Shown + Drop>(asked: &Asked<'_, S>, spot: &mut Spot) -> Result<Found, NoMemory>
    requires asks { MayAsk asked.now }
    requires stands { MayStand asked.now (stand_of spot.old) }
    requires looks { spot.old.ready ≡ false }
    requires inside { spot.old.levels.items ≢ [] }
    ensures stands { MayStand asked.now (stand_of spot.new) }
    ensures left { left asked.now (stand_of spot.new) ≡ left asked.now (stand_of spot.old) }
    ensures found { IfOk result (IsFound asked.now (stand_of spot.new)) }
    ensures err { OnErr result (spot.new.ready ≡ false) }
{
    let Some(level) = spot.levels.as_slice().last() else {
        return Ok(Found::Nothing);
    };
    let cell = level.cell;
    match lead(asked, spot, level) {
        Some(joint) => look_at(asked, spot, cell, joint),
        None => Ok(look_above(asked, spot)),
    }
}

/// One step towards the next pin.
fn look<S: Shown + Drop>(asked: &Asked<'_, S>, spot: &mut Spot) -> Result<Found, NoMemory>
    requires asks { MayAsk asked.now }
    requires stands { MayStand asked.now (stand_of spot.old) }
    requires looks { spot.old.ready ≡ false }
    ensures stands { MayStand asked.now (stand_of spot.new) }
    ensures left { left asked.now (stand_of spot.new) ≡ left asked.now (stand_of spot.old) }
    ensures found { IfOk result (IsFound asked.now (stand_of spot.new)) }
    ensures err { OnErr result (spot.new.ready ≡ false) }
{
    if spot.levels.as_slice().is_empty() {
        look_at_own(asked, spot)
    } else {
        look_in(asked, spot)
    }
}

/// Before the first pin of what is asked.
pub(crate) fn start<S: Shown + Drop>(asked: &Asked<'_, S>) -> Result<Spot, NoMemory>
    requires { MayAsk asked.now }
    ensures stands { IfOk result (λ spot. MayStand asked.now (stand_of spot)) }
    ensures left { IfOk result (λ spot. left asked.now (stand_of spot) ≡ pins_as asked.now.role asked.now.design asked.now.first) }
{
    let path = Vec::from_slice(asked.ground.alloc, asked.first.path)?;
    let levels = Vec::new(asked.ground.alloc);
    Ok(Spot {
        levels,
        path,
        port: 0,
        bit: 0,
        ready: false,
    })
}

/// Goes on to the next pin, where one is left: whether one is.
pub(crate) fn advance<S: Shown + Drop>(
    asked: &Asked<'_, S>,
    spot: &mut Spot,
) -> Result<bool, NoMemory>
    requires asks { MayAsk asked.now }
    requires stands { MayStand asked.now (stand_of spot.old) }
    ensures stands { MayStand asked.now (stand_of spot.new) }
    ensures left { left asked.now (stand_of spot.new) ≡ left asked.now (stand_of spot.old) }
    ensures ready { IfOk result (λ more. spot.new.ready ≡ more) }
    ensures none { result ≡ Ok false → left asked.now (stand_of spot.new) ≡ [] }
{
    if spot.ready {
        return Ok(true);
    }
    for _ in 0..u64::MAX {
        match look(asked, spot)? {
            Found::ThePin => return Ok(true),
            Found::Occurrence => {}
            Found::Nothing => return Ok(false),
        }
    }
    Err(NoMemory)
}

/// Lends the pin to which one has gone on.
fn lent<'a, S: Shown + Drop>(asked: &'a Asked<'_, S>, spot: &'a Spot) -> ItemRef<'a>
    requires asks { MayAsk asked.now }
    requires stands { MayStand asked.now (stand_of spot.now) }
    requires ready { spot.now.ready ≡ true }
    ensures { left asked.now (stand_of spot.now) ≡ item_of result ∷ drop 1 (left asked.now (stand_of spot.now)) }
{
    ItemRef::Pin {
        path: spot.path.as_slice(),
        port: spot.port,
        bit: spot.bit,
        first: Some(asked.first),
    }
}

/// Lends the next pin, where one has gone on to it.
pub(crate) fn current<'a, S: Shown + Drop>(
    asked: &'a Asked<'_, S>,
    spot: &'a Spot,
) -> Option<ItemRef<'a>>
    requires asks { MayAsk asked.now }
    requires stands { MayStand asked.now (stand_of spot.now) }
    ensures { IsLent (rest_of asked.now (stand_of spot.now)) result }
{
    if spot.ready {
        Some(lent(asked, spot))
    } else {
        None
    }
}

/// The pin to which one has gone on.
fn pin_made<S: Shown + Drop>(asked: &Asked<'_, S>, spot: &Spot) -> Result<Item, NoMemory>
    requires asks { MayAsk asked.now }
    requires stands { MayStand asked.now (stand_of spot.now) }
    requires ready { spot.now.ready ≡ true }
    ensures { IfOk result (λ item. left asked.now (stand_of spot.now) ≡ item ∷ drop 1 (left asked.now (stand_of spot.now))) }
{
    lent(asked, spot).made(asked.ground.alloc)
}

/// The next pin, which is passed.
pub(crate) fn next_pin<S: Shown + Drop>(
    asked: &Asked<'_, S>,
    spot: &mut Spot,
) -> Result<Option<Item>, NoMemory>
    requires asks { MayAsk asked.now }
    requires stands { MayStand asked.now (stand_of spot.old) }
    ensures stands { MayStand asked.now (stand_of spot.new) }
    ensures none { IfOk result (λ item. IfNone item ((left asked.now (stand_of spot.old) ≡ []) × (left asked.now (stand_of spot.new) ≡ []))) }
    ensures some { IfOk result (λ item. IfSome item (λ first. left asked.now (stand_of spot.old) ≡ first ∷ left asked.now (stand_of spot.new))) }
    ensures err { OnErr result (left asked.now (stand_of spot.new) ≡ left asked.now (stand_of spot.old)) }
{
    let more = advance(asked, spot)?;
    if !more {
        return Ok(None);
    }
    let item = pin_made(asked, spot)?;
    spot.skip();
    Ok(Some(item))
}
