//! `Ask`: questions about the flattening of a design.
ghost use Rattle.std.specs.Prelude.{◌≡◌, ◌↔◌, ◌++◌, ◌∷◌, [], Err, IfOk, None, Some};
ghost use Rattle.std.specs.Option.{option_copied, option_map};
ghost use Rattle.netlist_schema.specs.Valid.{IsValid};
ghost use Rattle.flat_cells.specs.Below.{AreCellsBelow};
ghost use Rattle.flat_spec.specs.Paths.{at_path};
ghost use Rattle.flat_items.specs.Lent.{net_of as net_lent, properties_of as properties_lent};
ghost use Rattle.flat_items.specs.Stand.{IsGround, top_of};
ghost use Rattle.ask_spec.specs.Nets.{first_of, inner_net_of, is_same_net, net_of, pins_of};
ghost use Rattle.ask_spec.specs.Places.{at, insts_of, nets_of, properties_of};
ghost use Rattle.ask_spec.specs.Roles.{drivers, loads, pins_as};
ghost use Rattle.flat_ask.specs.Asks.{IsBase, kept_for};
ghost use Rattle.net_ways.specs.Ways.{AreWays};
ghost use Rattle.net_pins.specs.Spots.{IsKept};

use ask_spec::Role;
use flat_cells::cells_below;
use flat_items::{Ground, NetRef, PropertiesRef, Steps};
use flat_lookup::{cell_along, inst_at, insts_at, nets_at};
use net_pins::{Kept, Listing, Pins, keep, list_as, pins_as};
use net_ways::{Ways, first_of, net_inside, net_joined, top_cell};
use netlist_schema::{CellId, Inst, Listed, Net, NoMemory, PartsRef, Property, Shared, Shown};
use std::alloc::Global;
use std::marker::Model;
use thiserror::Error;

/// Why nothing can be asked.
#[derive(Clone, Copy, Debug, PartialEq, Eq, Error)]
pub enum AskError {
    /// The design has no top.
    #[error("no top")]
    NoTop,
    /// An allocation was refused.
    #[error("no memory")]
    NoMemory,
}

/// A design of whose flattening something is asked, and which this owns. Contracts see the design. Several may ask it beside each other.
pub struct Ask<S: Shown + Drop> {
    ground: Shared<Ground<S>>,
    ways: Ways,
    any: Shared<Kept>,
    drivers: Shared<Kept>,
    loads: Shared<Kept>,
}

impl<S: Shown + Drop> Drop for Ask<S> {
    fn drop(self) {
        let Ask {
            ground: _,
            ways: _,
            any: _,
            drivers: _,
            loads: _,
        } = self;
    }
}

impl<S: Shown + Drop> Model for Ask<S> {
    ghost use Rattle.netlist_schema.specs.Design.{Design};
    ghost use Rattle.flat_items.specs.Stand.{IsGround};
    ghost use Rattle.net_ways.specs.Ways.{AreWays};
    ghost use Rattle.net_pins.specs.Spots.{IsKept};
    ghost use Rattle.ask_spec.specs.declared.role.Role.TheVariants.{Any, Driver, Load};

    ghost Value = { Design };

    ghost view = { λ a. S.design a.ground.design };

    ghost invariant = { λ a. IsGround (S.design a.ground.design) a.ground.classes a.ground.notes
        × AreWays (S.design a.ground.design) a.ground.classes a.ways
        × IsKept Any (S.design a.ground.design) a.ground.classes a.any.rows a.any.tops
        × IsKept Driver (S.design a.ground.design) a.ground.classes a.drivers.rows a.drivers.tops
        × IsKept Load (S.design a.ground.design) a.ground.classes a.loads.rows a.loads.tops };
}

/// What is kept of the pins that stand in a role, to be held by several.
fn keep_shared<S: Shown + Drop>(
    ground: &Ground<S>,
    top: CellId,
    below: &[CellId],
    role: Role,
) -> Result<Shared<Kept>, NoMemory>
    requires ground { IsGround (S.design ground.now.design) ground.now.classes ground.now.notes }
    requires is_top { (top_of (S.design ground.now.design)).cell ≡ top }
    requires below { AreCellsBelow (S.design ground.now.design) top below.now }
    ensures { IfOk result (λ kept. IsKept role (S.design ground.now.design) ground.now.classes kept.rows kept.tops) }
{
    let kept = keep(ground, top, below, role)?;
    Shared::of(ground.alloc, kept)
}

/// All that is kept, with the ground to be held by several.
fn joined<S: Shown + Drop>(
    ground: Ground<S>,
    ways: Ways,
    any: Shared<Kept>,
    drivers: Shared<Kept>,
    loads: Shared<Kept>,
) -> Result<Ask<S>, NoMemory>
    requires ground { IsGround (S.design ground.design) ground.classes ground.notes }
    requires ways { AreWays (S.design ground.design) ground.classes ways }
    requires any { IsKept Role.Any (S.design ground.design) ground.classes any.rows any.tops }
    requires drivers { IsKept Role.Driver (S.design ground.design) ground.classes drivers.rows drivers.tops }
    requires loads { IsKept Role.Load (S.design ground.design) ground.classes loads.rows loads.tops }
    ensures { IfOk result (λ ask. ask ≡ S.design ground.design) }
{
    let alloc = ground.alloc;
    let shared = Shared::of(alloc, ground)?;
    Ok(Ask {
        ground: shared,
        ways,
        any,
        drivers,
        loads,
    })
}

/// Makes ready to ask of a design whose top has this cell.
fn ready<S: Shown + Drop>(alloc: Global, design: S, top: CellId) -> Result<Ask<S>, NoMemory>
    requires valid { IsValid (S.design design) }
    requires has_top { (S.design design).top ≡ Some (top_of (S.design design)) }
    requires is_top { (top_of (S.design design)).cell ≡ top }
    ensures { IfOk result (λ ask. ask ≡ S.design design) }
{
    let ground = Ground::of(alloc, design, top)?;
    let below = cells_below(alloc, &ground.design, top)?;
    let ways = Ways::of(alloc, &ground.design, &ground.classes)?;
    let cells = below.as_slice();
    let any = keep_shared(&ground, top, cells, Role::Any)?;
    let drivers = keep_shared(&ground, top, cells, Role::Driver)?;
    let loads = keep_shared(&ground, top, cells, Role::Load)?;
    joined(ground, ways, any, drivers, loads)
}

/// The properties of the instance that leads to an occurrence below the top by a step.
fn properties_below<'a, S: Shown>(design: &'a S, above: &[u32], step: u32) -> Option<&'a [Property]>
    ensures { IsBase (S.design design.now) (above.now ++ step ∷ []) (option_copied result) }
{
    let Some(up) = cell_along(design, top_cell(design), above) else {
        return None;
    };
    let Some(inst) = inst_at(design, up, step) else {
        return None;
    };
    Some(inst.properties.as_slice())
}

/// The properties of the top.
fn top_properties<S: Shown>(design: &S) -> &[Property]
    ensures { result.now ≡ (top_of (S.design design.now)).properties }
{
    match design.top() {
        Some(top) => top.properties.as_slice(),
        None => &[],
    }
}

/// The properties that notes may change: those of the instance that leads to the occurrence at a path, at the top those of the design.
fn base_properties<'a, S: Shown>(design: &'a S, path: &[u32]) -> Option<&'a [Property]>
    ensures { IsBase (S.design design.now) path.now (option_copied result) }
{
    match path.split_last() {
        Some((step, above)) => properties_below(design, above, *step),
        None => Some(top_properties(design)),
    }
}

/// The effective properties of the occurrence at a path, lent: `None` exactly where there is none.
fn lent_properties<'a, S: Shown + Drop>(
    ground: &'a Ground<S>,
    path: &[u32],
) -> Result<Option<PropertiesRef<'a>>, NoMemory>
    requires { IsGround (S.design ground.now.design) ground.now.classes ground.now.notes }
    ensures { IfOk result (λ found. option_map properties_lent found ≡ properties_of (S.design ground.now.design) path.now) }
{
    let Some(base) = base_properties(&ground.design, path) else {
        return Ok(None);
    };
    let copied = Vec::from_slice(ground.alloc, path)?;
    let steps = Steps { steps: copied };
    Ok(Some(PropertiesRef {
        base,
        notes: ground.design.notes().as_slice(),
        places: ground.notes.find(&steps),
    }))
}

/// What is kept for a role.
fn kept_for<'a>(
    any: &'a Shared<Kept>,
    drivers: &'a Shared<Kept>,
    loads: &'a Shared<Kept>,
    role: Role,
) -> &'a Shared<Kept>
    ensures { result.now ≡ kept_for role any.now drivers.now loads.now }
{
    match role {
        Role::Any => any,
        Role::Driver => drivers,
        Role::Load => loads,
    }
}

/// The cell of the occurrence at a path: `None` exactly where there is none.
fn cell_at_path<S: Shown>(design: &S, path: &[u32]) -> Option<CellId>
    requires { (S.design design.now).top ≡ Some (top_of (S.design design.now)) }
    ensures { result ≡ at (S.design design.now) path.now }
{
    cell_along(design, top_cell(design), path)
}

impl<S: Shown + Drop> Ask<S> {
    /// Makes ready to ask of a design. `NoTop` comes exactly where the design has no top. At an error the design is dropped.
    ///
    /// It takes time and memory in proportion to the cells at and below the top with what is in them, and to the notes, times the
    /// logarithms of these numbers: never in proportion to occurrences.
    pub fn of(alloc: Global, design: S) -> Result<Ask<S>, AskError>
        ensures design { IfOk result (λ ask. ask ≡ S.design design) }
        ensures no_top { (result ≡ Err AskError.NoTop) ↔ ((S.design design).top ≡ None) }
    {
        let Some(top) = design.top() else {
            return Err(AskError::NoTop);
        };
        let cell = top.cell;
        match ready(alloc, design, cell) {
            Ok(ask) => Ok(ask),
            Err(NoMemory) => Err(AskError::NoMemory),
        }
    }

    /// The design that is asked. It takes no memory.
    pub fn design(&self) -> &S
        ensures { S.design result.now ≡ self.now }
    {
        &self.ground.get().design
    }

    /// The cell of the occurrence at a path: `None` exactly where there is none. It takes time in proportion to the path, and no memory.
    pub fn at(&self, path: &[u32]) -> Option<CellId>
        ensures { result ≡ at self.now path.now }
    {
        cell_at_path(&self.ground.get().design, path)
    }

    /// Lends the effective properties of the occurrence at a path: `None` exactly where there is none. It takes time in proportion to the
    /// path, times the logarithm of the number of notes, and memory in proportion to the path.
    pub fn properties_of(&self, path: &[u32]) -> Result<Option<PropertiesRef<'_>>, NoMemory>
        ensures { IfOk result (λ found. option_map properties_lent found ≡ properties_of self.now path.now) }
    {
        lent_properties(self.ground.get(), path)
    }

    /// The instances in the occurrence at a path, in order: none of a leaf, and none where there is no occurrence. It takes time in
    /// proportion to the path, and no memory.
    pub fn insts_of(&self, path: &[u32]) -> PartsRef<'_, Listed<Inst>>
        ensures { result ≡ insts_of self.now path.now }
    {
        let Some(cell) = self.at(path) else {
            return PartsRef::none();
        };
        insts_at(&self.ground.get().design, cell)
    }

    /// The nets in the occurrence at a path, in order: none of a leaf, and none where there is no occurrence. It takes time in proportion
    /// to the path, and no memory.
    pub fn nets_of(&self, path: &[u32]) -> PartsRef<'_, Listed<Net>>
        ensures { result ≡ nets_of self.now path.now }
    {
        let Some(cell) = self.at(path) else {
            return PartsRef::none();
        };
        nets_at(&self.ground.get().design, cell)
    }

    /// The first of the nets that are connected with a net of the occurrence at a path, by which the flattening names it; what is no net
    /// is its own. It takes time in proportion to the path, times the logarithm of the ends in a cell, and memory for the cells on the
    /// path.
    pub fn first_of<'a>(&self, path: &'a [u32], net: u32) -> Result<NetRef<'a>, NoMemory>
        ensures { IfOk result (λ first. net_lent first ≡ first_of self.now (at_path path.now net)) }
    {
        first_of(self.ground.get(), &self.ways, path, net)
    }

    /// The first of the nets that are connected with the net at a bit of the occurrence at a path, seen from outside: `None` exactly where
    /// no net joins it there. It takes time and memory as `first_of` does.
    pub fn net_of<'a>(
        &self,
        path: &'a [u32],
        port: u32,
        bit: u32,
    ) -> Result<Option<NetRef<'a>>, NoMemory>
        ensures { IfOk result (λ found. option_map net_lent found ≡ net_of self.now path.now port bit) }
    {
        net_joined(self.ground.get(), &self.ways, path, port, bit)
    }

    /// The same, seen from inside the occurrence: the first of the nets that are connected with that net of its own contents which joins the
    /// bit, `None` exactly where none does. At the top it is the same net. It takes time and memory as `first_of` does.
    pub fn inner_net_of<'a>(
        &self,
        path: &'a [u32],
        port: u32,
        bit: u32,
    ) -> Result<Option<NetRef<'a>>, NoMemory>
        ensures { IfOk result (λ found. option_map net_lent found ≡ inner_net_of self.now path.now port bit) }
    {
        net_inside(self.ground.get(), &self.ways, path, port, bit)
    }

    /// The pins of the class of a net, which any of its nets names: those that the flattening names by the class' first net, in their
    /// order. What is no net has none. It takes time and memory as `first_of` does. Each pin takes time in proportion to the occurrences
    /// that are entered or left for it, times the nets by which the class comes into them and the logarithm of the ends in a cell: no
    /// occurrence is entered in which there is no pin of the class.
    pub fn pins_of<'a>(&'a self, path: &'a [u32], net: u32) -> Result<Pins<'a, S>, NoMemory>
        ensures { IfOk result (λ pins. pins.left ≡ pins_of self.now (at_path path.now net)) }
    {
        pins_as(
            self.ground.get(),
            &self.ways,
            self.any.get(),
            Role::Any,
            path,
            net,
        )
    }

    /// The pins of the class of a net that drive it, strongly or weakly, as the electrical check counts them: outputs of leaves and inputs
    /// of the top, and pins that lead both ways or whose direction is not told. As `pins_of` they come in order, in the same time.
    pub fn drivers<'a>(&'a self, path: &'a [u32], net: u32) -> Result<Pins<'a, S>, NoMemory>
        ensures { IfOk result (λ pins. pins.left ≡ drivers self.now (at_path path.now net)) }
    {
        pins_as(
            self.ground.get(),
            &self.ways,
            self.drivers.get(),
            Role::Driver,
            path,
            net,
        )
    }

    /// The pins of the class of a net that it loads: inputs of leaves and outputs of the top, and pins that lead both ways or whose
    /// direction is not told. As `pins_of` they come in order, in the same time.
    pub fn loads<'a>(&'a self, path: &'a [u32], net: u32) -> Result<Pins<'a, S>, NoMemory>
        ensures { IfOk result (λ pins. pins.left ≡ loads self.now (at_path path.now net)) }
    {
        pins_as(
            self.ground.get(),
            &self.ways,
            self.loads.get(),
            Role::Load,
            path,
            net,
        )
    }

    /// The pins of the class of a net that stand in a role at it: any, its drivers or its loads. The listing holds the design with what is
    /// kept of it, so it goes on when the `Ask` is gone. Each pin comes as from `pins_of`, and in its time.
    pub fn list(&self, role: Role, path: &[u32], net: u32) -> Result<Listing<S>, NoMemory>
        ensures { IfOk result (λ pins. pins ≡ pins_as role self.now (at_path path.now net)) }
    {
        let kept = kept_for(&self.any, &self.drivers, &self.loads, role);
        list_as(&self.ground, &self.ways, kept, role, path, net)
    }

    /// Whether two nets are connected. It takes time and memory as `first_of` for both.
    pub fn is_same_net(&self, one: NetRef<'_>, other: NetRef<'_>) -> Result<bool, NoMemory>
        ensures { IfOk result (λ same. same ≡ is_same_net self.now (net_lent one.entry) (net_lent other.entry)) }
    {
        let first = self.first_of(one.path, one.net)?;
        let second = self.first_of(other.path, other.net)?;
        Ok(first.path == second.path && first.net == second.net)
    }
}
