//! `Kept`: what is kept of the pins that stand in one role at their nets, and the pins of a net by it.
ghost use Rattle.std.specs.Prelude.{◌≡◌, IfOk};
ghost use Rattle.flat_cells.specs.Below.{AreCellsBelow};
ghost use Rattle.flat_spec.specs.Paths.{at_path};
ghost use Rattle.flat_items.specs.Stand.{IsGround, top_of};
ghost use Rattle.ask_spec.specs.Nets.{first_of};
ghost use Rattle.ask_spec.specs.Roles.{pins_as};
ghost use Rattle.net_ways.specs.Ways.{AreWays};
ghost use Rattle.net_pins.specs.Spots.{IsKept};

use crate::listing::{Listing, begin_listing};
use crate::pins::{Pins, begin};
use crate::spot::Asked;
use ask_spec::Role;
use flat_items::Ground;
use flat_spec::NetAt;
use net_rows::{Rows, TopRows};
use net_ways::{Ways, first_of};
use netlist_schema::{CellId, NoMemory, Shared, Shown};

/// What is kept of the pins that stand in one role.
pub struct Kept {
    pub rows: Rows,
    pub tops: TopRows,
}

impl Drop for Kept {
    fn drop(self) {
        let Kept { rows: _, tops: _ } = self;
    }
}

/// What is kept of the pins that stand in a role.
pub fn keep<S: Shown + Drop>(
    ground: &Ground<S>,
    top: CellId,
    below: &[CellId],
    role: Role,
) -> Result<Kept, NoMemory>
    requires ground { IsGround (S.design ground.now.design) ground.now.classes ground.now.notes }
    requires is_top { (top_of (S.design ground.now.design)).cell ≡ top }
    requires below { AreCellsBelow (S.design ground.now.design) top below.now }
    ensures { IfOk result (λ kept. IsKept role (S.design ground.now.design) ground.now.classes kept.rows kept.tops) }
{
    let rows = Rows::of(ground.alloc, &ground.design, &ground.classes, below, role)?;
    let tops = TopRows::of(ground, top, role)?;
    Ok(Kept { rows, tops })
}

/// The pins of the class of a net that stand in a role, by what is kept for it.
pub fn pins_as<'a, S: Shown + Drop>(
    ground: &'a Ground<S>,
    ways: &Ways,
    kept: &'a Kept,
    role: Role,
    path: &'a [u32],
    net: u32,
) -> Result<Pins<'a, S>, NoMemory>
    requires ground { IsGround (S.design ground.now.design) ground.now.classes ground.now.notes }
    requires ways { AreWays (S.design ground.now.design) ground.now.classes ways.now }
    requires kept { IsKept role (S.design ground.now.design) ground.now.classes kept.now.rows kept.now.tops }
    ensures { IfOk result (λ pins. pins.left ≡ pins_as role (S.design ground.now.design) (at_path path.now net)) }
{
    let first = first_of(ground, ways, path, net)?;
    begin(Asked {
        ground,
        rows: &kept.rows,
        tops: &kept.tops,
        role,
        first,
    })
}

/// The first of the nets that are connected with a net, of its own.
fn first_made<S: Shown + Drop>(
    ground: &Ground<S>,
    ways: &Ways,
    path: &[u32],
    net: u32,
) -> Result<NetAt, NoMemory>
    requires ground { IsGround (S.design ground.now.design) ground.now.classes ground.now.notes }
    requires ways { AreWays (S.design ground.now.design) ground.now.classes ways.now }
    ensures { IfOk result (λ first. first ≡ first_of (S.design ground.now.design) (at_path path.now net)) }
{
    let first = first_of(ground, ways, path, net)?;
    first.made(ground.alloc)
}

/// The same, which owns what it is listed from.
pub fn list_as<S: Shown + Drop>(
    ground: &Shared<Ground<S>>,
    ways: &Ways,
    kept: &Shared<Kept>,
    role: Role,
    path: &[u32],
    net: u32,
) -> Result<Listing<S>, NoMemory>
    requires ground { IsGround (S.design ground.now.design) ground.now.classes ground.now.notes }
    requires ways { AreWays (S.design ground.now.design) ground.now.classes ways.now }
    requires kept { IsKept role (S.design ground.now.design) ground.now.classes kept.now.rows kept.now.tops }
    ensures { IfOk result (λ pins. pins ≡ pins_as role (S.design ground.now.design) (at_path path.now net)) }
{
    let first = first_made(ground.get(), ways, path, net)?;
    let ground = ground.share()?;
    let kept = kept.share()?;
    begin_listing(ground, kept, role, first)
}
