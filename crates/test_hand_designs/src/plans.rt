//! Plans, and the designs that they give.
ghost use Rattle.std.specs.Prelude.{◌≡◌, IfOk, IsTrue};
ghost use Rattle.test_hand_designs.specs.Planned.{planned};
ghost use Rattle.test_hand_designs.specs.Sound.{is_sound};

use crate::parts::{library, name, notes, top};
use netlist_schema::{Design, Direction};
use std::alloc::Global;
use std::test::Fail;

/// The key of a property, and its text.
pub type PropertyPlan<'a> = (&'a [u8], &'a [u8]);

/// A port of one bit: its identifier and its direction.
pub type PortPlan<'a> = (&'a [u8], Option<Direction>);

/// An instance: its identifier, the place of its cell, and its properties.
pub type InstPlan<'a> = (&'a [u8], u32, &'a [PropertyPlan<'a>]);

/// A bit that a net joins, by its port: that of the instance at a place, or of the cell itself.
pub type EndPlan = (Option<u32>, u32);

/// A net: its identifier, and what it joins.
pub type NetPlan<'a> = (&'a [u8], &'a [EndPlan]);

/// A note: the identifiers of its path, and its property.
pub type NotePlan<'a> = (&'a [&'a [u8]], PropertyPlan<'a>);

/// The top: its name, and the place of its cell.
pub type TopPlan<'a> = (&'a [u8], u32);

/// What is inside a cell.
#[derive(Clone, Copy)]
pub struct Inside<'a> {
    pub insts: &'a [InstPlan<'a>],
    pub nets: &'a [NetPlan<'a>],
}

/// A cell, which is a leaf where nothing is inside.
#[derive(Clone, Copy)]
pub struct CellPlan<'a> {
    pub id: &'a [u8],
    pub ports: &'a [PortPlan<'a>],
    pub inside: Option<Inside<'a>>,
}

/// A design e of one library w, whose cells have the view v.
#[derive(Clone, Copy)]
pub struct DesignPlan<'a> {
    pub cells: &'a [CellPlan<'a>],
    pub top: Option<TopPlan<'a>>,
    pub notes: &'a [NotePlan<'a>],
}

/// The design of a plan. It needs one that passes the test of `specs/Sound.antt`, which a plan that is written out does by computation.
pub fn design(alloc: Global, plan: &DesignPlan) -> Result<Design, Fail>
    requires { IsTrue (is_sound (planned plan.now)) }
    ensures { IfOk result (λ design. design ≡ planned plan.now) }
{
    let title = name(alloc, b"e")?;
    let libs = library(alloc, plan.cells)?;
    let top = top(alloc, plan.top)?;
    let notes = notes(alloc, plan.notes)?;
    Ok(Design::of(title, libs, top, notes))
}
