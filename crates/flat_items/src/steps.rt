//! The steps to an occurrence, and the steps along a note's path.
ghost use Rattle.std.specs.Prelude.{IfOk};
ghost use Rattle.netlist_schema.specs.Hierarchy.{Resolves};
ghost use Rattle.netlist_schema.specs.Valid.{IsValid};
ghost use Rattle.flat_items.specs.Named.{AreNamed};
ghost use Rattle.flat_items.specs.Ways.{IsWay};

use crate::named::NamedPlaces;
use flat_lookup::insts_at;
use netlist_schema::{CellId, NoMemory, Note, Shown};
use std::alloc::Global;

/// The steps from the top to an occurrence.
#[derive(Debug, PartialEq, Eq, PartialOrd, Ord, Drop)]
pub struct Steps {
    pub steps: Vec<u32>,
}

/// The steps of a note's path, as far as it leads.
pub(crate) fn steps_of<S: Shown>(
    alloc: Global,
    design: &S,
    top: CellId,
    note: &Note,
    named: &mut NamedPlaces,
) -> Result<Steps, NoMemory>
    requires { AreNamed (S.design design.now) named.old }
    ensures named { AreNamed (S.design design.now) named.new }
    ensures way { IfOk result (λ s. IsValid (S.design design.now) → Resolves (S.design design.now) top note.now.path → IsWay (S.design design.now) top note.now.path s.steps.items) }
{
    let mut steps = Vec::new(alloc);
    let mut cell = top;
    for name in note.path.as_slice() {
        let Some(place) = named.find(alloc, design, cell, name)? else {
            return Ok(Steps { steps });
        };
        let insts = insts_at(design, cell);
        steps.push(place)?;
        cell = insts.at(place as usize).of;
    }
    Ok(Steps { steps })
}
