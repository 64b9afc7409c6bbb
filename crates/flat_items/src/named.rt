//! The places of instances by their identifiers.
ghost use Rattle.std.specs.Prelude.{◌≤◌, IfOk, length, nat_eq};
ghost use Rattle.std.specs.Cmp.Lexicographic.{pointwise};
ghost use Rattle.indexmap.specs.IndexMap.{get};
ghost use Rattle.netlist_schema.specs.Design.{Design};
ghost use Rattle.netlist_schema.specs.Hierarchy.{insts_at};
ghost use Rattle.netlist_schema.specs.declared.limits.TheConstants.{MOST_INSTS};
ghost use Rattle.flat_items.specs.Named.{AreNamed, ArePlaces};
ghost use Rattle.flat_items.specs.Ways.{IsNameFound};

use flat_lookup::insts_at;
use indexmap::IndexMap;
use netlist_schema::{CellId, Ident, Inst, Listed, NoMemory, PartsRef, Shown};
use std::alloc::Global;
use std::collections::BTreeMap;

/// The places of the instances of cells by their identifiers, of each cell that was asked for.
pub struct NamedPlaces {
    cells: BTreeMap<CellId, IndexMap<Ident, u32>>,
}

impl Drop for NamedPlaces {
    fn drop(self) {
        let NamedPlaces { cells: _ } = self;
    }
}

/// The places of instances by their identifiers.
fn places_of(
    alloc: Global,
    insts: &PartsRef<'_, Listed<Inst>>,
) -> Result<IndexMap<Ident, u32>, NoMemory>
    requires { length insts.now ≤ MOST_INSTS }
    ensures { IfOk result (λ places. ArePlaces insts.now (get (pointwise nat_eq) places)) }
{
    let mut places = IndexMap::new(alloc);
    for place in 0..insts.len() {
        let inst = insts.at(place);
        places.insert(inst.name.id.copy(alloc)?, place as u32)?;
    }
    Ok(places)
}

impl NamedPlaces {
    /// No cell was asked for. Takes no memory.
    pub fn new(alloc: Global) -> NamedPlaces
        ensures { (d : Design) → AreNamed d result }
    {
        NamedPlaces {
            cells: BTreeMap::new(alloc),
        }
    }

    /// The place of the instance of a cell with this identifier. The first question about a cell goes over its instances once.
    pub fn find<S: Shown>(
        &mut self,
        alloc: Global,
        design: &S,
        cell: CellId,
        name: &Ident,
    ) -> Result<Option<u32>, NoMemory>
        requires { AreNamed (S.design design.now) self.old }
        ensures named { AreNamed (S.design design.now) self.new }
        ensures found { IfOk result (IsNameFound (insts_at (S.design design.now) cell) name.now) }
    {
        if let Some(places) = self.cells.get(&cell) {
            return Ok(places.get(name).copied());
        }
        let places = places_of(alloc, &insts_at(design, cell))?;
        let found = places.get(name).copied();
        self.cells.insert(cell, places)?;
        Ok(found)
    }
}
