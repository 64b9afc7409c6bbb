//! The places of instances, by their names.
ghost use Rattle.std.specs.Prelude.{◌≡◌, ◌≤◌, List, ℕ, IfOk, OnOk, length, nat_eq};
ghost use Rattle.std.specs.Cmp.Lexicographic.{pointwise};
ghost use Rattle.netlist_schema.specs.declared.limits.TheConstants.{MOST_INSTS};
ghost use Rattle.edit_rules_spec.specs.Find.{inst_place};
ghost use Rattle.indexmap.specs.IndexMap.{get};
ghost use Rattle.eco_reads.specs.Places.{place_added};

use indexmap::IndexMap;
use netlist_schema::{Ident, Inst, Listed, NoMemory, Parts};
use std::alloc::Global;

/// Adds the place of a name, unless the name is there.
fn add_place(
    alloc: Global,
    places: &mut IndexMap<Ident, u32>,
    name: &Ident,
    place: u32,
) -> Result<(), NoMemory>
    ensures { OnOk result ((q : List ℕ) → get (pointwise nat_eq) places.new q ≡ place_added place name.now (get (pointwise nat_eq) places.old) q) }
{
    if places.contains_key(name) {
        return Ok(());
    }
    places.insert(name.copy(alloc)?, place)?;
    Ok(())
}

/// For each name the place of the first instance with it.
pub fn places_by_name(
    alloc: Global,
    insts: &Parts<Listed<Inst>>,
) -> Result<IndexMap<Ident, u32>, NoMemory>
    requires { length insts.now ≤ MOST_INSTS }
    ensures { IfOk result (λ places. (name : List ℕ) → get (pointwise nat_eq) places name ≡ inst_place name insts.now) }
{
    let mut places = IndexMap::new(alloc);
    for place in 0..insts.len() {
        let inst = insts.at(place);
        add_place(alloc, &mut places, &inst.name.id, place as u32)?;
    }
    Ok(places)
}
