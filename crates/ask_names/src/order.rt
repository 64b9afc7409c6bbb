//! Places in the order of names.
ghost use Rattle.std.specs.Prelude.{◌≡◌, ◌<◌, ◌^◌, ℕ, IfOk, List, length, map, slice_get};
ghost use Rattle.netlist_schema.specs.Names.{AreDistinct};
ghost use Rattle.edit_rules_spec.specs.Find.{place_of};
ghost use Rattle.ask_names.specs.Orders.{AreInOrder, ArePlaces, IsSearched, cmp_at, cmp_to, name_at};

use netlist_schema::{Inst, Listed, Net, NoMemory, PartsRef, Port};
use std::alloc::Global;
use std::cmp::Ordering;

/// What has identifiers in a cell, in a row.
pub(crate) trait Named {
    /// The identifiers.
    ghost names: { Self → List (List ℕ) };

    /// How many there are.
    fn count(&self) -> usize
        ensures { result ≡ length (names self.now) };

    /// Lends the identifier at a place: no bytes where there is none.
    fn name_at(&self, place: u32) -> &[u8]
        ensures { result.now ≡ name_at (names self.now) place };
}

impl<'a> Named for PartsRef<'a, Listed<Inst>> {
    ghost names = { λ insts. map (λ inst. inst.name.id) insts };

    fn count(&self) -> usize {
        self.len()
    }

    fn name_at(&self, place: u32) -> &[u8] {
        match self.get(place as usize) {
            Some(inst) => inst.get().name.id.as_slice(),
            None => &[],
        }
    }
}

impl<'a> Named for PartsRef<'a, Listed<Net>> {
    ghost names = { λ nets. map (λ net. net.name.id) nets };

    fn count(&self) -> usize {
        self.len()
    }

    fn name_at(&self, place: u32) -> &[u8] {
        match self.get(place as usize) {
            Some(net) => net.get().name.id.as_slice(),
            None => &[],
        }
    }
}

impl<'a> Named for &'a [Port] {
    ghost names = { λ ports. map (λ port. port.name.id) ports.now };

    fn count(&self) -> usize {
        self.len()
    }

    fn name_at(&self, place: u32) -> &[u8] {
        match self.get(place as usize) {
            Some(port) => port.name.id.as_slice(),
            None => &[],
        }
    }
}

/// How the name at a place stands to a name.
fn cmp_to<R: Named>(items: &R, place: u32, name: &[u8]) -> Ordering
    ensures { result ≡ cmp_to (R.names items.now) name.now place }
{
    items.name_at(place).cmp(name)
}

/// How the names at two places stand to each other.
fn cmp_at<R: Named>(items: &R, one: u32, other: u32) -> Ordering
    ensures { result ≡ cmp_at (R.names items.now) one other }
{
    cmp_to(items, one, items.name_at(other))
}

/// So many places, from 0 on.
fn places(alloc: Global, count: u32) -> Result<Vec<u32>, NoMemory>
    ensures { IfOk result (λ places. ArePlaces count places.items) }
{
    let mut places = Vec::with_capacity(alloc, count as usize)?;
    for place in 0..count {
        places.push(place)?;
    }
    Ok(places)
}

/// Puts places in the order of the names there.
fn put_in_order<R: Named>(items: &R, places: &mut Vec<u32>)
    requires differ { AreDistinct (R.names items.now) }
    requires places { ArePlaces (length (R.names items.now)) places.old.items }
    ensures { AreInOrder (R.names items.now) places.new.items }
{
    places.sort_unstable_by(|one, other| cmp_at(items, *one, *other));
}

/// The places of items in the order of their names.
pub(crate) fn order_of<R: Named>(alloc: Global, items: &R) -> Result<Vec<u32>, NoMemory>
    requires few { length (R.names items.now) < 2 ^ 32 }
    requires differ { AreDistinct (R.names items.now) }
    ensures { IfOk result (λ order. AreInOrder (R.names items.now) order.items) }
{
    let mut order = places(alloc, items.count() as u32)?;
    put_in_order(items, &mut order);
    Ok(order)
}

/// Where a name stands among the places in order.
fn find<R: Named>(items: &R, order: &[u32], name: &[u8]) -> Result<usize, usize>
    requires { AreInOrder (R.names items.now) order.now }
    ensures { IsSearched (R.names items.now) name.now order.now result }
{
    order.binary_search_by(|place| cmp_to(items, *place, name))
}

/// One of the places in order, where there is one.
fn place_at(order: &[u32], at: usize) -> Option<u32>
    ensures { result ≡ slice_get order.now at }
{
    order.get(at).copied()
}

/// The place of a name, by the places in order: `None` exactly where there is none. It takes time in proportion to the logarithm of the
/// number of items, and no memory.
pub(crate) fn place_in<R: Named>(items: &R, order: &[u32], name: &[u8]) -> Option<u32>
    requires { AreInOrder (R.names items.now) order.now }
    ensures { result ≡ place_of name.now (R.names items.now) }
{
    match find(items, order, name) {
        Ok(at) => place_at(order, at),
        Err(_) => None,
    }
}
