//! `TopRows`: the bits of the top by the nets that join them.
ghost use Rattle.std.specs.Prelude.{◌≡◌, ◌≤◌, ◌++◌, IfOk, None, OnOk, if◌then◌else◌, length, map, slice_get, true};
ghost use Rattle.std.specs.List.{AllPairs, range_with_len};
ghost use Rattle.erc_spec.specs.Told.{BitBefore};
ghost use Rattle.netlist_schema.specs.declared.limits.TheConstants.{MOST_PORTS};
ghost use Rattle.flat_spec.specs.Pins.{bits_of};
ghost use Rattle.net_classes.specs.Facts.{first_at};
ghost use Rattle.flat_items.specs.Stand.{IsGround, top_of};
ghost use Rattle.net_ways.specs.Counts.{IsCountOf};
ghost use Rattle.net_rows.specs.Rows.{direction_in, port_stands};
ghost use Rattle.net_rows.specs.Lists.{AreParted};
ghost use Rattle.net_rows.specs.Tops.{AreTops, IsNextBit, bit_at, bit_before, bit_is_in, bit_of, bits_in};
ghost use Rattle.net_ways.specs.Ways.{firsts_in};

use crate::leads::{direction_of, stands_as};
use crate::lists::{add_to, no_lists};
use ask_spec::Role;
use bus_members::width;
use flat_items::Ground;
use net_classes::Classes;
use netlist_schema::{CellBody, CellId, NoMemory, Shown};
use std::alloc::Global;
use std::marker::Model;

/// A bit of the top.
#[derive(Clone, Copy, Debug, PartialEq, Eq)]
pub struct OwnBit {
    pub port: u32,
    pub bit: u32,
}

/// For each net of the top that is the first of those connected with it, the bits of the top that these join and that stand in one role,
/// in order.
pub struct TopRows {
    by_first: Vec<Vec<OwnBit>>,
}

impl Drop for TopRows {
    fn drop(self) {
        let TopRows { by_first: _ } = self;
    }
}

impl Model for TopRows {
    ghost use Rattle.std.specs.Prelude.{map};
    ghost use Rattle.net_rows.specs.Tops.{TopTable};

    ghost Value = { TopTable };

    ghost view = { λ s. map (λ bits. bits.items) s.by_first.items };
}

/// Adds so many bits of a port.
fn add_port(place: u32, count: u32, bits: &mut Vec<OwnBit>) -> Result<(), NoMemory>
    ensures { OnOk result (map bit_of bits.new.items ≡ map bit_of bits.old.items ++ map (bit_at place) (range_with_len 0 count)) }
{
    for bit in 0..count {
        bits.push(OwnBit { port: place, bit })?;
    }
    Ok(())
}

/// The bits of a cell.
fn all_bits(alloc: Global, body: &CellBody) -> Result<Vec<OwnBit>, NoMemory>
    requires { length body.now.ports ≤ MOST_PORTS }
    ensures { IfOk result (λ bits. map bit_of bits.items ≡ bits_of body.now) }
{
    let mut bits = Vec::new(alloc);
    let ports = body.ports.as_slice();
    for (place, port) in ports.iter().enumerate() {
        add_port(place as u32, width(port), &mut bits)?;
    }
    Ok(bits)
}

/// The first net that is connected with a bit of the top, where the bit stands in that role.
fn first_of(classes: &Classes, top: CellId, body: &CellBody, role: Role, own: OwnBit) -> Option<u32>
    ensures { result ≡ (if port_stands role true (direction_in body.now own.port) then first_at classes.now top (bit_of own) else None) }
{
    if stands_as(role, true, direction_of(body.ports.as_slice(), own.port)) {
        classes.first_at(top, own.port, own.bit)
    } else {
        None
    }
}

/// The bits of the top by their first nets, of which there are so many.
fn parted(
    alloc: Global,
    classes: &Classes,
    top: CellId,
    body: &CellBody,
    role: Role,
    bits: &[OwnBit],
) -> Result<Vec<Vec<OwnBit>>, NoMemory>
    ensures { IfOk result (λ lists. AreParted (bit_is_in role classes.now top body.now) (length (firsts_in classes.now top)) bits.now (map (λ list. list.items) lists.items)) }
{
    let mut lists = no_lists(alloc, classes.firsts(top).len())?;
    for own in bits {
        let first = first_of(classes, top, body, role, *own);
        add_to(&mut lists, first, *own)?;
    }
    Ok(lists)
}

impl TopRows {
    /// The bits of the top, whose cell this is. The one error is that an allocation was refused.
    ///
    /// It takes time and memory in proportion to its nets and bits.
    pub fn of<S: Shown + Drop>(
        ground: &Ground<S>,
        top: CellId,
        role: Role,
    ) -> Result<TopRows, NoMemory>
        requires ground { IsGround (S.design ground.now.design) ground.now.classes ground.now.notes }
        requires is_top { (top_of (S.design ground.now.design)).cell ≡ top }
        ensures { IfOk result (AreTops role (S.design ground.now.design) ground.now.classes top) }
    {
        let Some(body) = ground.design.cell(top) else {
            return Ok(TopRows {
                by_first: Vec::new(ground.alloc),
            });
        };
        let bits = all_bits(ground.alloc, body)?;
        let by_first = parted(
            ground.alloc,
            &ground.classes,
            top,
            body,
            role,
            bits.as_slice(),
        )?;
        Ok(TopRows { by_first })
    }

    /// The bits of the top with that first net. Takes no memory.
    fn bits(&self, first: u32) -> &[OwnBit]
        ensures { result.now ≡ bits_in self.now first }
    {
        match self.by_first.as_slice().get(first as usize) {
            Some(bits) => bits.as_slice(),
            None => &[],
        }
    }

    /// The first of the bits of the top with that first net which does not come before this bit, where there is one. It takes time in
    /// proportion to the logarithm of their number, and no memory.
    pub fn bit_from(&self, first: u32, port: u32, bit: u32) -> Option<OwnBit>
        requires { AllPairs (λ a b. BitBefore (bit_of a) (bit_of b)) (bits_in self.now first) }
        ensures { IsNextBit (bits_in self.now first) (record { port = port; bit = bit }) result }
    {
        let bits = self.bits(first);
        let count = count_before(bits, port, bit);
        bit_in(bits, count)
    }
}

/// The bit at a place, where there is one.
fn bit_in(bits: &[OwnBit], place: usize) -> Option<OwnBit>
    ensures { result ≡ slice_get bits.now place }
{
    bits.get(place).copied()
}

/// How many of the bits, which are in order, come before this one.
fn count_before(bits: &[OwnBit], port: u32, bit: u32) -> usize
    requires { AllPairs (λ a b. BitBefore (bit_of a) (bit_of b)) bits.now }
    ensures { IsCountOf (λ own. bit_before (bit_of own) (record { port = port; bit = bit })) bits.now result }
{
    bits.partition_point(
        |own: &OwnBit| -> bool
            ensures { result ≡ bit_before (bit_of own.now) (record { port = port; bit = bit }) }
        { comes_before(*own, port, bit) },
    )
}

/// Whether the bit comes before this one.
fn comes_before(own: OwnBit, port: u32, bit: u32) -> bool
    ensures { result ≡ bit_before (bit_of own) (record { port = port; bit = bit }) }
{
    own.port < port || (own.port == port && own.bit < bit)
}
