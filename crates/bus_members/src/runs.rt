//! Runs: nets one after another that stand for the bits of one bus.
ghost use Rattle.std.specs.Prelude.{◌≡◌, ◌≤◌, IfSome, [], length, option_and_then, slice_get, take, true, unwrap_or, ℕ};
ghost use Rattle.std.specs.Cmp.Lexicographic.{pointwise};
ghost use Rattle.std.specs.Option.{option_copied};
ghost use Rattle.netlist_schema.specs.Design.{insts_of, nets_of};
ghost use Rattle.netlist_schema.specs.Types.{Port};
ghost use Rattle.netlist_schema.specs.Width.{IsWidth};
ghost use Rattle.bus_members.specs.Widths.{HasNet, ports_among, width_at};
ghost use Rattle.netlist_bus_spec.specs.Members.{member_name};
ghost use Rattle.netlist_bus_spec.specs.Runs.{are_members, is_bit, is_member, run_name, run_width, stem};
ghost use Rattle.netlist_bus_spec.specs.Same.{same_name};

use crate::members::is_numbered;
use netlist_schema::{
    CellBody, CellId, Each, End, Inst, Listed, MOST_WIDTH, Net, PartsRef, Port, Shown, Text,
};

/// What the ends of the nets of a cell are judged by: the design, the cell's ports and its instances.
#[derive(Clone, Copy)]
struct Inside<'a, S> {
    design: &'a S,
    own: &'a [Port],
    insts: &'a PartsRef<'a, Listed<Inst>>,
}

/// The port of an end: of the cell itself, or of the cell of an instance. Takes no memory.
fn port_of<'a, S: Shown>(inside: &Inside<'a, S>, end: &End) -> Option<&'a Port>
    ensures { option_copied result ≡ slice_get (ports_among (S.design inside.now.design.now) inside.now.own.now inside.now.insts.now end.now.inst) end.now.port }
{
    let port = end.port as usize;
    let Some(place) = end.inst else {
        return inside.own.get(port);
    };
    let Some(inst) = inside.insts.get(place as usize) else {
        return None;
    };
    match inside.design.cell(inst.of) {
        Some(body) => body.ports.as_slice().get(port),
        None => None,
    }
}

/// The width of the array port of an end, where it is at one. Takes no memory.
fn array_width<S: Shown>(inside: &Inside<S>, end: &End) -> Option<u32>
    ensures width { IfSome result IsWidth }
    ensures value { result ≡ option_and_then (λ (p : Port). p.array) (slice_get (ports_among (S.design inside.now.design.now) inside.now.own.now inside.now.insts.now end.now.inst) end.now.port) }
{
    let Some(port) = port_of(inside, end) else {
        return None;
    };
    match &port.array {
        Some(width) => Some(width.get()),
        None => None,
    }
}

/// A text without its last three bytes. Takes no memory.
pub fn stem(text: &[u8]) -> &[u8]
    ensures { result.now ≡ stem text.now }
{
    &text[..text.len().saturating_sub(3)]
}

/// The bytes of a shown text, none where there is none. Takes no memory.
fn shown_bytes(shown: &Option<Text>) -> &[u8]
    ensures { result.now ≡ unwrap_or shown.now [] }
{
    match shown {
        Some(text) => text.as_slice(),
        None => &[],
    }
}

/// Whether a net has the name of number `k` in the run that begins with another net. Takes no memory.
fn is_named(first: &Net, k: u32, net: &Net) -> bool
    ensures { result ≡ same_name net.now.name (member_name (run_name first.now) k) }
{
    let Some(shown) = &net.name.shown else {
        return false;
    };
    is_numbered(
        net.name.id.as_slice(),
        stem(first.name.id.as_slice()),
        b'_',
        k,
        b'_',
    ) && is_numbered(
        shown.as_slice(),
        stem(shown_bytes(&first.name.shown)),
        b'[',
        k,
        b']',
    )
}

/// Whether an end is bit `k` of an array port of this width, the one at which another end is. Takes no memory.
fn is_bit<S: Shown>(inside: &Inside<S>, width: u32, k: u32, first: &End, end: &End) -> bool
    ensures { result ≡ is_bit (ports_among (S.design inside.now.design.now) inside.now.own.now inside.now.insts.now) width k first.now end.now }
{
    first.inst == end.inst
        && first.port == end.port
        && end.bit == k
        && array_width(inside, end) == Some(width)
}

/// Whether the ends of a net are bit `k` of the ports of this width at which those of another net are. Takes no memory.
fn are_bits<S: Shown>(inside: &Inside<S>, width: u32, k: u32, firsts: &[End], ends: &[End]) -> bool
    ensures { result ≡ pointwise (is_bit (ports_among (S.design inside.now.design.now) inside.now.own.now inside.now.insts.now) width k) firsts.now ends.now }
{
    if firsts.len() != ends.len() {
        return false;
    }
    for (first, end) in firsts.iter().zip(ends) {
        if !is_bit(inside, width, k, first, end) {
            return false;
        }
    }
    true
}

/// Whether a net has the number `k` in the run of this width that begins with another net. Takes no memory.
fn is_member<S: Shown>(inside: &Inside<S>, width: u32, first: &Net, k: u32, net: &Net) -> bool
    ensures { result ≡ is_member (ports_among (S.design inside.now.design.now) inside.now.own.now inside.now.insts.now) width first.now k net.now }
{
    is_named(first, k, net)
        && net.properties == first.properties
        && are_bits(inside, width, k, first.ends.as_slice(), net.ends.as_slice())
}

/// How many of the first nets, at most `width`, are in the run of this width that begins with the first of them. Takes no memory.
fn members<S: Shown>(
    inside: &Inside<S>,
    width: u32,
    first: &Net,
    nets: &Each<'_, Listed<Net>>,
) -> u32
    ensures most { result ≤ width }
    ensures within { result ≤ length nets.now }
    ensures members { are_members (ports_among (S.design inside.now.design.now) inside.now.own.now inside.now.insts.now) width first.now 0 (take result nets.now) ≡ true }
    ensures greatest { (v : ℕ) → v ≤ width → v ≤ length nets.now → are_members (ports_among (S.design inside.now.design.now) inside.now.own.now inside.now.insts.now) width first.now 0 (take v nets.now) ≡ true → v ≤ result }
{
    let mut count = 0;
    for net in nets.again() {
        if count >= width || !is_member(inside, width, first, count, net) {
            return count;
        }
        count += 1;
    }
    count
}

/// The first of these nets.
fn first_of<'a>(nets: &Each<'a, Listed<Net>>) -> Option<&'a Net>
    ensures value { option_copied result ≡ slice_get nets.now 0 }
{
    match nets.first() {
        Some(net) => Some(net.get()),
        None => None,
    }
}

/// The greatest width of the runs that begin with the first of these nets, in a cell with these ports and instances; 1 where none
/// does. Takes no memory.
pub fn run_from<S: Shown>(
    design: &S,
    own: &[Port],
    insts: &PartsRef<'_, Listed<Inst>>,
    nets: &Each<'_, Listed<Net>>,
) -> u32
    ensures { result ≡ run_width (ports_among (S.design design.now) own.now insts.now) nets.now }
{
    let inside = Inside { design, own, insts };
    let Some(first) = first_of(nets) else {
        return 1;
    };
    if stem(first.name.id.as_slice()).is_empty() {
        return 1;
    }
    let Some(end) = first.ends.as_slice().first() else {
        let count = members(&inside, MOST_WIDTH, first, nets);
        return if count < 2 { 1 } else { count };
    };
    let Some(width) = array_width(&inside, end) else {
        return 1;
    };
    if members(&inside, width, first, nets) < width {
        return 1;
    }
    width
}

/// The nets of a cell: none of a leaf.
fn nets_of(body: &CellBody) -> PartsRef<'_, Listed<Net>>
    ensures { result ≡ nets_of body.now }
{
    let Some(contents) = &body.contents else {
        return PartsRef::none();
    };
    contents.nets.lent()
}

/// The instances of a cell: none of a leaf.
fn insts_of(body: &CellBody) -> PartsRef<'_, Listed<Inst>>
    ensures { result ≡ insts_of body.now }
{
    let Some(contents) = &body.contents else {
        return PartsRef::none();
    };
    contents.insts.lent()
}

/// The greatest width of the runs that begin at a net of a cell, and 1 where none does. Takes no memory.
pub fn run_at<S: Shown>(design: &S, cell: CellId, net: u32) -> u32
    requires { HasNet (S.design design.now) cell net }
    ensures { result ≡ width_at (S.design design.now) cell net }
{
    let Some(body) = design.cell(cell) else {
        return 1;
    };
    let nets = nets_of(body);
    run_from(
        design,
        body.ports.as_slice(),
        &insts_of(body),
        &nets.iter_from(net as usize),
    )
}
