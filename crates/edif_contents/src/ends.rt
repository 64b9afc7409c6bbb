//! Ends of nets.
ghost use Rattle.std.specs.Prelude.{◌≡◌, ◌∷◌, [], ◌≤◌, ◌<◌, ℕ, List, Option, IfNone, IfSome, length, map, pos, true};
ghost use Rattle.std.specs.List.{AllByRecursion};
ghost use Rattle.edif_spelling_spec.specs.Tree.{Placed, Word', bare};
ghost use Rattle.edif_spec.specs.Design as design;
ghost use Rattle.edif_spec.specs.Faults.{Among};
ghost use Rattle.edif_spec.specs.Keyword.{AForm, AnIdentifier};
ghost use Rattle.edif_spec.specs.Means.{MeansBits, MeansInstRef, meant, width_at};
ghost use Rattle.edif_spec.specs.Rows.{Perhaps, has_keyword, is_one_of};
ghost use Rattle.edif_spec.specs.Stands.{BitFault, InstRefFault};
ghost use Rattle.edif_spec.specs.declared.keyword.Keyword.TheVariants.{InstanceRef, Member, PortRef};
ghost use Rattle.edif_tree.specs.Handles.{here, all};
ghost use Rattle.edif_contents.specs.Ends.{AreNamed, EndFaultIn, ReadEnd, ports_for};
ghost use Rattle.edif_parts.specs.Names.{Tells, ids};
ghost use Rattle.edif_parts.specs.Reading.{Answers};

use crate::known::Libraries;
use crate::references::{Reference, read_reference, reference_at, resolve};
use bus_members::width;
use edif_names::Meant;
use edif_parts::{EdifError, Names, fault_at, integer_at, read_parts};
use edif_spec::{Keyword, Kind, Stretch};
use edif_tree::{Node, Nodes, Shape};
use netlist_schema::{Ident, Inst, Listed, Port};
use std::alloc::Global;

/// What the ends of nets are judged by: the libraries, the ports of the cell and its instances, with their names.
#[derive(Clone, Copy)]
pub struct Surroundings<'a> {
    /// The libraries so far.
    pub libs: &'a Libraries,
    /// The ports of the cell.
    pub ports: &'a [Port],
    /// Their names.
    pub port_names: &'a Names,
    /// The instances of the cell.
    pub insts: &'a [Listed<Inst>],
    /// Their names.
    pub inst_names: &'a Names,
}

/// Bits of a port among some ports.
#[derive(Clone, Copy)]
pub struct Bits {
    /// The place of the port.
    pub port: u32,
    /// The place of the first bit in the port.
    pub first: u32,
    /// How many bits.
    pub width: u32,
}

/// An end, and where its bits are named.
#[derive(Clone, Copy)]
pub struct EndAt {
    /// The bits.
    pub stretch: Stretch,
    /// The number of bytes before the identifier of the port, or before the `(` of a member.
    pub place: u64,
}

/// The place of the instance that a reference at a node means.
fn read_inst_ref(alloc: Global, node: Node<'_>, names: &Names) -> Result<u32, EdifError>
    requires { has_keyword InstanceRef (bare (here node)) ≡ true }
    ensures { (insts : List design.Inst) → ids names.now ≡ design.inst_ids insts → Answers (MeansInstRef insts (bare (here node.entry))) (InstRefFault insts (here node.entry)) result }
{
    let name = read_reference(alloc, node, Keyword::InstanceRef)?;
    resolve(names.meant(name.name), name.place)
}

/// The place of the instance that what follows the bit of an end means, where an instance follows.
fn read_inst_among(alloc: Global, inner: Nodes<'_>, names: &Names) -> Result<Option<u32>, EdifError>
    requires { AllByRecursion (λ u. has_keyword InstanceRef (bare u) ≡ true) (all inner) × (length (all inner) ≤ 1) }
    ensures { (insts : List design.Inst) → ids names.now ≡ design.inst_ids insts
        → Answers (Perhaps (MeansInstRef insts) (map bare (all inner.entry))) (Among (InstRefFault insts) (all inner.entry)) result }
{
    match inner.split_first() {
        Some((node, _)) => {
            let inst = read_inst_ref(alloc, node, names)?;
            Ok(Some(inst))
        }
        None => Ok(None),
    }
}

/// What a name means among the ports of an end. Takes no memory.
fn port_meant(around: &Surroundings, inst: Option<u32>, name: &Ident) -> Meant
    requires { AreNamed around.now }
    ensures { Tells (meant (design.port_ids (ports_for around.now inst)) name.now) result }
{
    match inst {
        None => around.port_names.meant(name),
        Some(inst) => match around.insts.get(inst as usize) {
            Some(inst) => around.libs.port(inst.of, name),
            None => Meant::Absent,
        },
    }
}

/// The number of bits of a port, 0 where there is no such port. Takes no memory.
fn width_of(ports: &[Port], port: u32) -> u32
    ensures { result ≡ width_at ports.now port }
{
    match ports.get(port as usize) {
        Some(port) => width(port),
        None => 0,
    }
}

/// The number of bits of a port of an end, 0 where there is no such port. Takes no memory.
fn port_width(around: &Surroundings, inst: Option<u32>, port: u32) -> u32
    ensures { result ≡ width_at (ports_for around.now inst) port }
{
    let Some(inst) = inst else {
        return width_of(around.ports, port);
    };
    let Some(inst) = around.insts.get(inst as usize) else {
        return 0;
    };
    match around.libs.body(inst.of) {
        Some(cell) => width_of(cell.ports.as_slice(), port),
        None => 0,
    }
}

/// An index as the place of a bit in a port of this width, where there is such a bit.
fn bit_below(index: i64, width: u32) -> Option<u32>
    ensures some { IfSome result (λ bit. (index ≡ pos bit) × (bit < width)) }
    ensures none { IfNone result ((n : ℕ) → index ≡ pos n → n < width → ⊥) }
{
    match u32::try_from(index) {
        Ok(bit) if bit < width => Some(bit),
        _ => None,
    }
}

/// The bits that a port by itself means: all of them.
fn whole_port(around: &Surroundings, inst: Option<u32>, name: Reference) -> Result<Bits, EdifError>
    requires { AreNamed around.now }
    ensures { (t : Placed) → t ≡ Word' name.entry.place name.entry.name.now → Answers (λ b. MeansBits (ports_for around.now inst) (bare t) b.port b.first b.width) (BitFault (ports_for around.now inst) t) result }
{
    let port = resolve(port_meant(around, inst, name.name), name.place)?;
    let width = port_width(around, inst, port);
    Ok(Bits {
        port,
        first: 0,
        width,
    })
}

/// The bit that a member of a port means.
fn read_member(
    alloc: Global,
    node: Node<'_>,
    around: &Surroundings,
    inst: Option<u32>,
) -> Result<Bits, EdifError>
    requires keyword { has_keyword Member (bare (here node)) ≡ true }
    requires names { AreNamed around.now }
    ensures { Answers (λ b. MeansBits (ports_for around.now inst) (bare (here node.entry)) b.port b.first b.width) (BitFault (ports_for around.now inst) (here node.entry)) result }
{
    let parts = read_parts(alloc, node, Keyword::Member)?;
    let name = reference_at(parts.fixed.at(0));
    let port = resolve(port_meant(around, inst, name.name), name.place)?;
    let index = parts.fixed.at(1);
    match bit_below(integer_at(index), port_width(around, inst, port)) {
        Some(first) => Ok(Bits {
            port,
            first,
            width: 1,
        }),
        None => Err(fault_at(Kind::BadIndex, index.place())),
    }
}

/// The bits that a port, or a member of one, at a node means.
fn read_bits(
    alloc: Global,
    node: Node<'_>,
    around: &Surroundings,
    inst: Option<u32>,
) -> Result<Bits, EdifError>
    requires choice { is_one_of (AnIdentifier ∷ AForm Member ∷ []) (bare (here node)) ≡ true }
    requires names { AreNamed around.now }
    ensures { Answers (λ b. MeansBits (ports_for around.now inst) (bare (here node.entry)) b.port b.first b.width) (BitFault (ports_for around.now inst) (here node.entry)) result }
{
    match node.shape() {
        Shape::Word(_) => whole_port(around, inst, reference_at(node)),
        _ => read_member(alloc, node, around, inst),
    }
}

/// The end that a form at a node means, and where its bits are named.
pub(crate) fn read_end(
    alloc: Global,
    node: Node<'_>,
    around: &Surroundings,
) -> Result<EndAt, EdifError>
    requires keyword { has_keyword PortRef (bare (here node)) ≡ true }
    requires names { AreNamed around.now }
    ensures { Answers (ReadEnd around.now (here node.entry)) (EndFaultIn around.now (here node.entry)) result }
{
    let parts = read_parts(alloc, node, Keyword::PortRef)?;
    let inst = read_inst_among(alloc, parts.inner, around.inst_names)?;
    let named = parts.fixed.at(0);
    let found = read_bits(alloc, named, around, inst)?;
    Ok(EndAt {
        stretch: Stretch {
            inst,
            port: found.port,
            first: found.first,
            width: found.width,
        },
        place: named.place(),
    })
}
