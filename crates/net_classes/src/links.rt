//! Which nets of a contents are linked by one instance.
ghost use Rattle.std.specs.Prelude.{◌≡◌, Contains, IfOk, OnOk, map};
ghost use Rattle.std.specs.BTreeMap.{get};
ghost use Rattle.net_classes.specs.Facts.{facts_of};
ghost use Rattle.net_classes.specs.Links.{IsLinkAdded, MeetInClass, StandFor, class_cmp, class_in};

use crate::joints::Joint;
use crate::tables::{CellNets, table_of};
use flat_joined_numbers::Pair;
use netlist_schema::{Inst, Listed, NoMemory, PartsRef};
use std::alloc::Global;
use std::collections::BTreeMap;

/// Own bits of an instance's cell that are connected in its tree: the instance, and the first net inside that joins one of them.
#[derive(Clone, Copy, Debug, PartialEq, Eq, PartialOrd, Ord)]
pub struct Class {
    pub inst: u32,
    pub first: u32,
}

/// The connected own bits to which the joint leads, where a net inside joins its bit.
fn class_of(
    cells: &[Vec<CellNets>],
    insts: &PartsRef<'_, Listed<Inst>>,
    joint: Joint,
) -> Option<Class>
    ensures { result ≡ class_in (map (λ row. map facts_of row.items) cells.now) insts.now joint }
{
    let inst = insts.get(joint.inst as usize)?;
    let inside = table_of(cells, inst.of)?;
    let first = inside.first_at(joint.port, joint.bit)?;
    Some(Class {
        inst: joint.inst,
        first,
    })
}

/// For each joint whose class an earlier joint has, the pair of their nets.
pub(crate) fn list_links(
    alloc: Global,
    cells: &[Vec<CellNets>],
    insts: &PartsRef<'_, Listed<Inst>>,
    joints: &[Joint],
) -> Result<Vec<Pair>, NoMemory>
    ensures { IfOk result (λ pairs. StandFor (MeetInClass (class_in (map (λ row. map facts_of row.items) cells.now) insts.now) (Contains joints.now)) pairs.items) }
{
    let mut seen = BTreeMap::new(alloc);
    let mut pairs = Vec::new(alloc);
    for joint in joints {
        match class_of(cells, insts, *joint) {
            Some(class) => add_link(&mut seen, class, joint.net, &mut pairs)?,
            None => {}
        }
    }
    Ok(pairs)
}

/// Pairs the net with the first one of its class, or notes it as that.
fn add_link(
    seen: &mut BTreeMap<Class, u32>,
    class: Class,
    net: u32,
    pairs: &mut Vec<Pair>,
) -> Result<(), NoMemory>
    ensures { OnOk result (IsLinkAdded (get class_cmp seen.old) pairs.old.items class net (get class_cmp seen.new) pairs.new.items (get class_cmp seen.old class)) }
{
    match seen.get(&class).copied() {
        Some(first) => pairs.push(Pair { first, second: net })?,
        None => {
            seen.insert(class, net)?;
        }
    }
    Ok(())
}
