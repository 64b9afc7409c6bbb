//! The nets of both contents as they are when the instance is dissolved, each under its own name.
ghost use Rattle.std.specs.Prelude.{◌≡◌, ◌<◌, ◌≤◌, ◌+◌, ◌^◌, IfOk, length};
ghost use Rattle.netlist_schema.specs.Types.{Inst};
ghost use Rattle.ungroup_plans.specs.Grouped.{AreGrouped, first_nets};
ghost use Rattle.ungroup_plans.specs.Heads.{AreSound, site};

use crate::ends::list_ends;
use crate::heads::list_heads;
use crate::lists::gather;
use netlist_schema::{Contents, Copied, End, Listed, Net, NoMemory, Parts, Row};
use std::alloc::Global;

/// The first nets of all groups, each with the ends of its group: those of the nets around the instance, without those on it, and
/// then those of the nets within it, without the cell's own.
#[derive(Debug, Drop)]
pub struct Grouped {
    /// Nets around the instance, in order. They stay.
    pub kept: Row<Listed<Net>>,
    /// Nets within it, in order. They become new nets.
    pub loose: Row<Listed<Net>>,
}

/// The net with other ends.
fn with_ends(alloc: Global, net: &Listed<Net>, ends: &Row<End>) -> Result<Listed<Net>, NoMemory>
    ensures { IfOk result (λ made. made ≡ record net.now { ends = ends.now }) }
{
    let net = net.get();
    let made = Net {
        name: net.name.copy(alloc)?,
        ends: ends.copy(alloc)?,
        properties: net.properties.share()?,
    };
    Listed::of(alloc, made)
}

/// The nets whose numbers stand for themselves, with the ends that are listed for them. The first is numbered as that many.
fn first_nets(
    alloc: Global,
    nets: &Parts<Listed<Net>>,
    behind: usize,
    heads: &[u32],
    lists: &[Row<End>],
) -> Result<Row<Listed<Net>>, NoMemory>
    requires heads { behind + length nets.now ≤ length heads.now }
    requires lists { length lists.now ≡ length heads.now }
    requires few { length heads.now < 2 ^ 32 }
    ensures { IfOk result (λ made. made ≡ first_nets behind heads.now lists.now nets.now) }
{
    let mut made = Vec::new(alloc);
    for place in 0..nets.len() {
        let net = nets.at(place);
        let number = behind + place;
        if heads[number] as usize == number {
            made.push(with_ends(alloc, net, &lists[number])?)?;
        }
    }
    Ok(Row::of(made))
}

/// The first nets of all groups when the instance at a place is dissolved into the contents around it. Nets are of one group where a
/// list leads from one to the other in which each two neighbours join one bit of the instance, one of them from around it and one
/// from within.
///
/// It takes time in proportion to the nets and their ends, times a logarithm of the number of the instance's bits that are joined.
pub(crate) fn group_nets(
    alloc: Global,
    around: &Contents,
    place: u32,
    within: &Contents,
) -> Result<Grouped, NoMemory>
    requires around { AreSound around.now }
    requires within { AreSound within.now }
    requires place { place < length around.now.insts }
    ensures { IfOk result (λ made. (inst : Inst) → AreGrouped (site around.now place inst within.now) made) }
{
    let heads = list_heads(alloc, around, place, within)?;
    let ends = list_ends(alloc, around, place, within)?;
    let lists = gather(alloc, heads.as_slice(), ends.as_slice())?;
    let outer = &around.nets;
    let kept = first_nets(alloc, outer, 0, heads.as_slice(), lists.as_slice())?;
    let inner = &within.nets;
    let loose = first_nets(
        alloc,
        inner,
        outer.len(),
        heads.as_slice(),
        lists.as_slice(),
    )?;
    Ok(Grouped { kept, loose })
}
