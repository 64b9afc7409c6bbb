//! The ways from the nets inside an instance to those of its parent.
ghost use Rattle.std.specs.Prelude.{◌≡◌, ◌++◌, IfOk, OnOk, false, map, slice_get, true};
ghost use Rattle.std.specs.List.{AllPairs};
ghost use Rattle.std.specs.Option.{option_copied, option_to_list};
ghost use Rattle.net_ways.specs.Ways.{AreEach, AreWays, AreWaysInto, AreWaysOf, IsFrom, IsOuter, WayUpto, joints_in, way_before, way_of, ways_in};
ghost use Rattle.net_ways.specs.Counts.{IsCountOf};

use flat_lookup::inst_at;
use net_classes::{Classes, Joint};
use netlist_schema::{CellId, LibId, NoMemory, Shown};
use std::alloc::Global;
use std::marker::Model;

/// A net that joins a bit of an instance which is connected inside with this first net. Ways are ordered by instance and first net.
#[derive(Clone, Copy, Debug, PartialEq, Eq, PartialOrd, Ord)]
pub(crate) struct Way {
    pub inst: u32,
    pub first: u32,
    pub net: u32,
}

/// The ways up into each cell at or below the top.
pub struct Ways {
    /// By library and place.
    cells: Vec<Vec<Vec<Way>>>,
}

impl Drop for Ways {
    fn drop(self) {
        let Ways { cells: _ } = self;
    }
}

impl Model for Ways {
    ghost use Rattle.std.specs.Prelude.{List, map};
    ghost use Rattle.net_ways.specs.declared.ways.Way.{Way};

    ghost Value = { List (List (List Way)) };

    ghost view = { λ s. map (λ row. map (λ ways. ways.items) row.items) s.cells.items };
}

/// The way by a joint of a cell, where its bit is connected inside with a net.
fn way_of<S: Shown>(design: &S, classes: &Classes, cell: CellId, joint: &Joint) -> Option<Way>
    ensures { result ≡ way_of (S.design design.now) classes.now cell joint.now }
{
    let inst = inst_at(design, cell, joint.inst)?;
    let first = classes.first_at(inst.of, joint.port, joint.bit)?;
    Some(Way {
        inst: joint.inst,
        first,
        net: joint.net,
    })
}

/// Adds a way, where there is one.
fn add_way(ways: &mut Vec<Way>, way: Option<Way>) -> Result<(), NoMemory>
    ensures { OnOk result (ways.new.items ≡ ways.old.items ++ option_to_list way) }
{
    match way {
        Some(way) => {
            ways.push(way)?;
            Ok(())
        }
        None => Ok(()),
    }
}

/// The ways by the joints of a cell, each.
fn all_ways<S: Shown>(
    alloc: Global,
    design: &S,
    classes: &Classes,
    cell: CellId,
) -> Result<Vec<Way>, NoMemory>
    ensures { IfOk result (λ ways. AreEach (S.design design.now) classes.now cell (joints_in classes.now cell) ways.items) }
{
    let mut ways = Vec::new(alloc);
    let joints = classes.joints(cell);
    for joint in joints {
        let way = way_of(design, classes, cell, joint);
        add_way(&mut ways, way)?;
    }
    Ok(ways)
}

/// The ways into a cell, in order.
fn ways_into<S: Shown>(
    alloc: Global,
    design: &S,
    classes: &Classes,
    cell: CellId,
) -> Result<Vec<Way>, NoMemory>
    ensures { IfOk result (λ ways. AreWaysInto (S.design design.now) classes.now cell ways.items) }
{
    let mut ways = all_ways(alloc, design, classes, cell)?;
    ways.sort()?;
    Ok(ways)
}

/// The ways into the cells of a library, of which there are so many.
fn row_of<S: Shown>(
    alloc: Global,
    design: &S,
    classes: &Classes,
    lib: LibId,
    count: u32,
) -> Result<Vec<Vec<Way>>, NoMemory>
    ensures { IfOk result (λ row. AreWaysOf (S.design design.now) classes.now lib.0 count (map (λ ways. ways.items) row.items)) }
{
    let mut row = Vec::new(alloc);
    for slot in 0..count {
        let ways = ways_into(alloc, design, classes, CellId { lib, slot })?;
        row.push(ways)?;
    }
    Ok(row)
}

/// Whether the way comes before those of that instance and first net.
fn comes_before(way: &Way, inst: u32, first: u32) -> bool
    ensures { result ≡ way_before inst first way.now }
{
    if way.inst != inst {
        return way.inst < inst;
    }
    way.first < first
}

/// How many of the ways, which are in order, come before those of that instance and first net.
fn count_before(ways: &[Way], inst: u32, first: u32) -> usize
    requires { AllPairs WayUpto ways.now }
    ensures { IsCountOf (way_before inst first) ways.now result }
{
    ways.partition_point(
        |way: &Way| -> bool
            ensures { result ≡ way_before inst first way.now }
        { comes_before(way, inst, first) },
    )
}

/// The way at a place, where there is one.
fn way_in(ways: &[Way], place: usize) -> Option<&Way>
    ensures { option_copied result ≡ slice_get ways.now place }
{
    ways.get(place)
}

/// Whether the way is that of an instance and first net.
fn is_from(way: &Way, inst: u32, first: u32) -> bool
    ensures yes { result ≡ true → IsFrom inst first way.now }
    ensures no { result ≡ false → IsFrom inst first way.now → ⊥ }
{
    way.inst == inst && way.first == first
}

/// A net that joins a bit of an instance which is connected inside with a first net, by the ways in order.
fn way_at(ways: &[Way], inst: u32, first: u32) -> Option<u32>
    requires { AllPairs WayUpto ways.now }
    ensures { IsOuter ways.now inst first result }
{
    let count = count_before(ways, inst, first);
    let Some(way) = way_in(ways, count) else {
        return None;
    };
    if is_from(way, inst, first) {
        Some(way.net)
    } else {
        None
    }
}

impl Ways {
    /// The ways into the cells of a design, by what is known of them. The one error is that an allocation was refused.
    ///
    /// It takes time and memory in proportion to the ends at and below the top, times a logarithm of their number in a cell.
    pub fn of<S: Shown>(alloc: Global, design: &S, classes: &Classes) -> Result<Ways, NoMemory>
        ensures { IfOk result (AreWays (S.design design.now) classes.now) }
    {
        let mut cells = Vec::new(alloc);
        for lib in 0..design.lib_count() {
            let count = design.cell_count(LibId(lib));
            let row = row_of(alloc, design, classes, LibId(lib), count)?;
            cells.push(row)?;
        }
        Ok(Ways { cells })
    }

    /// The ways into a cell. Takes no memory.
    fn into_cell(&self, cell: CellId) -> &[Way]
        ensures { result.now ≡ ways_in self.now cell }
    {
        let Some(row) = self.cells.as_slice().get(cell.lib.0 as usize) else {
            return &[];
        };
        match row.as_slice().get(cell.slot as usize) {
            Some(ways) => ways.as_slice(),
            None => &[],
        }
    }

    /// A net of a cell that joins a bit of its instance which is connected inside with a first net: `None` exactly where none does. It
    /// takes time in proportion to the logarithm of the ends in the cell, and no memory.
    pub(crate) fn outer_net(&self, up: CellId, inst: u32, first: u32) -> Option<u32>
        requires { AllPairs WayUpto (ways_in self.now up) }
        ensures { IsOuter (ways_in self.now up) inst first result }
    {
        way_at(self.into_cell(up), inst, first)
    }
}
