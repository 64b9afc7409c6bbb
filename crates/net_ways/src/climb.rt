//! From a net of an occurrence up to the first net of the design that is connected with it.
ghost use Rattle.std.specs.Prelude.{◌≡◌, ◌<◌, ◌≤◌, ◌∷◌, [], IfOk, Some, length, slice_get, take};
ghost use Rattle.std.specs.Option.{option_map};
ghost use Rattle.flat_spec.specs.Paths.{at_path};
ghost use Rattle.flat_spec.specs.Representatives.{representative};
ghost use Rattle.flat_items.specs.Lent.{net_of};
ghost use Rattle.flat_items.specs.Stand.{IsGround, top_of};
ghost use Rattle.ask_spec.specs.Nets.{first_of};
ghost use Rattle.net_ways.specs.Climb.{AreCellsOn, IsCellsAnswer, IsNetOn};
ghost use Rattle.net_ways.specs.Ways.{AreWays, firsts_in};

use crate::ways::Ways;
use flat_items::{Ground, NetRef};
use flat_lookup::{inst_at, net_count};
use net_classes::Classes;
use netlist_schema::{CellId, LibId, NoMemory, Shown};
use std::alloc::Global;

/// The cell of the top.
pub fn top_cell<S: Shown>(design: &S) -> CellId
    ensures { result ≡ (top_of (S.design design.now)).cell }
{
    match design.top() {
        Some(top) => top.cell,
        None => CellId {
            lib: LibId(0),
            slot: 0,
        },
    }
}

/// The root's cell, alone.
fn alone(alloc: Global, root: CellId) -> Result<Vec<CellId>, NoMemory>
    ensures { IfOk result (λ cells. cells.items ≡ root ∷ []) }
{
    let mut cells = Vec::new(alloc);
    cells.push(root)?;
    Ok(cells)
}

/// The cells of the occurrences on a path, from the root to its end: `None` exactly where the path leads nowhere.
fn cells_along<S: Shown>(
    alloc: Global,
    design: &S,
    root: CellId,
    path: &[u32],
) -> Result<Option<Vec<CellId>>, NoMemory>
    ensures { IfOk result (λ found. IsCellsAnswer (S.design design.now) root path.now (option_map (λ cells. cells.items) found)) }
{
    let mut cells = alone(alloc, root)?;
    let mut cell = root;
    for step in path {
        let Some(inst) = inst_at(design, cell, *step) else {
            return Ok(None);
        };
        cell = inst.of;
        cells.push(cell)?;
    }
    Ok(Some(cells))
}

/// The same from the top.
pub(crate) fn cells_from_top<S: Shown + Drop>(
    ground: &Ground<S>,
    path: &[u32],
) -> Result<Option<Vec<CellId>>, NoMemory>
    ensures { IfOk result (λ found. IsCellsAnswer (S.design ground.now.design) (top_of (S.design ground.now.design)).cell path.now (option_map (λ cells. cells.items) found)) }
{
    cells_along(ground.alloc, &ground.design, top_cell(&ground.design), path)
}

/// The first net of the same contents that is connected inside with a net, which has one.
fn first_inside(classes: &Classes, cell: CellId, net: u32) -> u32
    requires { net < length (firsts_in classes.now cell) }
    ensures { slice_get (firsts_in classes.now cell) net ≡ Some result }
{
    let firsts = classes.firsts(cell);
    firsts[net as usize]
}

/// One of the cells on a path.
pub(crate) fn cell_on(cells: &[CellId], place: usize) -> CellId
    requires { place < length cells.now }
    ensures { slice_get cells.now place ≡ Some result }
{
    cells[place]
}

/// One of the steps of a path.
fn step_on(path: &[u32], place: usize) -> u32
    requires { place < length path.now }
    ensures { slice_get path.now place ≡ Some result }
{
    path[place]
}

/// How far up a net is connected: the length of the front of the path that leads to the first net, and that net.
#[derive(Clone, Copy)]
struct Ascent {
    depth: usize,
    first: u32,
}

/// How far up a net of the occurrence at the path is connected, by the cells on the path.
fn climbed<S: Shown + Drop>(
    ground: &Ground<S>,
    ways: &Ways,
    cells: &[CellId],
    path: &[u32],
    net: u32,
) -> Ascent
    requires ground { IsGround (S.design ground.now.design) ground.now.classes ground.now.notes }
    requires ways { AreWays (S.design ground.now.design) ground.now.classes ways.now }
    requires cells { AreCellsOn (S.design ground.now.design) (top_of (S.design ground.now.design)).cell path.now cells.now }
    requires net { IsNetOn (S.design ground.now.design) path.now cells.now net }
    ensures bound { result.depth ≤ length path.now }
    ensures named { at_path (take result.depth path.now) result.first ≡ representative (S.design ground.now.design) (top_of (S.design ground.now.design)).cell (at_path path.now net) }
{
    let classes = &ground.classes;
    let mut depth = path.len();
    let lowest = cell_on(cells, depth);
    let mut first = first_inside(classes, lowest, net);
    'up: while depth > 0 {
        let up = cell_on(cells, depth - 1);
        let step = step_on(path, depth - 1);
        let Some(outer) = ways.outer_net(up, step, first) else {
            return Ascent { depth, first };
        };
        let next = first_inside(classes, up, outer);
        first = next;
        depth -= 1;
    }
    Ascent { depth, first }
}

/// The first net of the design that is connected with a net of the occurrence at the path, on which these are the cells. It takes time in
/// proportion to the levels up to that first net, times the logarithm of the ends in a cell, and no memory.
pub(crate) fn climb<'a, S: Shown + Drop>(
    ground: &Ground<S>,
    ways: &Ways,
    cells: &[CellId],
    path: &'a [u32],
    net: u32,
) -> NetRef<'a>
    requires ground { IsGround (S.design ground.now.design) ground.now.classes ground.now.notes }
    requires ways { AreWays (S.design ground.now.design) ground.now.classes ways.now }
    requires cells { AreCellsOn (S.design ground.now.design) (top_of (S.design ground.now.design)).cell path.now cells.now }
    requires net { IsNetOn (S.design ground.now.design) path.now cells.now net }
    ensures { net_of result ≡ representative (S.design ground.now.design) (top_of (S.design ground.now.design)).cell (at_path path.now net) }
{
    let found = climbed(ground, ways, cells, path, net);
    NetRef {
        path: &path[..found.depth],
        net: found.first,
    }
}

/// The first of the nets that are connected with a net of the occurrence at the path, on which these are the cells; what is no net is its
/// own.
fn first_from<'a, S: Shown + Drop>(
    ground: &Ground<S>,
    ways: &Ways,
    cells: &[CellId],
    path: &'a [u32],
    net: u32,
) -> NetRef<'a>
    requires ground { IsGround (S.design ground.now.design) ground.now.classes ground.now.notes }
    requires ways { AreWays (S.design ground.now.design) ground.now.classes ways.now }
    requires cells { AreCellsOn (S.design ground.now.design) (top_of (S.design ground.now.design)).cell path.now cells.now }
    ensures { net_of result ≡ first_of (S.design ground.now.design) (at_path path.now net) }
{
    let cell = cell_on(cells, path.len());
    if net < net_count(&ground.design, cell) {
        climb(ground, ways, cells, path, net)
    } else {
        NetRef { path, net }
    }
}

/// The first of the nets that are connected with a net of the occurrence at a path; what is no net is its own.
pub fn first_of<'a, S: Shown + Drop>(
    ground: &Ground<S>,
    ways: &Ways,
    path: &'a [u32],
    net: u32,
) -> Result<NetRef<'a>, NoMemory>
    requires ground { IsGround (S.design ground.now.design) ground.now.classes ground.now.notes }
    requires ways { AreWays (S.design ground.now.design) ground.now.classes ways.now }
    ensures { IfOk result (λ named. net_of named ≡ first_of (S.design ground.now.design) (at_path path.now net)) }
{
    let found = cells_from_top(ground, path)?;
    match found {
        Some(cells) => Ok(first_from(ground, ways, cells.as_slice(), path, net)),
        None => Ok(NetRef { path, net }),
    }
}
