//! The plain flattening: all nets listed, and the meets gone over until nothing changes.
ghost use Rattle.std.specs.Prelude.{◌≡◌, ◌↔◌, Err, IfOk, None};
ghost use Rattle.std.specs.List.{flat_map};
ghost use Rattle.netlist_schema.specs.Valid.{IsValid};
ghost use Rattle.flat_spec.specs.Flattening.{flattening};
ghost use Rattle.flat_spec.specs.Occurrences.{occurrences};
ghost use Rattle.design_model.specs.Items.{items_below};
ghost use Rattle.design_model.specs.Tables.{AreTreeNets};

use crate::firsts::list_firsts;
use crate::items::add_items;
use crate::tree_nets::TreeNets;
use crate::walk::{Occurrence, list_nets, list_occurrences};
use flat_spec::Item;
use netlist_schema::{CellId, NoMemory, Row, Shown};
use std::alloc::Global;

/// Why there is no flattening.
#[derive(Debug, PartialEq, Eq, Drop)]
pub enum PlainError {
    /// The design has no top.
    NoTop,
    /// An allocation was refused.
    NoMemory,
}

/// The items of all occurrences below the root, which are these.
fn list_items<S: Shown>(
    alloc: Global,
    design: &S,
    nets: &TreeNets,
    listed: &[Occurrence],
) -> Result<Vec<Item>, NoMemory>
    requires valid { IsValid (S.design design.now) }
    requires nets { AreTreeNets (S.design design.now) nets.now }
    requires listed { listed.now ≡ occurrences (S.design design.now) nets.now.root }
    ensures { IfOk result (λ items. items.items ≡ flat_map (items_below (S.design design.now) nets.now.root) listed.now) }
{
    let mut items = Vec::new(alloc);
    for occurrence in listed {
        add_items(alloc, design, nets, occurrence, &mut items)?;
    }
    Ok(items)
}

/// The items of all occurrences below the root.
fn flat_below<S: Shown>(alloc: Global, design: &S, root: CellId) -> Result<Row<Item>, NoMemory>
    requires { IsValid (S.design design.now) }
    ensures { IfOk result (λ items. items ≡ flat_map (items_below (S.design design.now) root) (occurrences (S.design design.now) root)) }
{
    let listed = list_occurrences(alloc, design, root)?;
    let nets = list_nets(alloc, design, listed.as_slice())?;
    let places = list_firsts(alloc, design, root, nets.as_slice())?;
    let table = TreeNets { root, nets, places };
    let items = list_items(alloc, design, &table, listed.as_slice())?;
    Ok(Row::of(items))
}

/// The flattening of a design, as one list. `NoTop` comes exactly where the design has no top.
///
/// It keeps all items at once, and compares each net of the tree with each other until nothing changes: a plain way, for some
/// thousand nets.
pub fn plain_flat<S: Shown>(alloc: Global, design: &S) -> Result<Row<Item>, PlainError>
    ensures items { IfOk result (λ items. items ≡ flattening (S.design design.now)) }
    ensures no_top { (result ≡ Err PlainError.NoTop) ↔ ((S.design design.now).top ≡ None) }
{
    match design.top() {
        None => Err(PlainError::NoTop),
        Some(top) => match flat_below(alloc, design, top.cell) {
            Ok(items) => Ok(items),
            Err(_) => Err(PlainError::NoMemory),
        },
    }
}
