//! Items of the flattening, made of what was found.
ghost use Rattle.std.specs.Prelude.{◌≡◌, IfOk};
ghost use Rattle.flat_spec.specs.Paths.{at_path};
ghost use Rattle.flat_items.specs.Lent.{net_of, properties_of};
ghost use Rattle.netdb_questions.specs.Items.{effective_at, first_item, net_item, occurrence_item};

use db_version::Snapshot;
use flat_ask::Ask;
use flat_items::{ItemRef, NetRef, PropertiesRef};
use flat_spec::Item;
use netlist_schema::{CellId, NoMemory};
use std::alloc::Global;

/// The effective properties of the occurrence at a path, lent: none where there is no such occurrence.
fn effective_at<'a>(ask: &'a Ask<Snapshot>, path: &[u32]) -> Result<PropertiesRef<'a>, NoMemory>
    ensures { IfOk result (λ properties. properties_of properties ≡ effective_at ask.now path.now) }
{
    let found = ask.properties_of(path)?;
    match found {
        Some(properties) => Ok(properties),
        None => Ok(PropertiesRef {
            base: &[],
            notes: &[],
            places: &[],
        }),
    }
}

/// The occurrence at a path, which is of that cell.
pub(crate) fn occurrence_made(
    alloc: Global,
    ask: &Ask<Snapshot>,
    path: &[u32],
    cell: CellId,
) -> Result<Item, NoMemory>
    ensures { IfOk result (λ item. item ≡ occurrence_item ask.now path.now cell) }
{
    let properties = effective_at(ask, path)?;
    let item = ItemRef::Enter {
        path,
        cell,
        properties,
    };
    item.made(alloc)
}

/// A net that is its own first.
pub(crate) fn first_made(alloc: Global, first: NetRef<'_>) -> Result<Item, NoMemory>
    ensures { IfOk result (λ item. item ≡ first_item (net_of first.entry)) }
{
    let item = ItemRef::Net {
        path: first.path,
        net: first.net,
        first,
    };
    item.made(alloc)
}

/// A net of the occurrence at a path.
pub(crate) fn net_made(
    alloc: Global,
    ask: &Ask<Snapshot>,
    path: &[u32],
    net: u32,
) -> Result<Item, NoMemory>
    ensures { IfOk result (λ item. item ≡ net_item ask.now (at_path path.now net)) }
{
    let first = ask.first_of(path, net)?;
    let item = ItemRef::Net { path, net, first };
    item.made(alloc)
}
