//! `Kept`: an item that outlives the walk's step, in parts whose paths serve the next items too.
ghost use Rattle.std.specs.Prelude.{◌≡◌, IfOk, IfSome, OnErr, OnOk, Some, option_map};
ghost use Rattle.std.specs.Option.{unwrap_or};
ghost use Rattle.flat_items.specs.Lent.{item_of};

use flat_items::{ItemRef, NetRef, PropertiesRef};
use flat_spec::Path;
use netlist_schema::{CellId, NoMemory, Property, Row};
use std::alloc::Global;
use std::marker::Model;

/// What an item says beside its paths.
#[derive(Drop)]
enum Part {
    Enter {
        cell: CellId,
        properties: Row<Property>,
    },
    Net {
        net: u32,
        first: u32,
    },
    Pin {
        port: u32,
        bit: u32,
        first: Option<u32>,
    },
}

/// An item. Most items have the paths of the one before, so that these are kept, and made anew only where they are others: that of the
/// item's occurrence, and that of the first net which is connected with it, or with an item before it that had one.
#[derive(Drop)]
pub struct Kept {
    path: Path,
    first: Path,
    part: Part,
}

impl Model for Kept {
    ghost use Rattle.flat_spec.specs.Types.{Item};
    ghost use Rattle.netdb_view.specs.Kept.{kept_item};

    ghost Value = { Item };

    ghost view = { λ k. kept_item k.path k.first k.part };
}

/// The path of its own, where it is not the one that is kept.
fn other(alloc: Global, kept: &Path, path: &[u32]) -> Result<Option<Path>, NoMemory>
    ensures { IfOk result (λ other. unwrap_or other kept.now ≡ path.now) }
{
    if kept.as_slice() == path {
        return Ok(None);
    }
    Ok(Some(Path::of(alloc, path)?))
}

/// Keeps the other path, where there is one.
fn replace(kept: &mut Path, other: Option<Path>)
    ensures { kept.new ≡ unwrap_or other kept.old }
{
    if let Some(path) = other {
        *kept = path;
    }
}

/// Keeps other parts.
fn set(kept: &mut Part, part: Part)
    ensures { kept.new ≡ part }
{
    *kept = part;
}

/// The path of its own of a first net, where there is one, and its path is not the one that is kept.
fn other_first(
    alloc: Global,
    kept: &Path,
    first: Option<NetRef<'_>>,
) -> Result<Option<Path>, NoMemory>
    ensures { IfOk result (λ other. IfSome first.entry (λ net. unwrap_or other kept.now ≡ net.path.now)) }
{
    match first {
        Some(first) => other(alloc, kept, first.path),
        None => Ok(None),
    }
}

/// The net of a first net, where there is one.
fn number_of(first: Option<NetRef<'_>>) -> Option<u32>
    ensures { result ≡ option_map (λ net. net.net) first.entry }
{
    match first {
        Some(first) => Some(first.net),
        None => None,
    }
}

impl Kept {
    /// Keeps an item in place of the one that was. After `NoMemory` the one that was is kept.
    pub fn put(&mut self, alloc: Global, item: ItemRef<'_>) -> Result<(), NoMemory>
        ensures ok { OnOk result (self.new ≡ item_of item.entry) }
        ensures err { OnErr result (self.new ≡ self.old) }
    {
        match item {
            ItemRef::Enter {
                path,
                cell,
                properties,
            } => {
                let path = other(alloc, &self.path, path)?;
                let properties = properties.made(alloc)?;
                replace(&mut self.path, path);
                set(&mut self.part, Part::Enter { cell, properties });
            }
            ItemRef::Net { path, net, first } => {
                let path = other(alloc, &self.path, path)?;
                let to = other(alloc, &self.first, first.path)?;
                replace(&mut self.path, path);
                replace(&mut self.first, to);
                let first = first.net;
                set(&mut self.part, Part::Net { net, first });
            }
            ItemRef::Pin {
                path,
                port,
                bit,
                first,
            } => {
                let path = other(alloc, &self.path, path)?;
                let to = other_first(alloc, &self.first, first)?;
                replace(&mut self.path, path);
                replace(&mut self.first, to);
                let first = number_of(first);
                set(&mut self.part, Part::Pin { port, bit, first });
            }
        }
        Ok(())
    }

    /// An item of its own.
    pub fn of(alloc: Global, item: ItemRef<'_>) -> Result<Kept, NoMemory>
        ensures { IfOk result (λ kept. kept ≡ item_of item.entry) }
    {
        let mut kept = Kept {
            path: Path::of(alloc, &[])?,
            first: Path::of(alloc, &[])?,
            part: Part::Pin {
                port: 0,
                bit: 0,
                first: None,
            },
        };
        kept.put(alloc, item)?;
        Ok(kept)
    }

    /// Lends the item. Takes no memory.
    pub fn lent(&self) -> ItemRef<'_>
        ensures { item_of result ≡ self.now }
    {
        let path = self.path.as_slice();
        match &self.part {
            Part::Enter { cell, properties } => ItemRef::Enter {
                path,
                cell: *cell,
                properties: PropertiesRef::of(properties),
            },
            Part::Net { net, first } => ItemRef::Net {
                path,
                net: *net,
                first: NetRef {
                    path: self.first.as_slice(),
                    net: *first,
                },
            },
            Part::Pin { port, bit, first } => ItemRef::Pin {
                path,
                port: *port,
                bit: *bit,
                first: match first {
                    Some(first) => Some(NetRef {
                        path: self.first.as_slice(),
                        net: *first,
                    }),
                    None => None,
                },
            },
        }
    }
}

/// Keeps an item in place of the one that was, where one was. After `NoMemory` nothing was changed.
pub fn keep(alloc: Global, kept: &mut Option<Kept>, item: ItemRef<'_>) -> Result<(), NoMemory>
    ensures ok { OnOk result (kept.new ≡ Some (item_of item.entry)) }
    ensures err { OnErr result (kept.new ≡ kept.old) }
{
    if let Some(kept) = kept {
        return kept.put(alloc, item);
    }
    *kept = Some(Kept::of(alloc, item)?);
    Ok(())
}
