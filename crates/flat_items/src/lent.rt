//! Items that are lent: what they show stands in the walk and in its design.
ghost use Rattle.std.specs.Prelude.{◌≡◌, ◌<◌, IfNone, IfOk, IfSome, length};
ghost use Rattle.std.specs.Option.{option_map};
ghost use Rattle.flat_items.specs.Lent.{item_of, net_of, properties_of};

use crate::noted::noted;
use annot_view::merged;
use flat_spec::{Item, NetAt, Path};
use netlist_schema::{CellId, NoMemory, Note, Property, Row};
use std::alloc::Global;

/// A net of an occurrence: the path of the occurrence, and the net's place in the contents there, from 0.
#[derive(Clone, Copy)]
pub struct NetRef<'a> {
    pub path: &'a [u32],
    pub net: u32,
}

/// Effective properties: those that notes may change, and the notes at these places.
#[derive(Clone, Copy)]
pub struct PropertiesRef<'a> {
    pub base: &'a [Property],
    pub notes: &'a [Note],
    pub places: &'a [u32],
}

/// One item of a flattening.
#[derive(Clone, Copy)]
pub enum ItemRef<'a> {
    /// An occurrence, with its cell and its effective properties.
    Enter {
        path: &'a [u32],
        cell: CellId,
        properties: PropertiesRef<'a>,
    },
    /// A net of the occurrence at the path, with the first net that is connected with it.
    Net {
        path: &'a [u32],
        net: u32,
        first: NetRef<'a>,
    },
    /// A bit of a port of the occurrence at the path, with the first net that is connected with the net that joins the bit.
    /// There is none where no net joins it.
    Pin {
        path: &'a [u32],
        port: u32,
        bit: u32,
        first: Option<NetRef<'a>>,
    },
}

impl<'a> NetRef<'a> {
    /// Lends a net.
    pub fn of(net: &'a NetAt) -> NetRef<'a>
        ensures { net_of result ≡ net.now }
    {
        NetRef {
            path: net.path.as_slice(),
            net: net.net,
        }
    }

    /// The net of its own.
    pub fn made(self, alloc: Global) -> Result<NetAt, NoMemory>
        ensures { IfOk result (λ net. net ≡ net_of self.entry) }
    {
        Ok(NetAt {
            path: Path::of(alloc, self.path)?,
            net: self.net,
        })
    }
}

impl<'a> PropertiesRef<'a> {
    /// Lends properties that no note changes.
    pub fn of(properties: &'a Row<Property>) -> PropertiesRef<'a>
        ensures { properties_of result ≡ properties.now }
    {
        PropertiesRef {
            base: properties.as_slice(),
            notes: &[],
            places: &[],
        }
    }

    /// Lends the properties, where no note changes them: `None` only where there are notes.
    #[inline(always)]
    pub fn unchanged(self) -> Option<&'a [Property]>
        ensures some { IfSome result (λ properties. properties.now ≡ properties_of self.entry) }
        ensures none { IfNone result (0 < length self.entry.places.now) }
    {
        if self.places.is_empty() {
            return Some(self.base);
        }
        None
    }

    /// The properties of their own.
    pub fn made(self, alloc: Global) -> Result<Row<Property>, NoMemory>
        ensures { IfOk result (λ properties. properties ≡ properties_of self.entry) }
    {
        let notes = noted(alloc, self.notes, self.places)?;
        merged(alloc, self.base, notes.as_slice())
    }
}

/// Lends a net, where there is one.
fn lent_first(first: &Option<NetAt>) -> Option<NetRef<'_>>
    ensures { option_map net_of result ≡ first.now }
{
    match first {
        Some(net) => Some(NetRef::of(net)),
        None => None,
    }
}

/// The net of its own, where there is one.
fn made_first(alloc: Global, first: Option<NetRef<'_>>) -> Result<Option<NetAt>, NoMemory>
    ensures { IfOk result (λ made. made ≡ option_map net_of first.entry) }
{
    match first {
        Some(net) => Ok(Some(net.made(alloc)?)),
        None => Ok(None),
    }
}

impl<'a> ItemRef<'a> {
    /// Lends an item.
    pub fn of(item: &'a Item) -> ItemRef<'a>
        ensures { item_of result ≡ item.now }
    {
        match item {
            Item::Enter {
                path,
                cell,
                properties,
            } => ItemRef::Enter {
                path: path.as_slice(),
                cell: *cell,
                properties: PropertiesRef::of(properties),
            },
            Item::Net { path, net, first } => ItemRef::Net {
                path: path.as_slice(),
                net: *net,
                first: NetRef::of(first),
            },
            Item::Pin {
                path,
                port,
                bit,
                first,
            } => ItemRef::Pin {
                path: path.as_slice(),
                port: *port,
                bit: *bit,
                first: lent_first(first),
            },
        }
    }

    /// The item of its own. A path of at most eight steps takes no memory.
    pub fn made(self, alloc: Global) -> Result<Item, NoMemory>
        ensures { IfOk result (λ item. item ≡ item_of self.entry) }
    {
        match self {
            ItemRef::Enter {
                path,
                cell,
                properties,
            } => Ok(Item::Enter {
                path: Path::of(alloc, path)?,
                cell,
                properties: properties.made(alloc)?,
            }),
            ItemRef::Net { path, net, first } => Ok(Item::Net {
                path: Path::of(alloc, path)?,
                net,
                first: first.made(alloc)?,
            }),
            ItemRef::Pin {
                path,
                port,
                bit,
                first,
            } => Ok(Item::Pin {
                path: Path::of(alloc, path)?,
                port,
                bit,
                first: made_first(alloc, first)?,
            }),
        }
    }
}
