//! `Tally`: what a check has seen of a flattening.
ghost use Rattle.std.specs.Prelude.{◌≡◌, ◌++◌, ◌∷◌, [], ℕ, List, IfOk, None, OnOk, Option as Perhaps, if◌then◌else◌, map};
ghost use Rattle.std.specs.List.{AllPairs, Contains, flat_map};
ghost use Rattle.netlist_schema.specs.Design.{Design as Parts};
ghost use Rattle.flat_spec.specs.ConnectionTest.{same_net};
ghost use Rattle.flat_spec.specs.PathOrder.{NetBefore};
ghost use Rattle.flat_spec.specs.Paths.{at_path};
ghost use Rattle.flat_spec.specs.Types.{Item as Shows, NetAt as Place};
ghost use Rattle.flat_items.specs.Lent.{item_of, net_of};
ghost use Rattle.erc_spec.specs.Drives.{is_open_port};
ghost use Rattle.erc_spec.specs.Findings.{findings_in, first_net};
ghost use Rattle.erc_check.specs.Firsts.{first_found, with_note};
ghost use Rattle.erc_check.specs.Tally.{AddsAll, IsTally, drive_by};

use crate::firsts::{FirstNet, add_pin};
use crate::ports::{direction_in, is_either, is_open_port, is_strong_port};
use erc_spec::Finding;
use flat_items::{ItemRef, NetRef};
use flat_spec::{Item, Path};
use netlist_schema::{CellId, Direction, NoMemory, Row, Shown};
use std::alloc::Global;

/// What a check has seen of a flattening so far.
pub struct Tally {
    /// The cell of the occurrence that was entered last, whose nets and pins come next.
    cell: Option<CellId>,
    /// The nets that are the first of those connected with them, in order.
    firsts: Vec<FirstNet>,
    /// Where among them those of the last occurrence begin. Only time depends on it.
    near: usize,
    /// What is found of pins, in order.
    pins: Vec<Finding>,
}

impl Drop for Tally {
    fn drop(self) {
        let Tally {
            cell: _,
            firsts: _,
            near: _,
            pins: _,
        } = self;
    }
}

impl Tally {
    /// Nothing was seen. Takes no memory.
    pub fn new(alloc: Global) -> Tally
        ensures { (d : Parts) → IsTally d [] result }
    {
        Tally {
            cell: None,
            firsts: Vec::new(alloc),
            near: 0,
            pins: Vec::new(alloc),
        }
    }

    /// Adds an item of a design.
    pub fn add<S: Shown>(
        &mut self,
        alloc: Global,
        design: &S,
        item: ItemRef<'_>,
    ) -> Result<(), NoMemory>
        ensures { OnOk result (AddsAll (S.design design.now) (item_of item.entry ∷ []) self.old self.new) }
    {
        match item {
            ItemRef::Enter { cell, .. } => {
                self.cell = Some(cell);
                Ok(())
            }
            ItemRef::Net { path, net, first } => add_first(
                alloc,
                &mut self.firsts,
                &mut self.near,
                path,
                net,
                first,
            ),
            ItemRef::Pin {
                path,
                port,
                bit,
                first,
            } => {
                let direction = direction_in(design, self.cell, port);
                match first {
                    Some(at) => {
                        add_drive(&mut self.firsts, self.near, path, direction, at);
                        Ok(())
                    }
                    None => add_open(alloc, &mut self.pins, path, direction, port, bit),
                }
            }
        }
    }

    /// What is found by the items that were seen.
    pub fn found(self, alloc: Global) -> Result<Row<Finding>, NoMemory>
        ensures { IfOk result (λ found. (d : Parts) (items : List Shows) → IsTally d items self → found ≡ findings_in d items) }
    {
        let Tally {
            cell: _,
            firsts,
            near: _,
            mut pins,
        } = self;
        let mut found = net_findings(alloc, firsts)?;
        found.append(&mut pins)?;
        Ok(Row::of(found))
    }
}

/// Whether a net is its own first.
fn is_own_first(path: &[u32], net: u32, first: NetRef<'_>) -> bool
    ensures { result ≡ same_net (at_path path.now net) (net_of first.entry) }
{
    path == first.path && net == first.net
}

/// Where the first nets of the occurrence at the path begin, the next of which is to come behind these.
fn first_near(firsts: &[FirstNet], near: usize, path: &[u32]) -> usize {
    match firsts.last() {
        Some(last) => {
            if last.at.path.as_slice() == path {
                return near;
            }
            firsts.len()
        }
        None => 0,
    }
}

/// Adds a net, where it is its own first. No pin that was seen drives it.
fn add_first(
    alloc: Global,
    firsts: &mut Vec<FirstNet>,
    near: &mut usize,
    path: &[u32],
    net: u32,
    first: NetRef<'_>,
) -> Result<(), NoMemory>
    ensures { OnOk result (firsts.new.items ≡ firsts.old.items ++ map (with_note (λ x. None)) (first_net (Item.Net path.now net (net_of first.entry)))) }
{
    if is_own_first(path, net, first) {
        *near = first_near(firsts, *near, path);
        let at = first.made(alloc)?;
        firsts.push(FirstNet { at, drive: None })?;
    }
    Ok(())
}

/// Adds a pin at a net, where it drives the net. Takes no memory.
fn add_drive(
    firsts: &mut [FirstNet],
    near: usize,
    path: &[u32],
    direction: Option<Direction>,
    at: NetRef<'_>,
)
    ensures { (nets : List Place) (drives : Place → Perhaps ℕ) → AllPairs NetBefore nets → Contains nets (net_of at.entry)
        → firsts.old ≡ map (with_note drives) nets
        → firsts.new ≡ map (with_note (λ x. drive_by path.now direction (net_of at.entry) x (drives x))) nets }
{
    if is_strong_port(path, direction) {
        add_pin(firsts, near, at, true);
    } else if is_either(direction) {
        add_pin(firsts, near, at, false);
    }
}

/// Adds a pin that no net joins, where it is an input of a leaf below the top.
fn add_open(
    alloc: Global,
    pins: &mut Vec<Finding>,
    path: &[u32],
    direction: Option<Direction>,
    port: u32,
    bit: u32,
) -> Result<(), NoMemory>
    ensures { OnOk result (pins.new.items ≡ pins.old.items ++ (if is_open_port path.now direction then Finding.Open path.now port bit ∷ [] else [])) }
{
    if is_open_port(path, direction) {
        let path = Path::of(alloc, path)?;
        pins.push(Finding::Open { path, port, bit })?;
    }
    Ok(())
}

/// What is found of first nets.
fn net_findings(alloc: Global, firsts: Vec<FirstNet>) -> Result<Vec<Finding>, NoMemory>
    ensures { IfOk result (λ found. found.items ≡ flat_map first_found firsts.items) }
{
    let mut found = Vec::new(alloc);
    for first in firsts {
        if let Some(finding) = first.found() {
            found.push(finding)?;
        }
    }
    Ok(found)
}
