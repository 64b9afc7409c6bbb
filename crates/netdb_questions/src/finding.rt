//! What names lead to.
ghost use Rattle.std.specs.Prelude.{◌≡◌, None, Some, if◌then◌else◌, nat_lt};
ghost use Rattle.netlist_schema.specs.Design.{port_width};
ghost use Rattle.edit_rules_spec.specs.Find.{net_place};
ghost use Rattle.ask_names.specs.Places.{ports_at};
ghost use Rattle.ask_spec.specs.Places.{at, nets_of};
ghost use Rattle.netdb_questions.specs.Named.{IsBitNamed, IsNetNamed, IsPathNamed, bit_at, bit_place, ports_of};

use ask_names::{Names, paths_are_told};
use bus_members::width;
use db_version::Snapshot;
use flat_lookup::cell_along;
use flat_spec::{NetAt, Path};
use netlist_schema::{CellId, NoMemory, Port, Shown, design_is_valid};
use thiserror::Error;

/// Why a question has no answer.
#[derive(Clone, Copy, Debug, PartialEq, Eq, Error)]
pub enum Refusal {
    /// The text is no path, or leads to no occurrence.
    #[error("no path")]
    NoPath,
    /// The occurrence has no such net, or no such port, or the port has no such bit.
    #[error("no name")]
    NoName,
    /// No net joins the bit there.
    #[error("no net")]
    NoNet,
    /// An allocation was refused.
    #[error("no memory")]
    NoMemory,
}

/// A net, by the text of the path of its occurrence and its identifier there.
#[derive(Clone, Copy)]
pub struct NetName<'a> {
    pub path: &'a [u8],
    pub net: &'a [u8],
}

/// A port of an occurrence that has a bit which was named.
pub(crate) struct PortAt {
    pub path: Path,
    pub port: u32,
}

impl Drop for PortAt {
    fn drop(self) {
        let PortAt { path: _, port: _ } = self;
    }
}

/// The path of the occurrence that a text names.
pub(crate) fn path_named(names: &Names<Snapshot>, text: &[u8]) -> Result<Path, Refusal>
    ensures { IsPathNamed names.now text.now result }
{
    paths_are_told();
    design_is_valid(names.design());
    match names.path(text) {
        Ok(Some(path)) => Ok(path),
        Ok(None) => Err(Refusal::NoPath),
        Err(NoMemory) => Err(Refusal::NoMemory),
    }
}

/// The cell of the occurrence at a path, where there is one.
fn cell_in(design: &Snapshot, path: &[u32]) -> Option<CellId>
    ensures { result ≡ at design.now.design path.now }
{
    let top = design.top()?;
    cell_along(design, top.cell, path)
}

/// The same by the names of a design.
fn cell_at(names: &Names<Snapshot>, path: &[u32]) -> Option<CellId>
    ensures { result ≡ at names.now path.now }
{
    cell_in(names.design(), path)
}

/// The place of the net with this identifier in the occurrence at a path.
fn net_at(names: &Names<Snapshot>, path: &[u32], name: &[u8]) -> Option<u32>
    ensures { result ≡ net_place name.now (nets_of names.now path.now) }
{
    match cell_at(names, path) {
        Some(cell) => names.net(cell, name),
        None => None,
    }
}

/// The net with this identifier in the occurrence that a text names.
pub(crate) fn net_named(names: &Names<Snapshot>, text: &[u8], name: &[u8]) -> Result<NetAt, Refusal>
    ensures { IsNetNamed names.now text.now name.now result }
{
    match path_named(names, text) {
        Ok(path) => match net_at(names, path.as_slice(), name) {
            Some(net) => Ok(NetAt { path, net }),
            None => Err(Refusal::NoName),
        },
        Err(refusal) => Err(refusal),
    }
}

/// The ports of a cell: none where there is no such cell.
fn ports_in(design: &Snapshot, cell: CellId) -> &[Port]
    ensures { result.now ≡ ports_at design.now.design cell }
{
    match design.cell(cell) {
        Some(body) => body.ports.as_slice(),
        None => &[],
    }
}

/// The place of a port, where it has that bit.
fn place_with(port: &Port, place: u32, bit: u32) -> Option<u32>
    ensures { result ≡ (if nat_lt bit (port_width port.now) then Some place else None) }
{
    if bit < width(port) { Some(place) } else { None }
}

/// The place of one of the ports, where there is one and it has that bit.
fn bit_at(ports: &[Port], place: u32, bit: u32) -> Option<u32>
    ensures { result ≡ bit_at ports.now bit place }
{
    match ports.get(place as usize) {
        Some(port) => place_with(port, place, bit),
        None => None,
    }
}

/// The place of the port with this identifier in a cell, where it has that bit.
fn bit_in(names: &Names<Snapshot>, cell: CellId, name: &[u8], bit: u32) -> Option<u32>
    ensures { result ≡ bit_place name.now bit (ports_at names.now cell) }
{
    match names.port(cell, name) {
        Some(place) => bit_at(ports_in(names.design(), cell), place, bit),
        None => None,
    }
}

/// The same in the occurrence at a path.
fn bit_there(names: &Names<Snapshot>, path: &[u32], name: &[u8], bit: u32) -> Option<u32>
    ensures { result ≡ bit_place name.now bit (ports_of names.now path.now) }
{
    match cell_at(names, path) {
        Some(cell) => bit_in(names, cell, name, bit),
        None => None,
    }
}

/// The port with this identifier in the occurrence that a text names, where it has that bit.
pub(crate) fn bit_named(
    names: &Names<Snapshot>,
    text: &[u8],
    name: &[u8],
    bit: u32,
) -> Result<PortAt, Refusal>
    ensures { IsBitNamed names.now text.now name.now bit result }
{
    match path_named(names, text) {
        Ok(path) => match bit_there(names, path.as_slice(), name, bit) {
            Some(port) => Ok(PortAt { path, port }),
            None => Err(Refusal::NoName),
        },
        Err(refusal) => Err(refusal),
    }
}
