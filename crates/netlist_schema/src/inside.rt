//! Changes of what is inside a cell, in place.
ghost use Rattle.std.specs.Option.{ForSome};
ghost use Rattle.std.specs.Prelude.{◌≡◌, ◌≤◌, OnErr, OnOk, Some, length, slice_get, slice_set};
ghost use Rattle.netlist_schema.specs.Change.{body_with, lib_with_cell, with_inst_put, with_net_put};
ghost use Rattle.netlist_parts.specs.Put.{put_at};
ghost use Rattle.netlist_schema.specs.Types.{CellBody as Body, Lib as Library};

use crate::cell::{CellBody, Contents, Inst, Net};
use crate::ids::CellId;
use crate::library::Lib;
use crate::listed::{Listed, Marks};
use netlist_pages::{Copied, NoMemory};
use netlist_parts::{Parts, Row, Shared};
use std::alloc::Global;
use std::sync::Arc;

/// Puts an item at a place, in a share of its own.
fn put_shared<T: Marks + Drop>(
    alloc: Global,
    parts: &mut Parts<Listed<T>>,
    place: usize,
    item: T,
) -> Result<(), NoMemory>
    requires { place ≤ length parts.old }
    ensures ok { OnOk result (parts.new ≡ put_at parts.old place item) }
    ensures err { OnErr result (parts.new ≡ parts.old) }
{
    let item = Listed::of(alloc, item)?;
    if place < parts.len() {
        return parts.put(alloc, place, item);
    }
    parts.push(alloc, item)
}

impl Contents {
    /// Puts a net at a place: it replaces the one there, or goes behind the last. Where memory is refused, the contents
    /// stay.
    pub fn put_net(&mut self, alloc: Global, place: usize, net: Net) -> Result<(), NoMemory>
        requires { place ≤ length self.old.nets }
        ensures ok { OnOk result (self.new ≡ with_net_put place net self.old) }
        ensures err { OnErr result (self.new ≡ self.old) }
    {
        put_shared(alloc, &mut self.nets, place, net)
    }

    /// Puts an instance at a place: it replaces the one there, or goes behind the last. Where memory is refused, the
    /// contents stay.
    pub fn put_inst(&mut self, alloc: Global, place: usize, inst: Inst) -> Result<(), NoMemory>
        requires { place ≤ length self.old.insts }
        ensures ok { OnOk result (self.new ≡ with_inst_put place inst self.old) }
        ensures err { OnErr result (self.new ≡ self.old) }
    {
        put_shared(alloc, &mut self.insts, place, inst)
    }
}

/// Puts a net in contents, in place where nobody else holds them, and else in a copy of their own.
fn put_net_own(
    alloc: Global,
    contents: &mut Shared<Contents>,
    place: usize,
    net: Net,
) -> Result<(), NoMemory>
    requires { place ≤ length contents.old.nets }
    ensures ok { OnOk result (contents.new ≡ with_net_put place net contents.old) }
    ensures err { OnErr result (contents.new ≡ contents.old) }
{
    match Arc::get_mut(&mut contents.item) {
        Some(own) => own.put_net(alloc, place, net),
        None => {
            let mut own = contents.get().copy(alloc)?;
            own.put_net(alloc, place, net)?;
            *contents = Shared::of(alloc, own)?;
            Ok(())
        }
    }
}

/// Puts an instance in contents, in place where nobody else holds them, and else in a copy of their own.
fn put_inst_own(
    alloc: Global,
    contents: &mut Shared<Contents>,
    place: usize,
    inst: Inst,
) -> Result<(), NoMemory>
    requires { place ≤ length contents.old.insts }
    ensures ok { OnOk result (contents.new ≡ with_inst_put place inst contents.old) }
    ensures err { OnErr result (contents.new ≡ contents.old) }
{
    match Arc::get_mut(&mut contents.item) {
        Some(own) => own.put_inst(alloc, place, inst),
        None => {
            let mut own = contents.get().copy(alloc)?;
            own.put_inst(alloc, place, inst)?;
            *contents = Shared::of(alloc, own)?;
            Ok(())
        }
    }
}

impl CellBody {
    /// Puts other contents in the place of those there, where there are any. Where memory is refused, the body stays.
    pub fn set_contents(&mut self, contents: Contents) -> Result<(), NoMemory>
        ensures ok { OnOk result (self.new ≡ body_with (λ _. contents) self.old) }
        ensures err { OnErr result (self.new ≡ self.old) }
    {
        if self.contents.is_some() {
            let alloc = *self.properties.items.allocator();
            self.contents = Some(Shared::of(alloc, contents)?);
        }
        Ok(())
    }

    /// Puts a net at a place in the contents, where the cell has any: `Contents::put_net`.
    pub fn put_net(&mut self, place: usize, net: Net) -> Result<(), NoMemory>
        requires { ForSome self.old.contents (λ contents. place ≤ length contents.nets) }
        ensures ok { OnOk result (self.new ≡ body_with (with_net_put place net) self.old) }
        ensures err { OnErr result (self.new ≡ self.old) }
    {
        let alloc = *self.properties.items.allocator();
        match &mut self.contents {
            Some(contents) => put_net_own(alloc, contents, place, net),
            None => Ok(()),
        }
    }

    /// Puts an instance at a place in the contents, where the cell has any: `Contents::put_inst`.
    pub fn put_inst(&mut self, place: usize, inst: Inst) -> Result<(), NoMemory>
        requires { ForSome self.old.contents (λ contents. place ≤ length contents.insts) }
        ensures ok { OnOk result (self.new ≡ body_with (with_inst_put place inst) self.old) }
        ensures err { OnErr result (self.new ≡ self.old) }
    {
        let alloc = *self.properties.items.allocator();
        match &mut self.contents {
            Some(contents) => put_inst_own(alloc, contents, place, inst),
            None => Ok(()),
        }
    }
}

impl Lib {
    /// Puts a net at a place in the contents of one of its cells: `CellBody::put_net`.
    pub(crate) fn put_net(&mut self, slot: usize, place: usize, net: Net) -> Result<(), NoMemory>
        requires { ForSome (slice_get self.old.cells slot) (λ body. ForSome body.contents (λ contents. place ≤ length contents.nets)) }
        ensures ok { OnOk result ((body : Body) → slice_get self.old.cells slot ≡ Some body → self.new ≡ lib_with_cell self.old slot (body_with (with_net_put place net) body)) }
        ensures err { OnErr result (self.new ≡ self.old) }
    {
        if slot < self.cells.items.len() {
            return self.cells.items[slot].put_net(place, net);
        }
        Ok(())
    }

    /// Puts an instance at a place in the contents of one of its cells: `CellBody::put_inst`.
    pub(crate) fn put_inst(&mut self, slot: usize, place: usize, inst: Inst) -> Result<(), NoMemory>
        requires { ForSome (slice_get self.old.cells slot) (λ body. ForSome body.contents (λ contents. place ≤ length contents.insts)) }
        ensures ok { OnOk result ((body : Body) → slice_get self.old.cells slot ≡ Some body → self.new ≡ lib_with_cell self.old slot (body_with (with_inst_put place inst) body)) }
        ensures err { OnErr result (self.new ≡ self.old) }
    {
        if slot < self.cells.items.len() {
            return self.cells.items[slot].put_inst(place, inst);
        }
        Ok(())
    }
}

/// Puts a net in a cell of these libraries.
pub(crate) fn put_net_in(
    libs: &mut Row<Lib>,
    id: CellId,
    place: usize,
    net: Net,
) -> Result<(), NoMemory>
    requires { ForSome (slice_get libs.old id.lib.0) (λ lib. ForSome (slice_get lib.cells id.slot) (λ body. ForSome body.contents (λ contents. place ≤ length contents.nets))) }
    ensures ok { OnOk result ((lib : Library) (body : Body) → slice_get libs.old id.lib.0 ≡ Some lib → slice_get lib.cells id.slot ≡ Some body
        → libs.new ≡ slice_set libs.old id.lib.0 (lib_with_cell lib id.slot (body_with (with_net_put place net) body))) }
    ensures err { OnErr result (libs.new ≡ libs.old) }
{
    if (id.lib.0 as usize) < libs.items.len() {
        return libs.items[id.lib.0 as usize].put_net(id.slot as usize, place, net);
    }
    Ok(())
}

/// Puts an instance in a cell of these libraries.
pub(crate) fn put_inst_in(
    libs: &mut Row<Lib>,
    id: CellId,
    place: usize,
    inst: Inst,
) -> Result<(), NoMemory>
    requires { ForSome (slice_get libs.old id.lib.0) (λ lib. ForSome (slice_get lib.cells id.slot) (λ body. ForSome body.contents (λ contents. place ≤ length contents.insts))) }
    ensures ok { OnOk result ((lib : Library) (body : Body) → slice_get libs.old id.lib.0 ≡ Some lib → slice_get lib.cells id.slot ≡ Some body
        → libs.new ≡ slice_set libs.old id.lib.0 (lib_with_cell lib id.slot (body_with (with_inst_put place inst) body))) }
    ensures err { OnErr result (libs.new ≡ libs.old) }
{
    if (id.lib.0 as usize) < libs.items.len() {
        return libs.items[id.lib.0 as usize].put_inst(id.slot as usize, place, inst);
    }
    Ok(())
}
