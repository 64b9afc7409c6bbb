//! The libraries that a file has defined so far, with the names in them.
ghost use Rattle.std.specs.Prelude.{◌≡◌, ◌<◌, ◌++◌, ◌∷◌, [], length, map, slice_get, IfNone, IfOk, IfSome, None, OnErr, OnOk, vec_capacity, vec_len};
ghost use Rattle.std.specs.List.{AllZip, Contains};
ghost use Rattle.std.specs.Option.{option_copied};
ghost use Rattle.netlist_schema.specs.Names.{AreDistinct};
ghost use Rattle.edif_spec.specs.Design as design;
ghost use Rattle.edif_spec.specs.Means.{meant};
ghost use Rattle.edif_contents.specs.Known.{AddsCell, AddsTo, NamedLib, OpensLib};
ghost use Rattle.edif_contents.specs.NamesOf.{AreNamesOf, AreNamesThere};
ghost use Rattle.edif_parts.specs.Names.{DefinesName, Tells, ids};

use edif_names::Meant;
use edif_parts::Names;
use netlist_schema::{
    CellBody, CellId, Ident, Inst, Lib, LibHead, Listed, NoMemory, PartsRef, Row,
};
use std::alloc::Global;
use std::marker::Model;

/// A cell, with the names of its ports, whose instances have names that differ. Contracts see the cell.
pub struct KnownCell {
    body: CellBody,
    ports: Names,
}

impl Drop for KnownCell {
    fn drop(self) {
        let KnownCell { body: _, ports: _ } = self;
    }
}

impl Model for KnownCell {
    ghost use Rattle.edif_spec.specs.Design as design;
    ghost use Rattle.edif_contents.specs.NamesOf.{AreNamesOf};

    ghost Value = { design.CellBody };

    ghost view = { λ c. c.body };

    ghost invariant = { λ c. AreNamesOf c.ports c.body };
}

impl KnownCell {
    /// A cell with the names of its ports. Takes no memory.
    pub fn of(body: CellBody, ports: Names) -> KnownCell
        requires ports { ids ports ≡ design.port_ids body.ports }
        requires insts { AreDistinct (design.inst_ids (design.insts_of body)) }
        ensures { result ≡ body }
    {
        KnownCell { body, ports }
    }

    /// The identifier of the cell. Takes no memory.
    fn name(&self) -> &Ident
        ensures { result.now ≡ self.now.name.id }
    {
        &self.body.name.id
    }

    /// Adds the cell to these, and the names of its ports to those beside them, where there is room for both. Takes no memory.
    fn push_to(self, cells: &mut Vec<CellBody>, inner: &mut Vec<Names>)
        requires room { vec_len cells.old < vec_capacity cells.old }
        requires more { vec_len inner.old < vec_capacity inner.old }
        ensures cells { cells.new.items ≡ cells.old.items ++ self ∷ [] }
        ensures names { AllZip AreNamesOf inner.old.items cells.old.items → AllZip AreNamesOf inner.new.items cells.new.items }
    {
        let KnownCell { body, ports } = self;
        cells.push_reserved(body);
        inner.push_reserved(ports);
    }
}

/// A library, with its cells so far and their names.
pub struct KnownLib {
    head: LibHead,
    cells: Vec<CellBody>,
    /// Of each cell the names of its ports.
    inner: Vec<Names>,
    names: Names,
}

impl Drop for KnownLib {
    fn drop(self) {
        let KnownLib {
            head: _,
            cells: _,
            inner: _,
            names: _,
        } = self;
    }
}

impl Model for KnownLib {
    ghost use Rattle.std.specs.Prelude.{◌≡◌, map};
    ghost use Rattle.std.specs.List.{AllZip};
    ghost use Rattle.edif_spec.specs.Design as design;
    ghost use Rattle.edif_contents.specs.NamesOf.{AreNamesOf};
    ghost use Rattle.edif_contents.specs.Known.{NamedLib};
    ghost use Rattle.edif_parts.specs.Names.{ids};

    ghost Value = { NamedLib };

    ghost view = { λ l. record { lib = record { head = l.head; cells = l.cells.items }; names = l.names } };

    ghost invariant = { λ l. (ids l.names ≡ map (λ (c : design.CellBody). c.name.id) l.cells.items) × AllZip AreNamesOf l.inner.items l.cells.items };
}

impl KnownLib {
    /// Adds a cell whose name stands at a place. Where an equal name is there, the answer is its place, and nothing changes; after
    /// `NoMemory` nothing has changed.
    fn add(&mut self, cell: KnownCell, place: u64) -> Result<Option<u64>, NoMemory>
        ensures ok { IfOk result (λ earlier. AddsTo self.old cell place self.new earlier) }
        ensures err { OnErr result (self.new ≡ self.old) }
    {
        match define_cell(
            &mut self.cells,
            &mut self.inner,
            &mut self.names,
            cell.name(),
            place,
        ) {
            Ok(earlier) => {
                push_cell(&mut self.cells, &mut self.inner, cell, earlier);
                Ok(earlier)
            }
            Err(NoMemory) => {
                drop(cell);
                Err(NoMemory)
            }
        }
    }

    /// The names of the ports of the cell at a place, where there is one. Takes no memory.
    fn names_in(&self, slot: usize) -> Option<&Names>
        ensures some { IfSome result (λ n. AreNamesThere (slice_get self.now.lib.cells slot) n.now) }
        ensures none { IfNone result (slice_get self.now.lib.cells slot ≡ None) }
    {
        match self.inner.get(slot) {
            Some(names) => Some(names),
            None => None,
        }
    }

    /// Makes room for so many more cells. The library stays.
    fn make_room(&mut self, count: usize) -> Result<(), NoMemory>
        ensures { self.new ≡ self.old }
    {
        self.inner.reserve(count)?;
        self.cells.reserve(count)?;
        Ok(())
    }

    /// The library without its names.
    fn into_lib(self) -> Lib
        ensures { result ≡ self.lib }
    {
        let KnownLib {
            head,
            cells,
            inner,
            names,
        } = self;
        drop(inner);
        drop(names);
        Lib {
            head,
            cells: Row::of(cells),
        }
    }
}

/// Adds a library without its names to those that are given.
fn give_lib(lib: KnownLib, given: &mut Vec<Lib>) -> Result<(), NoMemory>
    ensures { OnOk result (given.new.items ≡ given.old.items ++ lib.lib ∷ []) }
{
    given.push(lib.into_lib())?;
    Ok(())
}

/// The libraries without their names, in order.
fn give_libs(alloc: Global, libs: Vec<KnownLib>) -> Result<Row<Lib>, NoMemory>
    ensures { IfOk result (λ given. given ≡ map (λ (l : NamedLib). l.lib) libs.items) }
{
    let mut given = Vec::new(alloc);
    for lib in libs {
        give_lib(lib, &mut given)?;
    }
    Ok(Row::of(given))
}

/// Defines a name, which stands at a place, where there is room for one more of these items. Where an equal name is there, the answer
/// is its place, and the names stay; after `NoMemory` they stay as well.
fn define_within<T: Drop>(
    items: &mut Vec<T>,
    names: &mut Names,
    name: &Ident,
    place: u64,
) -> Result<Option<u64>, NoMemory>
    ensures ok { IfOk result (λ earlier. DefinesName names.old name.now place names.new earlier) }
    ensures err { OnErr result (names.new ≡ names.old) }
    ensures items { items.new.items ≡ items.old.items }
    ensures room { OnOk result (vec_len items.new < vec_capacity items.new) }
{
    items.reserve(1)?;
    names.define(name, place)
}

/// Adds an item where its name was not there earlier, and there is room for it. Takes no memory.
fn push_new<T: Drop>(items: &mut Vec<T>, item: T, earlier: Option<u64>)
    requires { vec_len items.old < vec_capacity items.old }
    ensures none { IfNone earlier (items.new.items ≡ items.old.items ++ item ∷ []) }
    ensures some { IfSome earlier (λ _. items.new.items ≡ items.old.items) }
{
    if earlier.is_none() {
        items.push_reserved(item);
    }
}

/// Defines the name of a cell, where there is room for one more of these cells, and for the names of its ports. Otherwise as
/// `define_within`.
fn define_cell(
    cells: &mut Vec<CellBody>,
    inner: &mut Vec<Names>,
    names: &mut Names,
    name: &Ident,
    place: u64,
) -> Result<Option<u64>, NoMemory>
    ensures ok { IfOk result (λ earlier. DefinesName names.old name.now place names.new earlier) }
    ensures err { OnErr result (names.new ≡ names.old) }
    ensures items { cells.new.items ≡ cells.old.items }
    ensures inner { inner.new.items ≡ inner.old.items }
    ensures room { OnOk result (vec_len cells.new < vec_capacity cells.new) }
    ensures more { OnOk result (vec_len inner.new < vec_capacity inner.new) }
{
    inner.reserve(1)?;
    define_within(cells, names, name, place)
}

/// Adds a cell where its name was not there earlier, and there is room for it, beside the names of its ports. Takes no memory.
fn push_cell(
    cells: &mut Vec<CellBody>,
    inner: &mut Vec<Names>,
    cell: KnownCell,
    earlier: Option<u64>,
)
    requires room { vec_len cells.old < vec_capacity cells.old }
    requires more { vec_len inner.old < vec_capacity inner.old }
    ensures none { IfNone earlier (cells.new.items ≡ cells.old.items ++ cell ∷ []) }
    ensures some { IfSome earlier (λ _. cells.new.items ≡ cells.old.items) }
    ensures names { AllZip AreNamesOf inner.old.items cells.old.items → AllZip AreNamesOf inner.new.items cells.new.items }
{
    if earlier.is_some() {
        return;
    }
    cell.push_to(cells, inner);
}

/// The libraries that a file has defined so far. A cell is among them from the end of its form on, a library from its head on.
pub struct Libraries {
    alloc: Global,
    libs: Vec<KnownLib>,
    names: Names,
}

impl Drop for Libraries {
    fn drop(self) {
        let Libraries {
            alloc: _,
            libs: _,
            names: _,
        } = self;
    }
}

impl Model for Libraries {
    ghost use Rattle.std.specs.Prelude.{◌≡◌, map};
    ghost use Rattle.edif_contents.specs.Known.{KnownLibs, NamedLib, last_names};
    ghost use Rattle.edif_parts.specs.Names.{ids};

    ghost Value = { KnownLibs };

    ghost view = { λ s. record { libs = map (λ (l : NamedLib). l.lib) s.libs.items; lib_names = s.names; cell_names = last_names s.libs.items } };

    ghost invariant = { λ s. ids s.names ≡ map (λ (l : NamedLib). l.lib.head.name.id) s.libs.items };
}

impl Libraries {
    /// No libraries. Takes no memory.
    pub fn new(alloc: Global) -> Libraries
        ensures { result ≡ record { libs = []; lib_names = []; cell_names = [] } }
    {
        Libraries {
            alloc,
            libs: Vec::new(alloc),
            names: Names::new(alloc),
        }
    }

    /// Opens a library without cells, whose name stands at a place. Where an equal name is there, the answer is its place, and nothing
    /// changes; after `NoMemory` nothing has changed.
    pub fn open(&mut self, head: LibHead, place: u64) -> Result<Option<u64>, NoMemory>
        ensures ok { IfOk result (λ earlier. OpensLib self.old head place self.new earlier) }
        ensures err { OnErr result (self.new ≡ self.old) }
    {
        let earlier = define_within(&mut self.libs, &mut self.names, &head.name.id, place)?;
        let lib = KnownLib {
            head,
            cells: Vec::new(self.alloc),
            inner: Vec::new(self.alloc),
            names: Names::new(self.alloc),
        };
        push_new(&mut self.libs, lib, earlier);
        Ok(earlier)
    }

    /// Adds a cell, whose name stands at a place, to the last library. Where an equal name is there, the answer is its place, and
    /// nothing changes; after `NoMemory` nothing has changed.
    pub fn add(&mut self, cell: KnownCell, place: u64) -> Result<Option<u64>, NoMemory>
        requires { 0 < length self.old.libs }
        ensures ok { IfOk result (λ earlier. AddsCell self.old cell place self.new earlier) }
        ensures err { OnErr result (self.new ≡ self.old) }
    {
        let Some(lib) = self.libs.last_mut() else {
            unreachable!();
        };
        lib.add(cell, place)
    }

    /// Makes room for so many more cells of the last library. The libraries stay.
    pub fn make_room(&mut self, count: usize) -> Result<(), NoMemory>
        ensures { self.new ≡ self.old }
    {
        match self.libs.last_mut() {
            Some(lib) => lib.make_room(count),
            None => Ok(()),
        }
    }

    /// The number of libraries. Takes no memory.
    pub fn len(&self) -> usize
        ensures { result ≡ length self.now.libs }
    {
        self.libs.len()
    }

    /// The number of cells of the last library. Takes no memory.
    pub fn cell_count(&self) -> usize
        ensures { result ≡ length self.now.cell_names }
    {
        match self.libs.last() {
            Some(lib) => lib.cells.len(),
            None => 0,
        }
    }

    /// The libraries, in order.
    pub fn into_libs(self) -> Result<Row<Lib>, NoMemory>
        ensures { IfOk result (λ libs. libs ≡ self.libs) }
    {
        let Libraries { alloc, libs, names } = self;
        drop(names);
        give_libs(alloc, libs)
    }

    /// What a name means among the libraries. Takes no memory.
    pub fn lib(&self, name: &Ident) -> Meant
        ensures { Tells (meant (design.lib_ids self.now.libs) name.now) result }
    {
        self.names.meant(name)
    }

    /// What a name means among the cells of a library. Takes no memory.
    pub fn cell(&self, lib: u32, name: &Ident) -> Meant
        ensures { Tells (meant (design.cell_ids self.now.libs lib) name.now) result }
    {
        match self.libs.get(lib as usize) {
            Some(lib) => lib.names.meant(name),
            None => Meant::Absent,
        }
    }

    /// A cell, where there is such a cell. Takes no memory.
    pub fn body(&self, id: CellId) -> Option<&CellBody>
        ensures { option_copied result ≡ design.cell_at self.now.libs id }
    {
        let lib = self.libs.get(id.lib.0 as usize)?;
        lib.cells.get(id.slot as usize)
    }

    /// The instances of a cell, none where there is no such cell. Takes no memory.
    pub fn insts(&self, id: CellId) -> PartsRef<'_, Listed<Inst>>
        ensures { result ≡ design.insts_at self.now.libs id }
    {
        let Some(cell) = self.body(id) else {
            return PartsRef::none();
        };
        let Some(contents) = &cell.contents else {
            return PartsRef::none();
        };
        contents.insts.lent()
    }

    /// The names of the ports of a cell, where there is such a cell. Takes no memory.
    fn names_in(&self, id: CellId) -> Option<&Names>
        ensures some { IfSome result (λ n. AreNamesThere (design.cell_at self.now.libs id) n.now) }
        ensures none { IfNone result (design.cell_at self.now.libs id ≡ None) }
    {
        match self.libs.get(id.lib.0 as usize) {
            Some(lib) => lib.names_in(id.slot as usize),
            None => None,
        }
    }

    /// What a name means among the ports of a cell; nothing where there is no such cell. Takes no memory.
    pub fn port(&self, id: CellId, name: &Ident) -> Meant
        ensures { Tells (meant (design.port_ids (design.ports_at self.now.libs id)) name.now) result }
    {
        match self.names_in(id) {
            Some(ports) => ports.meant(name),
            None => Meant::Absent,
        }
    }

    /// The names of the instances of a cell, in order; none where there is no such cell. They are made from the instances, with time
    /// and memory in proportion to them, and are not kept here. `NoMemory` comes where an allocation is refused.
    pub fn inst_names(&self, alloc: Global, id: CellId) -> Result<Names, NoMemory>
        ensures { IfOk result (λ names. ids names ≡ design.inst_ids (design.insts_at self.now.libs id)) }
    {
        match self.names_in(id) {
            Some(_) => names_of_insts(alloc, &self.insts(id)),
            None => Ok(Names::new(alloc)),
        }
    }
}

/// Defines a name that is not there yet. After `NoMemory` the names are as before.
fn define_new(name: &Ident, place: u64, names: &mut Names) -> Result<(), NoMemory>
    requires { ¬ Contains (ids names.old) name.now }
    ensures { OnOk result (names.new ≡ names.old ++ (name.now, place) ∷ []) }
{
    match names.define(name, place)? {
        None => Ok(()),
        Some(_) => unreachable!(),
    }
}

/// The names of instances, in order, each at the place of its instance in their list.
fn names_of_insts(alloc: Global, insts: &PartsRef<'_, Listed<Inst>>) -> Result<Names, NoMemory>
    requires { AreDistinct (design.inst_ids insts.now) }
    ensures { IfOk result (λ names. ids names ≡ design.inst_ids insts.now) }
{
    let mut names = Names::new(alloc);
    for place in 0..insts.len() {
        define_new(&insts.at(place).name.id, place as u64, &mut names)?;
    }
    Ok(names)
}
