//! `Names`: the places that names lead to.
ghost use Rattle.std.specs.Prelude.{◌≡◌, IfOk};
ghost use Rattle.netlist_schema.specs.Hierarchy.{insts_at};
ghost use Rattle.edit_rules_spec.specs.Find.{inst_place, net_place, port_place};
ghost use Rattle.flat_spec.specs.Paths.{nets_at};
ghost use Rattle.ask_names.specs.Places.{path_named, ports_at};

use crate::index::Index;
use crate::look::{inst_in, net_in, path_in, port_in};
use flat_spec::Path;
use netlist_schema::{CellId, NoMemory, Shown};
use std::alloc::Global;
use std::marker::Model;

/// The names of a design, which this owns: a design, a version that is pinned, or a reference to one. Contracts see the design. Several may
/// look names up beside each other.
pub struct Names<S: Shown + Drop> {
    alloc: Global,
    design: S,
    index: Index,
}

impl<S: Shown + Drop> Drop for Names<S> {
    fn drop(self) {
        let Names {
            alloc: _,
            design: _,
            index: _,
        } = self;
    }
}

impl<S: Shown + Drop> Model for Names<S> {
    ghost use Rattle.netlist_schema.specs.Design.{Design};
    ghost use Rattle.ask_names.specs.Orders.{AreOrders};

    ghost Value = { Design };

    ghost view = { λ n. S.design n.design };

    ghost invariant = { λ n. AreOrders (S.design n.design) n.index };
}

impl<S: Shown + Drop> Names<S> {
    /// Makes ready to look up the names of a design. The one error is that an allocation was refused; then the design is dropped.
    ///
    /// It takes time in proportion to the names of instances, nets and ports in the cells of the design, times the logarithm of their number
    /// in a cell, and four bytes of memory for each: never in proportion to occurrences.
    pub fn of(alloc: Global, design: S) -> Result<Names<S>, NoMemory>
        ensures { IfOk result (λ names. names ≡ S.design design) }
    {
        let index = Index::of(alloc, &design)?;
        Ok(Names {
            alloc,
            design,
            index,
        })
    }

    /// The design. It takes no memory.
    pub fn design(&self) -> &S
        ensures { S.design result.now ≡ self.now }
    {
        &self.design
    }

    /// The path of the occurrence that a text names, from the top: `/` alone is the top's own; else identifiers of instances with `/` between
    /// them, as a script writes them, or with one more `/` before them all, as a flattening shows them. `None` exactly where the text is no
    /// such path or leads nowhere. It takes time in proportion to the text, times the logarithm of the number of instances in a cell, and
    /// memory in proportion to the text.
    pub fn path(&self, text: &[u8]) -> Result<Option<Path>, NoMemory>
        ensures { IfOk result (λ path. path ≡ path_named self.now text.now) }
    {
        path_in(self.alloc, &self.design, &self.index, text)
    }

    /// The place of the instance of a cell with this identifier, byte for byte: `None` exactly where there is none, so in a leaf, and where
    /// there is no such cell. It takes time in proportion to the identifier, times the logarithm of the number of instances in the cell, and
    /// no memory.
    pub fn inst(&self, cell: CellId, name: &[u8]) -> Option<u32>
        ensures { result ≡ inst_place name.now (insts_at self.now cell) }
    {
        inst_in(&self.design, &self.index, cell, name)
    }

    /// The place of the net of a cell with this identifier, byte for byte: `None` exactly where there is none. It takes time as `inst` does,
    /// and no memory.
    pub fn net(&self, cell: CellId, name: &[u8]) -> Option<u32>
        ensures { result ≡ net_place name.now (nets_at self.now cell) }
    {
        net_in(&self.design, &self.index, cell, name)
    }

    /// The place of the port of a cell with this identifier, byte for byte: `None` exactly where there is none. It takes time as `inst` does,
    /// and no memory.
    pub fn port(&self, cell: CellId, name: &[u8]) -> Option<u32>
        ensures { result ≡ port_place name.now (ports_at self.now cell) }
    {
        port_in(&self.design, &self.index, cell, name)
    }
}
