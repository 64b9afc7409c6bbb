//! `Classes`: which own bits of each cell are connected in its tree.
ghost use Rattle.std.specs.Prelude.{◌≡◌, [], List, IfOk, OnOk, map, option_and_then};
ghost use Rattle.std.specs.List.{All};
ghost use Rattle.std.specs.Option.{option_copied, option_map, option_map_or};
ghost use Rattle.netlist_schema.specs.Hierarchy.{IsCell};
ghost use Rattle.netlist_schema.specs.Types.{CellId as Id};
ghost use Rattle.netlist_schema.specs.Valid.{IsValid};
ghost use Rattle.netlist_order_spec.specs.After.{AllAfter};
ghost use Rattle.flat_cells.specs.Below.{ComesBehind};
ghost use Rattle.net_classes.specs.Facts.{class_at, entry, facts_at, facts_of, first_at};
ghost use Rattle.net_classes.specs.Known.{AreKnown, AreSetAt, AreTold, HasChildrenIn};
ghost use Rattle.net_classes.specs.PortClasses.{AreClasses};

use crate::joints::Joint;
use crate::known::{cell_nets, no_tables, set_cell};
use crate::tables::{CellNets, table_of};
use flat_cells::cells_below;
use netlist_schema::{CellId, NoMemory, Shown};
use std::alloc::Global;
use std::marker::Model;

/// For each cell at or below a top, which of its nets and own bits are connected in its tree, and what its nets join.
pub struct Classes {
    /// By library and place.
    cells: Vec<Vec<CellNets>>,
}

impl Drop for Classes {
    fn drop(self) {
        let Classes { cells: _ } = self;
    }
}

impl Model for Classes {
    ghost use Rattle.std.specs.Prelude.{List, map};
    ghost use Rattle.net_classes.specs.Facts.{Facts, facts_of};

    ghost Value = { Facts };

    ghost view = { λ s. map (λ row. map facts_of row.items) s.cells.items };
}

/// Tells what is known of each of these cells, each of which stands behind the cells of its instances.
fn tell_all<S: Shown>(
    alloc: Global,
    design: &S,
    below: &[CellId],
    cells: &mut Vec<Vec<CellNets>>,
) -> Result<(), NoMemory>
    requires behind { AllAfter (ComesBehind (S.design design.now)) [] below.now }
    requires there { All (IsCell (S.design design.now)) below.now }
    requires valid { IsValid (S.design design.now) }
    requires none { AreKnown (S.design design.now) [] (map (λ row. map facts_of row.items) cells.old.items) }
    ensures { OnOk result (AreKnown (S.design design.now) below.now (map (λ row. map facts_of row.items) cells.new.items)) }
{
    for cell in below {
        let nets = cell_nets(alloc, design, cells.as_slice(), *cell)?;
        set_cell(cells, *cell, nets);
    }
    Ok(())
}

impl Classes {
    /// The classes of the cells at and below the top, which is a cell of the design. The one error is that an allocation was
    /// refused.
    ///
    /// Each cell is looked at once, behind the cells of its instances. It takes time and memory in proportion to instances, ends and
    /// own bits, times a logarithm of their number.
    pub fn of<S: Shown>(alloc: Global, design: &S, top: CellId) -> Result<Classes, NoMemory>
        requires { IsCell (S.design design.now) top }
        ensures { IfOk result (AreClasses (S.design design.now) top) }
    {
        let mut cells = no_tables(alloc, design)?;
        let below = cells_below(alloc, design, top)?;
        tell_all(alloc, design, below.as_slice(), &mut cells)?;
        Ok(Classes { cells })
    }

    /// Nothing is told of any cell of the design. It takes time and memory in proportion to the number of cells.
    pub fn none<S: Shown>(alloc: Global, design: &S) -> Result<Classes, NoMemory>
        ensures { IfOk result (AreKnown (S.design design.now) []) }
    {
        let cells = no_tables(alloc, design)?;
        Ok(Classes { cells })
    }

    /// What is to be told of a cell, where it is told of the cells of its instances. The one error is that an allocation was refused.
    ///
    /// It takes time and memory in proportion to instances, ends and own bits of the cell, times a logarithm of their number.
    pub fn nets_of<S: Shown>(
        &self,
        alloc: Global,
        design: &S,
        cell: CellId,
    ) -> Result<CellNets, NoMemory>
        ensures { IfOk result (λ nets. (done : List Id) → IsValid (S.design design.now) → AreKnown (S.design design.now) done self.now
            → HasChildrenIn (S.design design.now) cell done → AreTold (S.design design.now) cell (facts_of nets)) }
    {
        cell_nets(alloc, design, self.cells.as_slice(), cell)
    }

    /// Tells this of a cell. Takes no memory.
    pub fn set(&mut self, cell: CellId, nets: CellNets)
        ensures { AreSetAt self.old cell (facts_of nets) self.new }
    {
        set_cell(&mut self.cells, cell, nets);
    }

    /// What is known of a cell.
    #[inline(always)]
    fn find(&self, cell: CellId) -> Option<&CellNets>
        ensures { option_map facts_of (option_copied result) ≡ facts_at self.now cell }
    {
        table_of(self.cells.as_slice(), cell)
    }

    /// The least own bit, counted over all ports, that is connected with this one in the cell's tree: `None` exactly where no net of
    /// the cell joins it, or the cell is neither the top nor below it. Takes no memory.
    pub fn port_class(&self, cell: CellId, bit: u32) -> Option<u32>
        ensures { result ≡ class_at self.now cell bit }
    {
        *self.find(cell)?.least.as_slice().get(bit as usize)?
    }

    /// For each net of the cell, in order, the first net of the same contents that is connected with it in the cell's tree. Takes no
    /// memory.
    #[inline(always)]
    pub fn firsts(&self, cell: CellId) -> &[u32]
        ensures { result.now ≡ option_map_or (λ f. f.firsts) (facts_at self.now cell) [] }
    {
        match self.find(cell) {
            Some(nets) => nets.firsts.as_slice(),
            None => &[],
        }
    }

    /// The bits of the cell's instances that its nets join, by instance, port and bit. Takes no memory.
    #[inline(always)]
    pub fn joints(&self, cell: CellId) -> &[Joint]
        ensures { result.now ≡ option_map_or (λ f. f.joints) (facts_at self.now cell) [] }
    {
        match self.find(cell) {
            Some(nets) => nets.joints.as_slice(),
            None => &[],
        }
    }

    /// The first net of the cell's contents that is connected with the own bit in the cell's tree. Takes no memory.
    #[inline(always)]
    pub fn first_at(&self, cell: CellId, port: u32, bit: u32) -> Option<u32>
        ensures { result ≡ first_at self.now cell (record { port = port; bit = bit }) }
    {
        self.find(cell)?.first_at(port, bit)
    }

    /// The net of the cell's contents that joins the own bit, counted over all ports. Takes no memory.
    #[inline(always)]
    pub fn net_at(&self, cell: CellId, bit: u32) -> Option<u32>
        ensures { result ≡ option_and_then (λ f. entry f.nets bit) (facts_at self.now cell) }
    {
        *self.find(cell)?.own.as_slice().get(bit as usize)?
    }
}
