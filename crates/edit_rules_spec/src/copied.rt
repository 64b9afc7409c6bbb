//! Copies of names.
ghost use Rattle.netlist_schema.specs.Ident.{IsIdentifier};

use crate::reply::{CellName, EndName};
use netlist_schema::{Copied, NoMemory};
use std::alloc::Global;

impl Copied for CellName {
    ghost typed = { λ name. IsIdentifier name.cell };

    fn copy(&self, alloc: Global) -> Result<CellName, NoMemory> {
        Ok(CellName {
            lib: self.lib.copy(alloc)?,
            cell: self.cell.copy(alloc)?,
        })
    }
}

impl Copied for EndName {
    ghost typed = { λ _. Unit {0} };

    fn copy(&self, alloc: Global) -> Result<EndName, NoMemory> {
        Ok(EndName {
            inst: self.inst.copy(alloc)?,
            port: self.port.copy(alloc)?,
            bit: self.bit,
        })
    }
}
