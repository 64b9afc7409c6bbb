//! `Used`: an index of where the cells of a design are used.
ghost use Rattle.std.specs.Prelude.{◌≡◌, IfOk, OnErr, OnOk};
ghost use Rattle.std.specs.Option.{option_copied};
ghost use Rattle.used_spec.specs.Uses.{uses, users_at};
ghost use Rattle.where_used.specs.Rows.{drop_in, put_in, with_row, without_row};

use crate::build::{add_all, blank};
use crate::rows::{add_row, cut_row, drop_use, put_use};
use netlist_schema::{CellId, LibId, NoMemory, Row, Shown};
use std::alloc::Global;
use std::marker::Model;
use used_spec::UsedAt;

/// For each cell of a design the places where it is used. Contracts see the lists by library and place.
#[derive(Debug)]
pub struct Used {
    libs: Vec<Row<Row<UsedAt>>>,
}

impl Drop for Used {
    fn drop(self) {
        let Used { libs: _ } = self;
    }
}

impl Model for Used {
    ghost use Rattle.std.specs.Prelude.{List};
    ghost use Rattle.used_spec.specs.declared.used_at.UsedAt.{UsedAt as Use};
    ghost use Rattle.where_used.specs.Rows.{IsIndex};

    ghost Value = { List (List (List Use)) };

    ghost view = { λ u. u.libs.items };

    ghost invariant = { λ u. IsIndex u.libs.items };
}

impl Used {
    /// The index of a design. The one error is that an allocation was refused. It takes time and memory in proportion to the cells and
    /// instances.
    pub fn of<S: Shown>(alloc: Global, design: &S) -> Result<Used, NoMemory>
        ensures { IfOk result (λ used. used ≡ uses (S.design design.now)) }
    {
        let mut libs = blank(alloc, design)?;
        add_all(alloc, &mut libs, design)?;
        Ok(Used { libs })
    }

    /// The uses of a cell, in order of libraries, cells and contents: `None` exactly where there is no such cell. Takes no memory.
    pub fn users(&self, cell: CellId) -> Option<&Row<UsedAt>>
        ensures { option_copied result ≡ users_at self.now cell }
    {
        self.libs
            .as_slice()
            .get(cell.lib.0 as usize)?
            .as_slice()
            .get(cell.slot as usize)
    }

    /// Puts a use of a cell into its list, in order. Where memory is refused, the index stays.
    pub(crate) fn put(&mut self, alloc: Global, of: CellId, at: UsedAt) -> Result<(), NoMemory>
        ensures ok { OnOk result (self.new ≡ put_in of at self.old) }
        ensures err { OnErr result (self.new ≡ self.old) }
    {
        put_use(alloc, &mut self.libs, of, at)
    }

    /// Takes a use of a cell out of its list.
    pub(crate) fn take_out(&mut self, alloc: Global, of: CellId, at: UsedAt)
        ensures { self.new ≡ drop_in of at self.old }
    {
        drop_use(alloc, &mut self.libs, of, at)
    }

    /// Adds an empty list for a cell more of a library. Where memory is refused, the index stays.
    pub(crate) fn add_cell(&mut self, alloc: Global, lib: LibId) -> Result<(), NoMemory>
        ensures ok { OnOk result (self.new ≡ with_row lib self.old) }
        ensures err { OnErr result (self.new ≡ self.old) }
    {
        add_row(alloc, &mut self.libs, lib)
    }

    /// Takes the list of the last cell of a library out.
    pub(crate) fn cut_cell(&mut self, lib: LibId)
        ensures { self.new ≡ without_row lib self.old }
    {
        cut_row(&mut self.libs, lib)
    }
}
