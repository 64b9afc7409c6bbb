//! `Snapshot`: one version of a design, with its number.
ghost use Rattle.std.specs.Prelude.{◌≡◌, option_and_then, IfOk};
ghost use Rattle.edit_rules_spec.specs.Find.{cell_in, lib_named};
ghost use Rattle.std.specs.Arc.{arc_value};

use crate::version::Version;
use netlist_schema::{
    CellBody, CellId, Ident, LibHead, LibId, Name, NoMemory, Note, Row, Shown, TopHead,
};
use std::marker::Model;
use std::sync::Arc;

/// One version of a design. Further snapshots of it share its parts, and a snapshot can be read as long as it is held.
pub struct Snapshot {
    version: u64,
    parts: Arc<Version>,
}

impl Drop for Snapshot {
    fn drop(self) {
        let Snapshot {
            version: _,
            parts: _,
        } = self;
    }
}

impl Model for Snapshot {
    ghost use Rattle.db_version.specs.Shot.{Shot};
    ghost use Rattle.std.specs.Arc.{arc_value};

    ghost Value = { Shot };

    ghost view = { λ s. record { version = s.version; design = arc_value s.parts } };
}

impl Snapshot {
    /// The snapshot of this version. Takes no memory.
    pub fn of(version: u64, parts: Arc<Version>) -> Snapshot
        ensures { result ≡ record { version = version; design = arc_value parts } }
    {
        Snapshot { version, parts }
    }

    /// The number of the version.
    pub fn version(&self) -> u64
        ensures { result ≡ self.now.version }
    {
        self.version
    }

    /// Its design, whose parts are shared.
    pub fn parts(&self) -> &Version
        ensures { result.now ≡ self.now.design }
    {
        &*self.parts
    }

    /// The cell with these names: `None` exactly where there is no such cell. Takes no memory.
    pub fn find(&self, lib: &Ident, cell: &Ident) -> Option<CellId>
        ensures { result ≡ option_and_then (cell_in self.now.design cell.now) (lib_named self.now.design lib.now) }
    {
        match self.parts().lib_named(lib) {
            Some(lib) => self.parts().find(lib, cell),
            None => None,
        }
    }

    /// Another snapshot of this version, of the same parts.
    pub fn share(&self) -> Result<Snapshot, NoMemory>
        ensures { IfOk result (λ made. made ≡ self.now) }
    {
        let parts = Arc::try_clone(&self.parts)?;
        Ok(Snapshot {
            version: self.version,
            parts,
        })
    }
}

impl Shown for Snapshot {
    ghost design = { λ s. s.design };

    fn title(&self) -> &Name {
        self.parts().title()
    }

    fn lib_count(&self) -> u32 {
        self.parts().lib_count()
    }

    fn lib(&self, lib: LibId) -> Option<&LibHead> {
        self.parts().lib(lib)
    }

    fn cell_count(&self, lib: LibId) -> u32 {
        self.parts().cell_count(lib)
    }

    fn cell(&self, id: CellId) -> Option<&CellBody> {
        self.parts().cell(id)
    }

    fn top(&self) -> Option<&TopHead> {
        self.parts().top()
    }

    fn notes(&self) -> &Row<Note> {
        self.parts().notes()
    }
}
