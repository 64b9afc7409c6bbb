//! `Shown`: a design that can be looked at.
ghost use Rattle.std.specs.Prelude.{◌≡◌, ◌≤◌, length, IfSome};
ghost use Rattle.std.specs.Option.{option_copied, option_map};
ghost use Rattle.netlist_schema.specs.Design.{Design as Parts, lib_at, cells_in, cell_at};
ghost use Rattle.netlist_schema.specs.Valid.{IsValid, IsValidCell};

use crate::cell::CellBody;
use crate::ids::{CellId, LibId};
use crate::library::{LibHead, Note, TopHead};
use crate::limits::{MOST_CELLS, MOST_LIBS};
use crate::property::Name;
use netlist_parts::Row;

/// A value that shows a design. Each call is exact, takes no memory, and leaves the design as it is.
pub trait Shown {
    /// The design that it shows.
    ghost design: { Self → Parts };

    /// The title.
    fn title(&self) -> &Name
        ensures { result.now ≡ (design self.now).title };

    /// The number of libraries, at most `MOST_LIBS`.
    fn lib_count(&self) -> u32
        ensures value { result ≡ length (design self.now).libs }
        ensures limit { result ≤ MOST_LIBS }
        ensures valid { IsValid (design self.now) };

    /// The head of a library: `None` exactly where there is no such library.
    fn lib(&self, lib: LibId) -> Option<&LibHead>
        ensures { option_copied result ≡ option_map (λ l. l.head) (lib_at (design self.now) lib) };

    /// The number of cells of a library, at most `MOST_CELLS`; 0 where there is no such library.
    fn cell_count(&self, lib: LibId) -> u32
        ensures value { result ≡ length (cells_in (design self.now) lib) }
        ensures limit { result ≤ MOST_CELLS };

    /// A cell: `None` exactly where there is no such cell.
    fn cell(&self, id: CellId) -> Option<&CellBody>
        ensures value { option_copied result ≡ cell_at (design self.now) id }
        ensures valid { IfSome result (λ body. IsValidCell (design self.now) id body.now) };

    /// The top: `None` exactly where the design has none.
    fn top(&self) -> Option<&TopHead>
        ensures value { option_copied result ≡ (design self.now).top }
        ensures valid { IsValid (design self.now) };

    /// The notes, in order.
    fn notes(&self) -> &Row<Note>
        ensures { result.now ≡ (design self.now).notes };
}

impl<S: Shown> Shown for &S {
    ghost design = { λ s. S.design s.now };

    fn title(&self) -> &Name {
        (**self).title()
    }

    fn lib_count(&self) -> u32 {
        (**self).lib_count()
    }

    fn lib(&self, lib: LibId) -> Option<&LibHead> {
        (**self).lib(lib)
    }

    fn cell_count(&self, lib: LibId) -> u32 {
        (**self).cell_count(lib)
    }

    fn cell(&self, id: CellId) -> Option<&CellBody> {
        (**self).cell(id)
    }

    fn top(&self) -> Option<&TopHead> {
        (**self).top()
    }

    fn notes(&self) -> &Row<Note> {
        (**self).notes()
    }
}

/// Tells that a design is valid, as each value of its type is. Takes no memory, and does nothing.
pub fn design_is_valid<S: Shown>(design: &S)
    ensures { IsValid (S.design design.now) }
{
    let _ = design.lib_count();
}
