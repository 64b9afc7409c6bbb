//! A design that is shown, in memory of its own.
ghost use Rattle.std.specs.Prelude.{◌≡◌, IfOk};
ghost use Rattle.std.specs.Option.{option_copied};
ghost use Rattle.netlist_schema.specs.Design.{cells_in};

use netlist_schema::{
    CellBody, CellId, Copied, Design, Lib, LibHead, LibId, NoMemory, Row, Shown, TopHead,
    design_is_valid,
};
use std::alloc::Global;

/// Copies of the cells of a library.
fn cells_of<S: Shown>(alloc: Global, design: &S, lib: LibId) -> Result<Row<CellBody>, NoMemory>
    ensures { IfOk result (λ cells. cells ≡ cells_in (S.design design.now) lib) }
{
    let mut made = Vec::new(alloc);
    for slot in 0..design.cell_count(lib) {
        if let Some(body) = design.cell(CellId { lib, slot }) {
            made.push(body.copy(alloc)?)?;
        }
    }
    Ok(Row::of(made))
}

/// A copy of a library with this head.
fn lib_of<S: Shown>(alloc: Global, design: &S, lib: u32, head: &LibHead) -> Result<Lib, NoMemory>
    ensures { IfOk result (λ made. made ≡ record { head = head.now; cells = cells_in (S.design design.now) (record { 0 = lib }) }) }
{
    Ok(Lib {
        head: head.copy(alloc)?,
        cells: cells_of(alloc, design, LibId(lib))?,
    })
}

/// Copies of the libraries.
fn libs_of<S: Shown>(alloc: Global, design: &S) -> Result<Row<Lib>, NoMemory>
    ensures { IfOk result (λ libs. libs ≡ (S.design design.now).libs) }
{
    let mut made = Vec::new(alloc);
    for lib in 0..design.lib_count() {
        if let Some(head) = design.lib(LibId(lib)) {
            made.push(lib_of(alloc, design, lib, head)?)?;
        }
    }
    Ok(Row::of(made))
}

/// A copy of a top, where there is one. The one error is that an allocation was refused.
pub fn top_of(alloc: Global, top: Option<&TopHead>) -> Result<Option<TopHead>, NoMemory>
    ensures { IfOk result (λ made. made ≡ option_copied top.entry) }
{
    match top {
        Some(top) => Ok(Some(top.copy(alloc)?)),
        None => Ok(None),
    }
}

/// The design that is shown, in memory of its own. The one error is that an allocation was refused.
pub fn copy_of<S: Shown>(alloc: Global, design: &S) -> Result<Design, NoMemory>
    ensures { IfOk result (λ made. made ≡ S.design design.now) }
{
    design_is_valid(design);
    let title = design.title().copy(alloc)?;
    let notes = design.notes().copy(alloc)?;
    let top = top_of(alloc, design.top())?;
    let libs = libs_of(alloc, design)?;
    Ok(Design::of(title, libs, top, notes))
}
