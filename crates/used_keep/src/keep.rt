//! The design with nothing but its top and the cells below it.
ghost use Rattle.std.specs.Prelude.{◌≡◌, ◌↔◌, Err, IfOk, None, Ok, Some};
ghost use Rattle.used_spec.specs.Kept.{kept, kept_below, kept_places};

use crate::cells::{new_libs, new_top};
use crate::error::KeepError;
use crate::places::Places;
use netlist_schema::{Copied, Design, NoMemory, Shown, TopHead, design_is_valid};
use std::alloc::Global;

/// The design with nothing but its top and the cells below it, whose ids are numbered anew; libraries, properties, the top and the
/// notes stay. `NoTop` comes exactly where it has no top.
///
/// It takes time and memory in proportion to the cells and instances of the design, times a logarithm of the number of cells, and to
/// what is copied.
pub fn keep_used<S: Shown>(alloc: Global, design: &S) -> Result<Design, KeepError>
    ensures no_top { (result ≡ Err KeepError.NoTop) ↔ ((S.design design.now).top ≡ None) }
    ensures kept { IfOk result (λ made. made ≡ kept (S.design design.now)) }
{
    let Some(top) = design.top() else {
        return Err(KeepError::NoTop);
    };
    match keep_below(alloc, design, top) {
        Ok(made) => Ok(made),
        Err(_) => Err(KeepError::NoMemory),
    }
}

/// The same of a design with this top.
fn keep_below<S: Shown>(alloc: Global, design: &S, top: &TopHead) -> Result<Design, NoMemory>
    requires { (S.design design.now).top ≡ Some top.now }
    ensures { IfOk result (λ made. made ≡ kept_below (S.design design.now) top.now) }
{
    design_is_valid(design);
    let places = Places::of(alloc, design, top.cell)?;
    with_places(alloc, design, top, &places)
}

/// The same, where the places of the cells that are kept are known.
fn with_places<S: Shown>(
    alloc: Global,
    design: &S,
    top: &TopHead,
    places: &Places,
) -> Result<Design, NoMemory>
    requires top { (S.design design.now).top ≡ Some top.now }
    requires places { places.now ≡ kept_places (S.design design.now) top.now.cell }
    ensures { IfOk result (λ made. made ≡ kept_below (S.design design.now) top.now) }
{
    design_is_valid(design);
    let title = design.title().copy(alloc)?;
    let notes = design.notes().copy(alloc)?;
    let head = new_top(alloc, places, top)?;
    let libs = new_libs(alloc, places, design)?;
    Ok(Design::of(title, libs, Some(head), notes))
}
