//! Where a walk begins.
ghost use Rattle.std.specs.Prelude.{◌≡◌, ◌++◌, ◌∷◌, [], IfOk, IsSome, OnOk, slice_get};
ghost use Rattle.netlist_schema.specs.Hierarchy.{insts_at};
ghost use Rattle.flat_spec.specs.Paths.{cell_along};
ghost use Rattle.occ_walk.specs.Starts.{IsAtStart};
ghost use Rattle.flat_items.specs.Stand.{IsGround, stand_of, top_of};

use crate::frames::{Below, below_at, top_frame};
use flat_items::{Ground, Place, Stage, Steps};
use flat_lookup::insts_at;
use netlist_schema::{CellId, NoMemory, Shown};

/// The place before the first item of all, where the top has this cell.
pub fn start<S: Shown + Drop>(ground: &Ground<S>, top: CellId) -> Result<Place, NoMemory>
    requires ground { IsGround (S.design ground.now.design) ground.now.classes ground.now.notes }
    requires is_top { (top_of (S.design ground.now.design)).cell ≡ top }
    ensures { IfOk result (λ place. IsAtStart (S.design ground.now.design) [] (stand_of place)) }
{
    let here = top_frame(ground, top)?;
    Ok(Place {
        above: Vec::new(ground.alloc),
        here,
        stage: Stage::Whole,
        path: Steps {
            steps: Vec::new(ground.alloc),
        },
        text: Vec::new(ground.alloc),
    })
}

/// Goes from before the first item of an occurrence to before that of one below it. Of what is above and beside that, nothing is given
/// any more.
fn go_down<S: Shown + Drop>(
    ground: &Ground<S>,
    place: &mut Place,
    step: u32,
) -> Result<(), NoMemory>
    requires ground { IsGround (S.design ground.now.design) ground.now.classes ground.now.notes }
    requires start { IsAtStart (S.design ground.now.design) place.old.path.steps.items (stand_of place.old) }
    requires there { IsSome (slice_get (insts_at (S.design ground.now.design) place.old.here.cell) step) }
    ensures { OnOk result (IsAtStart (S.design ground.now.design) (place.old.path.steps.items ++ step ∷ []) (stand_of place.new)) }
{
    let count = insts_at(&ground.design, place.here.cell).len() as u32;
    let found = below_at(ground, place.path.steps.as_slice(), &place.here, step)?;
    let Some(below) = found else {
        return Ok(());
    };
    let Below { frame, name } = below;
    place.enter(step, count, name, frame)?;
    Ok(())
}

/// Goes from before the first item of all to before that of the occurrence at a path.
pub(crate) fn go_along<S: Shown + Drop>(
    ground: &Ground<S>,
    place: &mut Place,
    path: &[u32],
) -> Result<(), NoMemory>
    requires ground { IsGround (S.design ground.now.design) ground.now.classes ground.now.notes }
    requires start { IsAtStart (S.design ground.now.design) [] (stand_of place.old) }
    requires there { IsSome (cell_along (S.design ground.now.design) (top_of (S.design ground.now.design)).cell path.now) }
    ensures { OnOk result (IsAtStart (S.design ground.now.design) path.now (stand_of place.new)) }
{
    for step in path {
        go_down(ground, place, *step)?;
    }
    Ok(())
}
