//! The frames of occurrences, made from those above them.
ghost use Rattle.std.specs.Prelude.{◌≡◌, ◌+◌, ◌++◌, ◌∷◌, [], IfOk, IfSome, Some, length, slice_get};
ghost use Rattle.netlist_schema.specs.Hierarchy.{insts_at};
ghost use Rattle.occ_walk.specs.Below.{IsBelowAt};
ghost use Rattle.flat_items.specs.Stand.{IsFrame, IsGround, top_of};

use flat_items::{Frame, Ground};
use flat_lookup::inst_at;
use net_names::{Above, joints_on, names_below, top_names};
use netlist_schema::{CellId, Inst, NoMemory, Shown};

/// The frame of the top, whose cell this is.
pub(crate) fn top_frame<S: Shown + Drop>(ground: &Ground<S>, top: CellId) -> Result<Frame, NoMemory>
    requires ground { IsGround (S.design ground.now.design) ground.now.classes ground.now.notes }
    requires is_top { (top_of (S.design ground.now.design)).cell ≡ top }
    ensures frame { IfOk result (IsFrame (S.design ground.now.design) []) }
    ensures fresh { IfOk result (λ frame. (frame.cell ≡ top) × (frame.next ≡ 0)) }
{
    Ok(Frame {
        cell: top,
        next: 0,
        from: 0,
        upto: 0,
        near: 0,
        end: 0,
        names: top_names(ground.alloc, &ground.design, top)?,
    })
}

/// Where the text of a path ends that goes on to an instance with that name, behind one that ends there: `None` where there is no such
/// number.
#[inline(always)]
fn end_below(end: usize, name: &[u8]) -> Option<usize>
    ensures { IfSome result (λ below. below ≡ end + 1 + length name.now) }
{
    end.checked_add(1)?.checked_add(name.len())
}

/// The frame of the occurrence of an instance of the occurrence at the path.
#[inline(always)]
fn frame_below<S: Shown + Drop>(
    ground: &Ground<S>,
    path: &[u32],
    here: &Frame,
    step: u32,
    inst: &Inst,
) -> Result<Frame, NoMemory>
    requires ground { IsGround (S.design ground.now.design) ground.now.classes ground.now.notes }
    requires frame { IsFrame (S.design ground.now.design) path.now here.now }
    requires inst { slice_get (insts_at (S.design ground.now.design) here.now.cell) step ≡ Some inst.now }
    ensures frame { IfOk result (IsFrame (S.design ground.now.design) (path.now ++ step ∷ [])) }
    ensures fresh { IfOk result (λ frame. (frame.cell ≡ inst.now.of) × (frame.next ≡ 0)) }
{
    let run = joints_on(ground.classes.joints(here.cell), here.near, step);
    let above = Above {
        joints: run.joints,
        names: here.names.as_slice(),
        firsts: ground.classes.firsts(here.cell),
    };
    let Some(end) = end_below(here.end, inst.name.id.as_slice()) else {
        return Err(NoMemory);
    };
    let names = names_below(
        ground.alloc,
        &ground.design,
        &ground.classes,
        inst.of,
        path.len() as u32 + 1,
        &above,
    )?;
    Ok(Frame {
        cell: inst.of,
        next: 0,
        from: run.from,
        upto: run.upto,
        near: 0,
        end,
        names,
    })
}

/// The occurrence of an instance: its frame, and the identifier of the instance.
#[derive(Drop)]
pub struct Below<'a> {
    pub frame: Frame,
    pub name: &'a [u8],
}

/// The occurrence of an instance of the occurrence at the path: `None` exactly where there is no such instance.
#[inline(always)]
pub(crate) fn below_at<'a, S: Shown + Drop>(
    ground: &'a Ground<S>,
    path: &[u32],
    here: &Frame,
    step: u32,
) -> Result<Option<Below<'a>>, NoMemory>
    requires ground { IsGround (S.design ground.now.design) ground.now.classes ground.now.notes }
    requires frame { IsFrame (S.design ground.now.design) path.now here.now }
    ensures { IfOk result (IsBelowAt (S.design ground.now.design) path.now here.now.cell step) }
{
    match inst_at(&ground.design, here.cell, step) {
        Some(inst) => Ok(Some(Below {
            frame: frame_below(ground, path, here, step, inst)?,
            name: inst.name.id.as_slice(),
        })),
        None => Ok(None),
    }
}
