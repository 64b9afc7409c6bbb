//! What is planned for an instance that is dissolved.
ghost use Rattle.std.specs.Prelude.{◌≡◌, IfSome, length};
ghost use Rattle.std.specs.Option.{option_copied};
ghost use Rattle.eco_reads.specs.Outcome.{UnlessNoMemory};
ghost use Rattle.ungroup_plans.specs.Heads.{AreSound};
ghost use Rattle.ungroup_plans.specs.Planned.{IsPlanned};

use crate::contents::dissolved;
use crate::notes::moved_notes;
use eco_reads::{OpError, inst_place};
use edit_spec::Reply;
use netlist_schema::{Contents, Ident, Note, Row};
use std::alloc::Global;

/// Contents and notes after an instance is dissolved.
#[derive(Debug, Drop)]
pub struct Ungrouped {
    pub contents: Contents,
    /// Given where the path of a note goes through the instance.
    pub notes: Option<Row<Note>>,
}

/// The contents and the notes after the instance with a name is dissolved, or the first refusal. For each note stands the place of
/// the step of its path that is the instance, if there is one.
///
/// It takes time in proportion to both contents, times a logarithm of the number of names, and where a note moves, to the notes.
pub fn plan_ungroup(
    alloc: Global,
    around: Option<&Contents>,
    inst: &Ident,
    within: &Option<Contents>,
    notes: &[Note],
    places: &[Option<usize>],
) -> Result<Ungrouped, OpError>
    requires around { IfSome around (λ contents. AreSound contents.now) }
    requires within { IfSome within.now AreSound }
    requires long { length places.now ≡ length notes.now }
    ensures { UnlessNoMemory (IsPlanned (option_copied around.entry) inst.now within.now notes.now places.now) result }
{
    let Some(around) = around else {
        return Err(OpError::Refused(Reply::NoInst));
    };
    let Some(place) = inst_place(&around.insts, inst) else {
        return Err(OpError::Refused(Reply::NoInst));
    };
    let Some(within) = within else {
        return Err(OpError::Refused(Reply::IsLeaf));
    };
    let contents = dissolved(alloc, around, place as u32, within)?;
    let children = contents.insts.iter_from(place);
    let notes = moved_notes(alloc, notes, places, &within.insts, children)?;
    Ok(Ungrouped { contents, notes })
}
