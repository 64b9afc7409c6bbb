//! `View`: a version, and a walk over it.
ghost use Rattle.std.specs.Prelude.{◌≡◌, ◌≢◌, ◌++◌, [], None, OnErr, OnOk, IfNone, IfSome, Ok, drop, false, slice_get, true};
ghost use Rattle.flat_lines_spec.specs.Lines.{item_line};
ghost use Rattle.std.specs.Option.{option_map};
ghost use Rattle.flat_items.specs.Lent.{item_of};
ghost use Rattle.netdb_view.specs.Showing.{HasGone};
ghost use Rattle.netdb_view.specs.Walking.{Begins, BeginsAt, StepsOn, StepsOnto};

use crate::kept::{Kept, keep};
use edit_tx::Snapshot;
use flat_items::ItemRef;
use flat_lookup::cell_along;
use flat_report::{lent_text, text_line};
use flat_spec::Path;
use netlist_schema::{NoMemory, Shown};
use occ_walk::{Walk, WalkError};
use std::alloc::Global;
use std::marker::Model;
use thiserror::Error;

/// Why a walk is not begun.
#[derive(Clone, Copy, Debug, PartialEq, Eq, Error)]
pub enum BeginError {
    /// The design has no top.
    #[error("no top")]
    NoTop,
    /// It has no occurrence at the path.
    #[error("no path")]
    NoPath,
    /// An allocation was refused.
    #[error("no memory")]
    NoMemory,
}

/// What a step of a walk answers.
#[derive(Clone, Copy, Debug, PartialEq, Eq)]
pub enum Step {
    /// The next item is shown.
    Shown,
    /// None is left.
    End,
    /// No walk was begun.
    NoWalk,
    /// An allocation was refused.
    NoMemory,
}

/// What a step of a walk with its line answers.
#[derive(Clone, Copy, Debug, PartialEq, Eq)]
pub enum LineStep {
    /// The next item is shown, and the text is its line.
    Shown,
    /// The next item is shown; for its line there was no memory.
    Lost,
    /// None is left.
    End,
    /// No walk was begun.
    NoWalk,
    /// An allocation was refused, and no item is shown for it.
    NoMemory,
}

/// Where the item that is shown stands.
#[derive(Clone, Copy, Debug)]
enum Showing {
    /// None is shown.
    Nothing,
    /// It is the walk's next item.
    Ahead,
    /// The walk has passed over it, and it is kept.
    Passed,
}

/// A version of a design, with a walk over its flattening where one was begun. It stays readable when the database is gone and when the
/// version is dropped there. Contracts see the version, the items that are left, and the item that is shown.
///
/// The walk passes over the item that is shown when the next one is asked for. An item behind which the walk goes on to another occurrence
/// is kept first, since there may be no memory for that.
pub struct View {
    alloc: Global,
    version: Snapshot,
    walk: Option<Walk<Snapshot>>,
    showing: Showing,
    kept: Option<Kept>,
}

impl Drop for View {
    fn drop(self) {
        let View {
            alloc: _,
            version: _,
            walk: _,
            showing: _,
            kept: _,
        } = self;
    }
}

impl Model for View {
    ghost use Rattle.std.specs.Prelude.{◌≡◌, IfSome};
    ghost use Rattle.std.specs.Option.{option_map};
    ghost use Rattle.netdb_view.specs.Facts.{ViewFacts};
    ghost use Rattle.netdb_view.specs.Showing.{MayShow, left_at, shown_at};

    ghost Value = { ViewFacts };

    ghost view = { λ v. record { version = v.version; left = option_map (left_at v.showing) v.walk; shown = shown_at v.showing v.walk v.kept } };

    ghost invariant = { λ v. IfSome v.walk (λ w. w.design ≡ v.version.design) × MayShow v.showing v.walk };
}

/// Passes over the item that is shown: whether the next one stands in the same occurrence. Else the item is kept. At an error the walk was
/// not changed.
fn pass<S: Shown + Drop>(
    alloc: Global,
    walk: &mut Walk<S>,
    kept: &mut Option<Kept>,
) -> Result<bool, NoMemory>
    requires { walk.old.over ≡ false }
    ensures design { walk.new.design ≡ walk.old.design }
    ensures within { result ≡ Ok true → (walk.new.left ≡ drop 1 walk.old.left) × (walk.new.over ≡ false) × (walk.new.left ≢ []) }
    ensures passed { result ≡ Ok false → (walk.new.left ≡ drop 1 walk.old.left) × (kept.new ≡ slice_get walk.old.left 0) }
    ensures err { OnErr result (walk.new ≡ walk.old) }
{
    if walk.skip_within() {
        let Some(_) = walk.current() else {
            unreachable!()
        };
        return Ok(true);
    }
    let Some(item) = walk.current() else {
        unreachable!()
    };
    keep(alloc, kept, item)?;
    walk.skip();
    Ok(false)
}

/// Goes on to the next item of a walk that has passed over the one that is shown.
fn go_on<S: Shown + Drop>(walk: &mut Walk<S>, showing: &mut Showing) -> Step
    ensures design { walk.new.design ≡ walk.old.design }
    ensures left { walk.new.left ≡ walk.old.left }
    ensures went { HasGone walk.new showing.old showing.new result }
{
    match walk.advance() {
        Ok(true) => {
            *showing = Showing::Ahead;
            Step::Shown
        }
        Ok(false) => {
            *showing = Showing::Nothing;
            Step::End
        }
        Err(NoMemory) => Step::NoMemory,
    }
}

impl View {
    /// A view of a version, of which nothing was walked. Takes no memory.
    pub fn of(alloc: Global, version: Snapshot) -> View
        ensures { result ≡ record { version = version; left = None; shown = None } }
    {
        View {
            alloc,
            version,
            walk: None,
            showing: Showing::Nothing,
            kept: None,
        }
    }

    /// Lends the version. Takes no memory.
    pub fn version(&self) -> &Snapshot
        ensures { result.now ≡ self.now.version }
    {
        &self.version
    }

    /// The allocator.
    pub(crate) fn alloc(&self) -> Global {
        self.alloc
    }

    /// Begins a walk over all items of the version's flattening, in place of one that was begun before. `NoTop` comes exactly where the
    /// design has no top. At an error nothing was changed.
    pub fn begin(&mut self) -> Result<(), WalkError>
        ensures { Begins self.old self.new result }
    {
        let Some(_) = self.version.top() else {
            return Err(WalkError::NoTop);
        };
        let Ok(version) = self.version.share() else {
            return Err(WalkError::NoMemory);
        };
        let Ok(walk) = Walk::new(self.alloc, version) else {
            return Err(WalkError::NoMemory);
        };
        self.walk = Some(walk);
        self.showing = Showing::Nothing;
        Ok(())
    }

    /// The same over the items at and below the occurrence at a path, whose steps are places of instances. First `NoTop` comes exactly
    /// where the design has no top, then `NoPath` exactly where it has no such occurrence.
    pub fn begin_at(&mut self, path: &[u32]) -> Result<(), BeginError>
        ensures { BeginsAt self.old self.new path.now result }
    {
        let Some(top) = self.version.top() else {
            return Err(BeginError::NoTop);
        };
        let Some(_) = cell_along(&self.version, top.cell, path) else {
            return Err(BeginError::NoPath);
        };
        let Ok(path) = Path::of(self.alloc, path) else {
            return Err(BeginError::NoMemory);
        };
        let Ok(version) = self.version.share() else {
            return Err(BeginError::NoMemory);
        };
        let Ok(walk) = Walk::at(self.alloc, version, &path) else {
            return Err(BeginError::NoMemory);
        };
        self.walk = Some(walk);
        self.showing = Showing::Nothing;
        Ok(())
    }

    /// Shows the next item of the walk. `End` comes exactly where none is left, and `NoWalk` exactly where none was begun. After
    /// `NoMemory`, which comes only of a walk that was, nothing was changed.
    pub fn next(&mut self) -> Step
        ensures { StepsOn self.old self.new result }
    {
        let Some(walk) = &mut self.walk else {
            return Step::NoWalk;
        };
        match self.showing {
            Showing::Ahead => match pass(self.alloc, walk, &mut self.kept) {
                Ok(true) => Step::Shown,
                Ok(false) => {
                    self.showing = Showing::Passed;
                    go_on(walk, &mut self.showing)
                }
                Err(NoMemory) => Step::NoMemory,
            },
            Showing::Nothing | Showing::Passed => go_on(walk, &mut self.showing),
        }
    }

    /// Shows the next item of the walk, as `next` does, and makes the text its line; where there is no memory for the line the text is
    /// empty. Where no item comes to be shown the text is left as it is.
    pub fn next_line(&mut self, text: &mut Vec<u8>) -> LineStep
        ensures { StepsOnto self.old self.new text.old.items text.new.items result }
    {
        match self.next() {
            Step::Shown => {}
            Step::End => return LineStep::End,
            Step::NoWalk => return LineStep::NoWalk,
            Step::NoMemory => return LineStep::NoMemory,
        }
        text.clear();
        match self.line(text) {
            Ok(()) => LineStep::Shown,
            Err(NoMemory) => LineStep::Lost,
        }
    }

    /// Lends the item that is shown. Takes no memory.
    pub fn shown(&self) -> Option<ItemRef<'_>>
        ensures { option_map item_of result ≡ self.now.shown }
    {
        match self.showing {
            Showing::Nothing => None,
            Showing::Ahead => match &self.walk {
                Some(walk) => walk.current(),
                None => None,
            },
            Showing::Passed => match &self.kept {
                Some(kept) => Some(kept.lent()),
                None => None,
            },
        }
    }

    /// Appends the line of the item that is shown; nothing where none is. After `NoMemory`, which comes only where one is, the bytes are as
    /// before.
    pub fn line(&self, out: &mut Vec<u8>) -> Result<(), NoMemory>
        ensures none { IfNone self.now.shown (out.new.items ≡ out.old.items) }
        ensures ok { IfSome self.now.shown (λ item. OnOk result (out.new.items ≡ out.old.items ++ item_line self.now.version.design item)) }
        ensures err { OnErr result ((out.new.items ≡ out.old.items) × (self.now.shown ≢ None)) }
    {
        if let Showing::Ahead = self.showing {
            let Some(walk) = &self.walk else {
                unreachable!()
            };
            let Some(line) = walk.text() else {
                unreachable!()
            };
            return text_line(self.alloc, walk.design(), line, out);
        }
        match self.shown() {
            Some(item) => lent_text(self.alloc, &self.version, item, out),
            None => Ok(()),
        }
    }
}
