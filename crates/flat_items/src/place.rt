//! Where a walk stands.
ghost use Rattle.std.specs.Prelude.{◌≡◌, ◌++◌, codes, OnErr, OnOk};
ghost use Rattle.netlist_schema.specs.Design.{Design};
ghost use Rattle.flat_items.specs.Left.{is_over};
ghost use Rattle.flat_items.specs.Moves.{HasEntered, HasLeft};
ghost use Rattle.flat_items.specs.Stand.{IsParent, MayStand, stand_of};

use crate::steps::Steps;
use net_names::NetName;
use netlist_schema::{CellId, NoMemory};
use std::mem;

/// A pin: its number among the pins of the occurrence, from 0, and its port and the bit of it.
#[derive(Clone, Copy)]
pub struct PinAt {
    pub number: u32,
    pub port: u32,
    pub bit: u32,
}

/// Which of its own items an occurrence gives next: itself, then its nets, then its pins.
#[derive(Clone, Copy)]
pub enum Stage {
    /// All of them.
    Whole,
    /// The net with this place, and what is behind it.
    Nets(u32),
    /// This pin, and those behind it.
    Pins(PinAt),
    /// None.
    Done,
}

impl Stage {
    /// Whether it gives nothing any more.
    #[inline(always)]
    pub fn is_over(self) -> bool
        ensures { result ≡ is_over self }
    {
        matches!(self, Stage::Done)
    }
}

/// An occurrence on the way from the top to the one at which a walk stands.
#[derive(Drop)]
pub struct Frame {
    pub cell: CellId,
    /// The place of the instance that is entered next.
    pub next: u32,
    /// Where among the parent's joints those on this occurrence's instance are looked for first, and where those on the next one; where
    /// among its own those on the instance that is entered next. Only time depends on them.
    pub from: usize,
    pub upto: usize,
    pub near: usize,
    /// Where the text of the path to it ends.
    pub end: usize,
    /// For each first net of its contents the first net of the design that is connected with it.
    pub names: Vec<NetName>,
}

/// An occurrence as seen from one below it: its frame, the path to it, and the step that leads on.
#[derive(Drop)]
pub struct Parent<'a> {
    pub frame: &'a Frame,
    pub path: &'a [u32],
    pub step: u32,
}

/// Where a walk stands: the occurrences from the top down to the parent of the one whose items it gives, that one, what it gives of
/// it next, the steps from the top to it, and of each step `/` and the identifier of its instance.
pub struct Place {
    pub above: Vec<Frame>,
    pub here: Frame,
    pub stage: Stage,
    pub path: Steps,
    pub text: Vec<u8>,
}

impl Drop for Place {
    fn drop(self) {
        let Place {
            above: _,
            here: _,
            stage: _,
            path: _,
            text: _,
        } = self;
    }
}

/// Appends `/` and a name. After `NoMemory` the text is as before.
#[inline(always)]
fn push_name(name: &[u8], text: &mut Vec<u8>) -> Result<(), NoMemory>
    ensures ok { OnOk result (text.new.items ≡ text.old.items ++ (codes "/" ++ name.now)) }
    ensures err { OnErr result (text.new.items ≡ text.old.items) }
{
    let before = text.len();
    text.push(b'/')?;
    if text.extend_from_slice(name).is_err() {
        text.truncate(before);
        return Err(NoMemory);
    }
    Ok(())
}

impl Place {
    /// The occurrence above the one whose items are given: `None` at the top. Takes no memory.
    #[inline(always)]
    pub fn parent(&self) -> Option<Parent<'_>>
        ensures { (d : Design) → MayStand d (stand_of self.now) → IsParent d (stand_of self.now) result }
    {
        let Some((step, path)) = self.path.steps.as_slice().split_last() else {
            return None;
        };
        let Some(frame) = self.above.as_slice().last() else {
            return None;
        };
        Some(Parent {
            frame,
            path,
            step: *step,
        })
    }

    /// Enters by a step the occurrence whose frame this is, and whose instance has that name; the one that is left above goes on later
    /// with the instance at `next`. After `NoMemory` all is as before.
    #[inline(always)]
    pub fn enter(&mut self, step: u32, next: u32, name: &[u8], frame: Frame) -> Result<(), NoMemory>
        ensures ok { OnOk result (HasEntered (stand_of self.old) step next name.now frame (stand_of self.new)) }
        ensures err { OnErr result (stand_of self.new ≡ stand_of self.old) }
    {
        self.above.reserve(1)?;
        self.path.steps.reserve(1)?;
        push_name(name, &mut self.text)?;
        self.path.steps.push_reserved(step);
        let near = frame.upto;
        let mut above = mem::replace(&mut self.here, frame);
        above.next = next;
        above.near = near;
        self.above.push_reserved(above);
        self.stage = Stage::Whole;
        Ok(())
    }

    /// Leaves the occurrence for its parent, whose own items were given; whether there is a parent. Takes no memory.
    #[inline(always)]
    pub fn leave(&mut self) -> bool
        ensures { HasLeft (stand_of self.old) (stand_of self.new) result }
    {
        match self.above.pop() {
            Some(parent) => {
                self.path.steps.pop();
                self.text.truncate(parent.end);
                self.here = parent;
                self.stage = Stage::Done;
                true
            }
            None => false,
        }
    }
}
