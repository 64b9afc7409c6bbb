//! Scripts.
ghost use Rattle.std.specs.Prelude.{◌≡◌};
ghost use Rattle.script_spec.specs.ScriptText.{IsScript};

use edit_spec::Op;
use netlist_schema::Row;
use std::marker::Model;

/// What a line of a script asks for. `docs/scripts.md` has the table of lines.
#[derive(Debug)]
pub enum Step {
    /// Pins the last version and begins a transaction. After a conflict it is run again, this often at most.
    Begin { retries: u32 },
    /// An operation in a transaction.
    Run(Op),
    /// Ends the transaction by a commit.
    Commit,
    /// Ends the transaction without one.
    Abandon,
    /// Pins the last version.
    Pin,
    /// Pins the version of this number.
    PinAt(u64),
    /// Shows the items of the pinned version's flattening, at most so many.
    Walk { limit: Option<u64> },
    /// Ends the pin.
    Release,
    /// Drops the versions that no pin holds.
    Collect,
}

impl Drop for Step {
    fn drop(self) {
        match self {
            Step::Begin { retries: _ } => {}
            Step::Run(_) => {}
            Step::Commit => {}
            Step::Abandon => {}
            Step::Pin => {}
            Step::PinAt(_) => {}
            Step::Walk { limit: _ } => {}
            Step::Release => {}
            Step::Collect => {}
        }
    }
}

/// A line that is neither blank nor a comment. Lines count from 1.
#[derive(Debug)]
pub struct ScriptLine {
    pub number: u32,
    pub step: Step,
}

impl Drop for ScriptLine {
    fn drop(self) {
        let ScriptLine { number: _, step: _ } = self;
    }
}

/// A script: its lines that are neither blank nor comments, in order, and the number of the text's last line, 0 for an empty text.
///
/// The numbers of its lines rise, from at least 1 to at most the last line's; there are at most 262,144 lines; and each step can
/// be said and may stand in its place.
#[derive(Debug)]
pub struct Script {
    lines: Row<ScriptLine>,
    last: u32,
}

impl Drop for Script {
    fn drop(self) {
        let Script { lines: _, last: _ } = self;
    }
}

impl Model for Script {
    ghost use Rattle.script_spec.specs.ScriptText.{IsScript, Parts};

    ghost Value = { Parts };

    ghost view = { λ s. record { lines = s.lines; last = s.last } };

    ghost invariant = { λ s. IsScript (record { lines = s.lines; last = s.last }) };
}

impl Script {
    /// The script of these lines. Takes no memory.
    pub fn of(lines: Row<ScriptLine>, last: u32) -> Script
        requires { IsScript (record { lines = lines; last = last }) }
        ensures { result ≡ record { lines = lines; last = last } }
    {
        Script { lines, last }
    }

    /// Lends the lines, in order.
    pub fn lines(&self) -> &[ScriptLine]
        ensures value { result.now ≡ self.now.lines }
        ensures script { IsScript self.now }
    {
        self.lines.as_slice()
    }

    /// The number of the text's last line.
    pub fn last(&self) -> u32
        ensures { result ≡ self.now.last }
    {
        self.last
    }
}
