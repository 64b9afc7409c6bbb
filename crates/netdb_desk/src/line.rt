//! The operation that a line of a transaction says.
ghost use Rattle.std.specs.Prelude.{◌≡◌, IfOk};
ghost use Rattle.std.specs.Option.{option_copied};
ghost use Rattle.script_spec.specs.ScriptText.{steps_of};
ghost use Rattle.netdb_desk.specs.Says.{ReadsLine, SaysSecond, block_text};

use crate::limits::MOST_LINE_BYTES;
use edit_spec::Op;
use netlist_schema::{Copied, NoMemory};
use script_reader::{ScriptError, parse};
use script_spec::{ScriptLine, Step, script_or_bad};
use std::alloc::Global;
use thiserror::Error;

/// Why a line is not run.
#[derive(Clone, Copy, Debug, PartialEq, Eq, Error)]
pub enum LineError {
    /// It says no operation.
    #[error("bad line")]
    BadLine,
    /// It has more than 200,000 bytes.
    #[error("too long")]
    TooLong,
    /// An allocation was refused.
    #[error("no memory")]
    NoMemory,
}

/// The text of a transaction of one line.
fn block_of(alloc: Global, line: &[u8]) -> Result<Vec<u8>, NoMemory>
    ensures { IfOk result (λ text. text.items ≡ block_text line.now) }
{
    let mut text = Vec::new(alloc);
    text.extend_from_slice(b"begin\n")?;
    text.extend_from_slice(line)?;
    text.extend_from_slice(b"\n")?;
    Ok(text)
}

/// The operation of the second of two lines, where there are two and the second says one.
fn second_op(lines: &[ScriptLine]) -> Option<&Op>
    ensures { SaysSecond (steps_of lines.now) (option_copied result) }
{
    match lines {
        [_, second] => match &second.step {
            Step::Run(op) => Some(op),
            _ => None,
        },
        _ => None,
    }
}

/// The operation that a line says, as a line of a script's transaction. `TooLong` comes exactly where the line has more than 200,000
/// bytes, and `BadLine` only where it says no operation: it is blank or a comment, says another step or none, or is several lines.
#[tactic(auto, using(crate::proofs::Lines::short_block))]
pub fn op_of(alloc: Global, line: &[u8]) -> Result<Op, LineError>
    ensures { ReadsLine line.now result }
{
    if line.len() > MOST_LINE_BYTES {
        return Err(LineError::TooLong);
    }
    let Ok(text) = block_of(alloc, line) else {
        return Err(LineError::NoMemory);
    };
    script_or_bad();
    match parse(alloc, text.as_slice()) {
        Ok(script) => match second_op(script.lines()) {
            Some(op) => match op.copy(alloc) {
                Ok(op) => Ok(op),
                Err(NoMemory) => Err(LineError::NoMemory),
            },
            None => Err(LineError::BadLine),
        },
        Err(ScriptError::BadLine(_)) => Err(LineError::BadLine),
        Err(ScriptError::NoMemory) => Err(LineError::NoMemory),
    }
}
