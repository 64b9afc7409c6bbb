//! `BlockFrame`: an occurrence whose blocks are gone through.
ghost use Rattle.std.specs.Prelude.{◌≡◌, ◌+◌, ◌<◌, ◌^◌, IfOk, IfSome, slice_get};
ghost use Rattle.uniquify_op.specs.Frames.{IsTaken, row_at};

use netlist_schema::{NoMemory, Row};
use uniquify_copies::Step;

/// An occurrence whose blocks are gone through, in order.
#[derive(Clone, Copy)]
pub struct BlockFrame {
    /// Its number: 0 is the top's, and k that of the k-th occurrence on the list.
    pub number: usize,
    /// The place of the row of its blocks.
    pub row: usize,
    /// How many of them were taken.
    pub taken: usize,
}

/// What comes next.
pub enum Next {
    /// All was gone through.
    End,
    /// The blocks of the last occurrence were all taken, and it was put aside.
    Back,
    /// A block, and the number of the occurrence in which it stands.
    Block { above: usize, step: Step },
}

/// The block at a place of a row.
fn block_at(rows: &[Row<Step>], row: usize, place: usize) -> Option<Step>
    ensures block { result ≡ slice_get (row_at rows.now row) place }
    ensures within { IfSome result (λ _. place + 1 < 2 ^ 64) }
{
    if row >= rows.len() {
        return None;
    }
    let blocks = rows[row].as_slice();
    if place >= blocks.len() {
        return None;
    }
    Some(blocks[place])
}

/// Takes the next block of the last occurrence, or puts that aside where all of its blocks were taken.
pub(crate) fn take_next(rows: &[Row<Step>], stack: &mut Vec<BlockFrame>) -> Result<Next, NoMemory>
    ensures { IfOk result (IsTaken rows.now stack.old.items stack.new.items) }
{
    let Some(frame) = stack.pop() else {
        return Ok(Next::End);
    };
    let Some(step) = block_at(rows, frame.row, frame.taken) else {
        return Ok(Next::Back);
    };
    stack.push(BlockFrame {
        number: frame.number,
        row: frame.row,
        taken: frame.taken + 1,
    })?;
    Ok(Next::Block {
        above: frame.number,
        step,
    })
}
