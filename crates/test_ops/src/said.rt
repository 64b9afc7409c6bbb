//! What the operations of a script reply, in words.
use eco_ops::{eco_op, is_single};
use edit_cells::PlainCells;
use edit_spec::{Op, Reply};
use script_lang::{Script, Step, parse, reply_text};
use std::alloc::Global;
use std::test::Fail;
use test_text_designs::design_of;

/// The most bytes of a script.
const MOST_BYTES: usize = 262_144;

/// Does an operation.
fn reply_to(alloc: Global, cells: &mut PlainCells, op: &Op) -> Result<Reply, Fail> {
    if !is_single(op) {
        return Err(Fail::from("no single operation"));
    }
    Ok(eco_op(alloc, cells, op)?)
}

/// The text of a reply as a line.
fn line_of(alloc: Global, reply: &Reply) -> Result<Vec<u8>, Fail> {
    let mut line = Vec::new(alloc);
    reply_text(alloc, reply, &mut line)?;
    line.push(b'\n')?;
    Ok(line)
}

/// Does an operation, and adds its reply as a line.
fn add_reply(
    alloc: Global,
    cells: &mut PlainCells,
    op: &Op,
    out: &mut Vec<u8>,
) -> Result<(), Fail> {
    let reply = reply_to(alloc, cells, op)?;
    let line = line_of(alloc, &reply)?;
    out.extend_from_slice(line.as_slice())?;
    Ok(())
}

/// Does the operations of a script in their order, and adds a line for each.
fn add_replies(
    alloc: Global,
    cells: &mut PlainCells,
    script: &Script,
    out: &mut Vec<u8>,
) -> Result<(), Fail> {
    for line in script.lines() {
        if let Step::Run(op) = &line.step {
            add_reply(alloc, cells, op, out)?;
        }
    }
    Ok(())
}

/// What the operations of a script reply on the design of a text, a line each.
pub fn replies(alloc: Global, design: &[u8], script: &str) -> Result<Vec<u8>, Fail> {
    if script.len() > MOST_BYTES {
        return Err(Fail::from("too long a script"));
    }
    let mut out = Vec::new(alloc);
    let script = parse(alloc, script.as_bytes())?;
    let mut cells = PlainCells::new(alloc, design_of(alloc, design)?);
    add_replies(alloc, &mut cells, &script, &mut out)?;
    Ok(out)
}
