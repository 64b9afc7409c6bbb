//! What is said of a design that is edited.
use edif_writer::write_design;
use edit_tx::apply_op;
use netdb_outside::MemSink;
use netlist_schema::Design;
use script_lang::{Script, Step, parse};
use std::alloc::Global;
use std::test::Fail;
use test_text_designs::design_of;
use used_lines::write_uses;
use where_used::{Used, Watched};

/// The most bytes of a script.
const MOST_BYTES: usize = 262_144;

/// The lines of the uses of a design by an index that is made anew.
pub fn uses_of(alloc: Global, design: &Design) -> Result<Vec<u8>, Fail> {
    let used = Used::of(alloc, design)?;
    let mut sink = MemSink::new(alloc, None);
    write_uses(alloc, design, &used, &mut sink)?;
    Ok(sink.written().to_vec(alloc)?)
}

/// The lines of the uses of a design that is watched, by its own index. The test fails where they are not those of an index that is
/// made anew.
fn watched_uses(alloc: Global, watched: &Watched) -> Result<Vec<u8>, Fail> {
    let mut sink = MemSink::new(alloc, None);
    write_uses(alloc, watched.design(), watched.used(), &mut sink)?;
    let anew = uses_of(alloc, watched.design())?;
    if sink.written() != anew.as_slice() {
        return Err(Fail::from("another index"));
    }
    Ok(anew)
}

/// Does the operations of a script, in their order.
fn edit(alloc: Global, watched: &mut Watched, script: &Script) -> Result<(), Fail> {
    for line in script.lines() {
        if let Step::Run(op) = &line.step {
            let _reply = apply_op(alloc, watched, op)?;
            let _lines = watched_uses(alloc, watched)?;
        }
    }
    Ok(())
}

/// The script of a text.
pub fn script_of(alloc: Global, text: &str) -> Result<Script, Fail> {
    if text.len() > MOST_BYTES {
        return Err(Fail::from("too long a script"));
    }
    Ok(parse(alloc, text.as_bytes())?)
}

/// The lines of the uses after the operations of a script.
pub fn uses_after(alloc: Global, design: &str, script: &str) -> Result<Vec<u8>, Fail> {
    let script = script_of(alloc, script)?;
    let mut watched = Watched::new(alloc, design_of(alloc, design.as_bytes())?)?;
    edit(alloc, &mut watched, &script)?;
    watched_uses(alloc, &watched)
}

/// The text of a design.
pub fn text_of(alloc: Global, design: &Design) -> Result<Vec<u8>, Fail> {
    let mut sink = MemSink::new(alloc, None);
    write_design(alloc, design, &mut sink)?;
    Ok(sink.written().to_vec(alloc)?)
}
