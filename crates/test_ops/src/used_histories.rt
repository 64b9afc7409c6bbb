//! The uses of the last version of a history.
use crate::used_said::{script_of, uses_of};
use crate::used_texts::SMALL;
use db_spec::{Answer, Call, Event};
use edit_spec::Op;
use head_uses::write_head_uses;
use netdb_outside::{MemSink, WriteError};
use netlist_schema::{Copied, Object, Row};
use script_lang::Step;
use std::alloc::Global;
use std::test::Fail;
use test_text_designs::design_of;

/// The operations of a script's lines.
fn ops_of(alloc: Global, script: &str) -> Result<Row<Op>, Fail> {
    let script = script_of(alloc, script)?;
    let mut ops = Vec::new(alloc);
    for line in script.lines() {
        if let Step::Run(op) = &line.step {
            ops.push(op.copy(alloc)?)?;
        }
    }
    Ok(Row::of(ops))
}

/// A commit of the operations of a script's lines, with this answer.
fn commit(alloc: Global, script: &str, answer: Answer) -> Result<Event, Fail> {
    Ok(Event {
        caller: 0,
        call: Call::Commit {
            pin: 0,
            ops: ops_of(alloc, script)?,
        },
        answer,
    })
}

/// The answer that a commit made this version.
fn committed(alloc: Global, version: u64) -> Answer {
    Answer::Committed {
        version,
        replies: Row::of(Vec::new(alloc)),
    }
}

/// Two accepted commits, one that met a conflict between them, and calls that are no commits.
fn history(alloc: Global) -> Result<Vec<Event>, Fail> {
    let mut events = Vec::new(alloc);
    events.push(Event {
        caller: 0,
        call: Call::Pin,
        answer: Answer::Pinned { pin: 0, version: 0 },
    })?;
    events.push(commit(
        alloc,
        "begin\nadd-inst w T b w P\ncommit\n",
        committed(alloc, 1),
    )?)?;
    events.push(commit(
        alloc,
        "begin\nadd-inst w T c w Q\ncommit\n",
        Answer::Conflict {
            object: Object::Notes,
            version: 1,
        },
    )?)?;
    events.push(commit(
        alloc,
        "begin\nadd-cell w N leaf\ndrop-inst w T a\ncommit\n",
        committed(alloc, 2),
    )?)?;
    events.push(Event {
        caller: 0,
        call: Call::Release(0),
        answer: Answer::Released,
    })?;
    Ok(events)
}

#[test]
fn uses_of_the_last_version_are_told(rt: HostRuntime) -> Result<(), Fail> {
    let alloc = rt.alloc();
    let opening = design_of(alloc, SMALL.as_bytes())?;
    let mut sink = MemSink::new(alloc, None);
    write_head_uses(alloc, &opening, history(alloc)?.as_slice(), &mut sink)?;
    assert!(rt;
        sink.written()
            == "uses\ncell w Q uses 0\ncell w P uses 1\n use w T b\ncell w T uses 0\ncell w N uses 0\n".as_bytes()
    );
    Ok(())
}

#[test]
fn without_events_they_are_those_of_the_opening(rt: HostRuntime) -> Result<(), Fail> {
    let alloc = rt.alloc();
    let opening = design_of(alloc, SMALL.as_bytes())?;
    let mut sink = MemSink::new(alloc, None);
    write_head_uses(alloc, &opening, &[], &mut sink)?;
    assert!(rt; sink.written() == uses_of(alloc, &opening)?.as_slice());
    Ok(())
}

#[test]
fn a_front_is_written_where_the_sink_is_full(rt: HostRuntime) -> Result<(), Fail> {
    let alloc = rt.alloc();
    let opening = design_of(alloc, SMALL.as_bytes())?;
    let mut sink = MemSink::new(alloc, Some(7));
    let told = write_head_uses(alloc, &opening, &[], &mut sink);
    assert!(rt; told == Err(WriteError::WriteFault));
    assert!(rt; sink.written() == "uses\nce".as_bytes());
    Ok(())
}
