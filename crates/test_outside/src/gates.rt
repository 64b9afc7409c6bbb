//! The gate that makes callers wait for each other.
use netdb_outside::{Gate, Hold, HoldGate};
use netlist_schema::Row;
use std::alloc::Global;
use std::test::Fail;

/// A gate that holds caller 0 at its first line until caller 1 is at its first line.
fn gate(alloc: Global) -> Result<HoldGate, Fail> {
    let hold = Hold {
        caller: 0,
        line: 1,
        until_caller: 1,
        until_line: 1,
    };
    Ok(HoldGate::new(alloc, Row::of(vec![in alloc; hold]?))?)
}

#[test]
fn a_hold_gives_up_where_nobody_comes(rt: HostRuntime) -> Result<(), Fail> {
    let gate = gate(rt.alloc())?;
    let begun = gate.failed();
    gate.reached(0, 1);
    assert!(rt; begun && gate.failed());
    gate.reached(1, 1);
    assert!(rt; gate.failed());
    Ok(())
}

#[test]
fn a_hold_lets_go_where_the_other_was_there(rt: HostRuntime) -> Result<(), Fail> {
    let gate = gate(rt.alloc())?;
    gate.reached(1, 1);
    let waited = gate.failed();
    gate.reached(0, 1);
    assert!(rt; waited && !gate.failed());
    Ok(())
}
