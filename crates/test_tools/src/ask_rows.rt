//! Answers about worked designs.
use crate::ask_checks::{asked, check_first, check_pins, check_sides};
use crate::ask_designs::{EMPTY, TWICE};
use flat_ask::{Ask, AskError};
use flat_items::NetRef;
use netlist_schema::{CellId, LibId};
use std::test::Fail;
use test_text_designs::design_of;
use test_texts::{COUNTER, FEEDTHROUGH, LEVELS};

#[test]
fn counter_is_asked(rt: HostRuntime) -> Result<(), Fail> {
    let ask = asked(rt.alloc(), COUNTER)?;
    check_sides(&rt, &ask, (&[], 1, 1), Some((&[], 1)), Some((&[], 1)))?;
    check_sides(&rt, &ask, (&[], 1, 0), None, None)?;
    check_sides(&rt, &ask, (&[], 1, 2), None, None)?;
    check_sides(&rt, &ask, (&[0], 0, 0), Some((&[], 1)), None)?;
    check_first(&rt, &ask, (&[], 9), (&[], 9))?;
    let Some(properties) = ask.properties_of(&[0])? else {
        return Ok(assert!(rt; false));
    };
    assert_eq!(rt; properties.base.len(), 1);
    assert!(rt; ask.properties_of(&[2])?.is_none());
    Ok(())
}

#[test]
fn net_through_a_cell_is_one(rt: HostRuntime) -> Result<(), Fail> {
    let ask = asked(rt.alloc(), FEEDTHROUGH)?;
    check_sides(&rt, &ask, (&[1, 0], 0, 0), Some((&[], 0)), None)?;
    check_sides(&rt, &ask, (&[0], 1, 0), Some((&[], 0)), Some((&[], 0)))?;
    check_first(&rt, &ask, (&[1], 0), (&[], 0))?;
    let lamp = CellId {
        lib: LibId(0),
        slot: 0,
    };
    assert_eq!(rt; ask.at(&[1, 0]), Some(lamp));
    assert_eq!(rt; ask.at(&[1, 0, 0]), None);
    assert_eq!(rt; ask.insts_of(&[]).len(), 2);
    assert_eq!(rt; ask.nets_of(&[1]).len(), 1);
    assert_eq!(rt; ask.nets_of(&[1, 0, 0]).len(), 0);
    Ok(())
}

#[test]
fn driven_net_has_its_first_above(rt: HostRuntime) -> Result<(), Fail> {
    let ask = asked(rt.alloc(), LEVELS)?;
    check_first(&rt, &ask, (&[0], 1), (&[], 1))?;
    check_first(&rt, &ask, (&[1], 1), (&[], 1))?;
    check_first(&rt, &ask, (&[1], 0), (&[1], 0))?;
    check_sides(&rt, &ask, (&[0, 0], 1, 1), Some((&[0], 0)), None)
}

#[test]
fn block_that_is_not_joined_keeps_its_nets(rt: HostRuntime) -> Result<(), Fail> {
    let ask = asked(rt.alloc(), TWICE)?;
    check_sides(&rt, &ask, (&[1], 0, 1), None, Some((&[1], 1)))?;
    check_sides(&rt, &ask, (&[0], 0, 1), Some((&[], 0)), Some((&[], 0)))?;
    let one = NetRef { path: &[0], net: 0 };
    assert!(rt; ask.is_same_net(one, NetRef { path: &[0], net: 1 })?);
    assert!(rt; !ask.is_same_net(one, NetRef { path: &[1], net: 1 })?);
    Ok(())
}

#[test]
fn design_without_a_top_is_not_asked(rt: HostRuntime) -> Result<(), Fail> {
    let design = design_of(rt.alloc(), EMPTY.as_bytes())?;
    match Ask::of(rt.alloc(), &design) {
        Err(AskError::NoTop) => {}
        _ => assert!(rt; false),
    }
    Ok(())
}

#[test]
fn pins_of_a_counter_are_told_by_direction(rt: HostRuntime) -> Result<(), Fail> {
    let ask = asked(rt.alloc(), COUNTER)?;
    check_pins(
        &rt,
        ask.pins_of(&[], 1),
        &[(&[], 1, 1), (&[0], 0, 0), (&[1], 1, 0)],
    )?;
    check_pins(&rt, ask.drivers(&[], 1), &[(&[0], 0, 0)])?;
    check_pins(&rt, ask.loads(&[], 1), &[(&[], 1, 1), (&[1], 1, 0)])?;
    check_pins(&rt, ask.pins_of(&[], 9), &[])
}

#[test]
fn pins_are_found_through_a_cell(rt: HostRuntime) -> Result<(), Fail> {
    let ask = asked(rt.alloc(), FEEDTHROUGH)?;
    check_pins(&rt, ask.pins_of(&[0], 0), &[(&[1, 0], 0, 0)])?;
    check_pins(&rt, ask.pins_of(&[1, 0], 0), &[])?;
    check_pins(&rt, ask.drivers(&[], 1), &[])
}

#[test]
fn drivers_stand_on_all_levels(rt: HostRuntime) -> Result<(), Fail> {
    let ask = asked(rt.alloc(), LEVELS)?;
    check_pins(
        &rt,
        ask.drivers(&[0], 1),
        &[(&[0, 0], 0, 0), (&[1, 0], 0, 0), (&[2], 0, 0)],
    )?;
    check_pins(&rt, ask.loads(&[0], 1), &[])?;
    check_pins(&rt, ask.drivers(&[], 3), &[(&[3], 0, 0)])?;
    check_pins(&rt, ask.loads(&[], 3), &[(&[2], 1, 1), (&[3], 0, 0)])
}

#[test]
fn pins_come_in_order_where_a_net_enters_twice(rt: HostRuntime) -> Result<(), Fail> {
    let ask = asked(rt.alloc(), TWICE)?;
    check_pins(
        &rt,
        ask.pins_of(&[], 0),
        &[
            (&[], 0, 0),
            (&[0, 0], 0, 0),
            (&[0, 1], 0, 0),
            (&[0, 2], 0, 0),
        ],
    )?;
    check_pins(&rt, ask.drivers(&[0], 1), &[(&[], 0, 0)])?;
    check_pins(
        &rt,
        ask.pins_of(&[1], 1),
        &[(&[1, 0], 0, 0), (&[1, 2], 0, 0)],
    )
}
