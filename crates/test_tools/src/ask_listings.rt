//! Listings of pins, which own what they are listed from.
use crate::ask_checks::{BitRow, asked};
use crate::ask_designs::TWICE;
use ask_spec::Role;
use flat_spec::Item;
use net_pins::Listing;
use netlist_schema::Design;
use std::alloc::Global;
use std::process::Abort;
use std::test::Fail;
use test_texts::COUNTER;

/// The listing of the pins of a net; what was asked is gone.
fn listed(
    alloc: Global,
    text: &str,
    role: Role,
    path: &[u32],
    net: u32,
) -> Result<Listing<Design>, Fail> {
    Ok(asked(alloc, text)?.list(role, path, net)?)
}

/// The pins that are left are these, in order.
fn check_listed(rt: &impl Abort, mut pins: Listing<Design>, want: &[BitRow]) -> Result<(), Fail> {
    for (path, port, bit) in want {
        match &pins.next()? {
            Some(
                Item::Pin {
                    path: at,
                    port: found,
                    bit: place,
                    first: _,
                },
            ) => {
                assert!(rt; at.as_slice() == *path);
                assert_eq!(rt; *found, *port);
                assert_eq!(rt; *place, *bit);
            }
            _ => assert!(rt; false),
        }
    }
    assert!(rt; pins.next()?.is_none());
    assert!(rt; pins.next()?.is_none());
    Ok(())
}

#[test]
fn listing_outlives_what_was_asked(rt: HostRuntime) -> Result<(), Fail> {
    let pins = listed(rt.alloc(), TWICE, Role::Any, &[], 0)?;
    check_listed(
        &rt,
        pins,
        &[
            (&[], 0, 0),
            (&[0, 0], 0, 0),
            (&[0, 1], 0, 0),
            (&[0, 2], 0, 0),
        ],
    )
}

#[test]
fn listing_has_the_pins_of_its_role(rt: HostRuntime) -> Result<(), Fail> {
    let driver = listed(rt.alloc(), COUNTER, Role::Driver, &[], 1)?;
    check_listed(&rt, driver, &[(&[0], 0, 0)])?;
    let loads = listed(rt.alloc(), COUNTER, Role::Load, &[], 1)?;
    check_listed(&rt, loads, &[(&[], 1, 1), (&[1], 1, 0)])?;
    let none = listed(rt.alloc(), COUNTER, Role::Any, &[], 9)?;
    check_listed(&rt, none, &[])
}
