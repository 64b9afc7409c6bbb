//! What answers are compared with.
use flat_ask::Ask;
use flat_items::{ItemRef, NetRef};
use net_pins::Pins;
use netlist_schema::{Design, NoMemory};
use std::alloc::Global;
use std::process::Abort;
use std::test::Fail;
use test_text_designs::design_of;

/// A net, by the path of its occurrence and its place there.
pub type NetRow = (&'static [u32], u32);

/// A bit of an occurrence, by its path, its port and its bit.
pub type BitRow = (&'static [u32], u32, u32);

/// What is asked of the design of a text.
pub fn asked(alloc: Global, text: &str) -> Result<Ask<Design>, Fail> {
    Ok(Ask::of(alloc, design_of(alloc, text.as_bytes())?)?)
}

/// Whether the net is that one.
fn is_net(found: Option<NetRef<'_>>, want: Option<NetRow>) -> bool {
    match (found, want) {
        (Some(net), Some((path, place))) => net.path == path && net.net == place,
        (None, None) => true,
        _ => false,
    }
}

/// The net at a bit, seen from outside and from inside.
pub fn check_sides(
    rt: &impl Abort,
    ask: &Ask<Design>,
    at: BitRow,
    outside: Option<NetRow>,
    inside: Option<NetRow>,
) -> Result<(), Fail> {
    let (path, port, bit) = at;
    assert!(rt; is_net(ask.net_of(path, port, bit)?, outside));
    assert!(rt; is_net(ask.inner_net_of(path, port, bit)?, inside));
    Ok(())
}

/// The first of the nets that are connected with a net.
pub fn check_first(
    rt: &impl Abort,
    ask: &Ask<Design>,
    net: NetRow,
    first: NetRow,
) -> Result<(), Fail> {
    let found = ask.first_of(net.0, net.1)?;
    assert!(rt; is_net(Some(found), Some(first)));
    assert!(rt;
        ask.is_same_net(
            found,
            NetRef {
                path: net.0,
                net: net.1
            }
        )?
    );
    Ok(())
}

/// The pins that are left are these, in order, each lent as it is given.
pub fn check_pins(
    rt: &impl Abort,
    pins: Result<Pins<'_, Design>, NoMemory>,
    want: &[BitRow],
) -> Result<(), Fail> {
    let mut pins = pins?;
    for (path, port, bit) in want {
        assert!(rt; pins.advance()?);
        match pins.current() {
            Some(
                ItemRef::Pin {
                    path: at,
                    port: found,
                    bit: place,
                    first: _,
                },
            ) => {
                assert!(rt; at == *path);
                assert_eq!(rt; found, *port);
                assert_eq!(rt; place, *bit);
            }
            _ => assert!(rt; false),
        }
        assert!(rt; Pins::next(&mut pins)?.is_some());
    }
    assert!(rt; !pins.advance()?);
    assert!(rt; pins.current().is_none());
    assert!(rt; Pins::next(&mut pins)?.is_none());
    Ok(())
}
