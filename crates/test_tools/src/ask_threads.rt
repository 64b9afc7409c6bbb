//! Callers beside each other.
use crate::ask_checks::asked;
use crate::ask_designs::TWICE;
use flat_ask::Ask;
use netlist_schema::{Design, NoMemory};
use std::test::Fail;
use std::thread;

/// Whether one caller finds the net at the pin of the third gate, and so many pins at it.
fn finds(ask: &Ask<Design>) -> Result<bool, NoMemory> {
    let mut pins = ask.pins_of(&[], 0)?;
    for _ in 0..4 {
        if !pins.advance()? {
            return Ok(false);
        }
        pins.skip_one();
    }
    match ask.net_of(&[0, 2], 0, 0)? {
        Some(net) => Ok(net.path.is_empty() && net.net == 0 && !pins.advance()?),
        None => Ok(false),
    }
}

#[test]
fn callers_ask_beside_each_other(rt: HostRuntime) -> Result<(), Fail> {
    let ask = asked(rt.alloc(), TWICE)?;
    let found = thread::map_indices(
        &rt,
        rt.alloc(),
        4,
        &|_place: usize| -> Result<bool, NoMemory> { finds(&ask) },
    )?;
    for one in found.as_slice() {
        match one {
            Ok(there) => assert!(rt; *there),
            Err(_) => assert!(rt; false),
        }
    }
    Ok(())
}
