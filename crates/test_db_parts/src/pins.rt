//! Pins, and the versions that they hold.
ghost use Rattle.std.specs.Prelude.{◌≡◌, []};

use netlist_schema::NoMemory;
use pin_registry::Pins;
use std::alloc::Global;
use std::test::Fail;

/// Whether the versions 0 and 7 are held, and how many pins are live.
type Held = (bool, bool, u32);

fn held(pins: &Pins) -> Held {
    (pins.holds(0), pins.holds(7), pins.live())
}

/// The numbers of three pins, what is held when one of the two on version 0 has ended and when both have, and the number of a fourth
/// pin with that of all pins then.
fn numbers_and_held(pins: &mut Pins) -> Result<([u64; 3], [Held; 2], [u64; 2]), NoMemory>
    requires made { pins.old.made ≡ 0 }
    requires live { pins.old.live ≡ [] }
{
    let numbers = [pins.add(0)?, pins.add(0)?, pins.add(7)?];
    pins.remove(0);
    let after_one = held(pins);
    pins.remove(1);
    let after_two = held(pins);
    let next = [pins.add(0)?, pins.made()];
    Ok((numbers, [after_one, after_two], next))
}

fn of_a_new_registry(alloc: Global) -> Result<([u64; 3], [Held; 2], [u64; 2]), NoMemory> {
    let mut pins = Pins::new(alloc);
    numbers_and_held(&mut pins)
}

#[test]
fn a_version_is_held_until_its_last_pin_ends(rt: HostRuntime) -> Result<(), Fail> {
    let seen = of_a_new_registry(rt.alloc())?;
    let wanted = ([0, 1, 2], [(true, true, 2), (false, true, 1)], [3, 4]);
    assert!(rt; seen == wanted);
    Ok(())
}
