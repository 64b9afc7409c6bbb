//! A log that is full: of pins that are all live, and of pins that have ended.
use crate::calls::{collect, end_pin, opened, pin_head};
use crate::designs::one;
use db_core::{CollectError, Core, PinError};
use std::process::Abort;
use std::test::Fail;

/// The greatest number of pins that are live at once.
const MOST_LIVE: u32 = 2_097_152;

/// Pins the last version so many times, or until that is refused: how many pins there were. All of them stay live.
fn pins_made(core: &mut Core, times: u32) -> u32 {
    for made in 0..times {
        match core.pin(0) {
            Ok(_live) => {}
            Err(_) => return made,
        }
    }
    times
}

/// The next pin is refused, since the log has no room.
fn is_full(core: &mut Core) -> bool {
    matches!(core.pin(0), Err(PinError::LogFull))
}

fn have_been_made(rt: &impl Abort, made: u32) {
    assert!(rt; made == MOST_LIVE, "{made} pins");
}

/// So many pins are live at once, and no more.
fn live(rt: &impl Abort, core: &mut Core) {
    let made = pins_made(core, MOST_LIVE);
    have_been_made(rt, made);
    let full = is_full(core);
    assert!(rt; full);
}

#[test]
fn half_of_the_log_are_live_pins(rt: HostRuntime) -> Result<(), Fail> {
    let alloc = rt.alloc();
    let mut core = opened(&rt, alloc, one(alloc)?);
    live(&rt, &mut core);
    Ok(())
}

/// Pins the last version and ends the pin, so many times.
fn go_round(rt: &impl Abort, core: &mut Core, times: u32) {
    for _ in 0..times {
        let pin = pin_head(rt, core, 0);
        end_pin(core, 0, pin);
    }
}

fn has_events(rt: &impl Abort, core: &Core, count: usize) {
    assert!(rt; core.log().len() == count);
}

fn collects_nothing(rt: &impl Abort, core: &mut Core) {
    let collected = collect(core, 0);
    assert!(rt; collected == Err(CollectError::LogFull));
}

/// The last pin that has room ends, and then there is room for nothing.
fn ended(rt: &impl Abort, core: &mut Core) {
    go_round(rt, core, 2_097_151);
    has_events(rt, core, 4_194_302);
    go_round(rt, core, 1);
    has_events(rt, core, 4_194_304);
    let full = is_full(core);
    assert!(rt; full);
    collects_nothing(rt, core);
}

#[test]
fn pins_that_have_ended_fill_the_log(rt: HostRuntime) -> Result<(), Fail> {
    let alloc = rt.alloc();
    let mut core = opened(&rt, alloc, one(alloc)?);
    ended(&rt, &mut core);
    Ok(())
}
