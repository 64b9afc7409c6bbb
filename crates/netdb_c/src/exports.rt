//! The functions that C calls. Each is one call of `netdb_calls` on what the handle holds.
ghost use Rattle.std.specs.Prelude.{◌≡◌, ◌≤◌, ◌++◌, None, Some, drop, length, min, option_map, take};
ghost use Rattle.netdb_calls.specs.declared.calls.Call.TheVariants as asks;
ghost use Rattle.netdb_calls.specs.declared.calls.DeskCall.TheVariants as desk;
ghost use Rattle.netdb_calls.specs.declared.calls.ViewCall.TheVariants as view;
ghost use Rattle.netdb_outside.specs.Outside.{Rose};
ghost use Rattle.netdb_c.specs.Exports.{Answers, Copies, Gives, GoesTo, HasAsked, HasOpened, HasPut, HasReported, HasViewed, HasWritten, Says, text_of};

use crate::handle::Handle;
use call_status::{Status, Told};
use netdb_calls::{
    Call, DescriptorOut, DeskCall, Opened, ViewCall, ask, open, open_view, report_to, write_to,
};
use netdb_outside::Sink;
use std::alloc::Global;
use std::mem;

/// Takes what a handle holds; it holds nothing then.
pub(crate) fn take(alloc: Global, of: &mut Handle) -> Option<Box<Opened>>
    ensures was { option_map (λ b. b.value) result ≡ of.old.held }
    ensures left { of.new.held ≡ None }
{
    mem::replace(of, Handle::nothing()).into_box(alloc)
}

/// Gives a handle what it is to hold. What it held before is dropped.
pub(crate) fn put(alloc: Global, of: &mut Handle, opened: Box<Opened>)
    ensures { of.new.held ≡ Some opened.value }
{
    drop(mem::replace(of, Handle::over(opened)).into_box(alloc));
}

/// Asks what a handle holds. A closed one answers a `WrongUse`, and stays closed.
pub(crate) fn on(alloc: Global, of: &mut Handle, call: Call<'_>) -> Told
    ensures { HasAsked call.entry of.old.held of.new.held result }
{
    let Some(mut opened) = take(alloc, of) else {
        return Told {
            status: Status::WrongUse,
            number: 0,
        };
    };
    let told = ask(alloc, &mut opened, call);
    put(alloc, of, opened);
    told
}

/// The number of a status; the number that is told is written where the status has one.
pub(crate) fn give(told: Told, number: &mut u64) -> u32
    ensures { Gives told number.old number.new result }
{
    match told.status {
        Status::Done | Status::Conflict | Status::NoVersion | Status::Gone => {
            *number = told.number;
        }
        _ => {}
    }
    told.status.number()
}

/// Boxes what was opened, and gives it to a handle.
pub(crate) fn put_new(alloc: Global, of: &mut Handle, opened: Opened, status: Status) -> u32
    ensures { HasPut of.old.held of.new.held opened status result }
{
    match Box::new(alloc, opened) {
        Ok(held) => {
            put(alloc, of, held);
            status.number()
        }
        Err(_) => Status::NoMemory.number(),
    }
}

/// Opens the database of the design that the bytes mean, or the text of what is wrong with them.
#[unsafe(no_mangle)]
pub extern "C" fn netdb_c_open(alloc: Global, of: &mut Handle, bytes: &[u8]) -> u32
    ensures { HasOpened bytes.now of.old.held of.new.held result }
{
    match open(alloc, bytes) {
        Ok((opened, status)) => put_new(alloc, of, opened, status),
        Err(status) => status.number(),
    }
}

/// Closes a handle. One that is closed stays so.
#[unsafe(no_mangle)]
pub extern "C" fn netdb_c_close(alloc: Global, of: &mut Handle)
    ensures { of.new.held ≡ None }
{
    drop(take(alloc, of));
}

/// Opens a view of the version that a seat holds, in another handle.
#[unsafe(no_mangle)]
pub extern "C" fn netdb_c_view(alloc: Global, of: &mut Handle, seat: u32, out: &mut Handle) -> u32
    ensures { HasViewed of.old.held of.new.held seat out.old.held out.new.held result }
{
    let Some(opened) = take(alloc, of) else {
        return Status::WrongUse.number();
    };
    let made = open_view(alloc, &opened, seat);
    put(alloc, of, opened);
    match made {
        Ok(view) => put_new(alloc, out, view, Status::Done),
        Err(status) => status.number(),
    }
}

/// The number of bytes of the text; 0 of a closed handle.
#[unsafe(no_mangle)]
pub extern "C" fn netdb_c_text_length(alloc: Global, of: &mut Handle) -> usize
    ensures same { of.new.held ≡ of.old.held }
    ensures bytes { result ≡ length (text_of of.old.held) }
{
    on(alloc, of, Call::Length).number as usize
}

/// Copies the front of the text, as far as there is room, and gives the number of bytes that were copied.
#[unsafe(no_mangle)]
pub extern "C" fn netdb_c_text(alloc: Global, of: &mut Handle, room: &mut [u8]) -> usize
    ensures same { of.new.held ≡ of.old.held }
    ensures copied { Copies of.old.held room.old room.new result }
{
    let Some(opened) = take(alloc, of) else {
        return 0;
    };
    let count = copy_front(opened.text.as_slice(), room);
    put(alloc, of, opened);
    count
}

/// Copies the front of bytes, as far as there is room.
fn copy_front(bytes: &[u8], room: &mut [u8]) -> usize
    ensures count { result ≡ min (length bytes.now) (length room.old) }
    ensures front { room.new ≡ take result bytes.now ++ drop result room.old }
{
    let count = bytes.len().min(room.len());
    room[..count].copy_from_slice(&bytes[..count]);
    count
}

/// Pins the last version for a seat.
#[unsafe(no_mangle)]
pub extern "C" fn netdb_c_pin(alloc: Global, of: &mut Handle, seat: u32, version: &mut u64) -> u32
    ensures { Says (asks.Desk (desk.Pin seat)) of.old.held of.new.held version.old version.new result }
{
    give(on(alloc, of, Call::Desk(DeskCall::Pin { seat })), version)
}

/// Pins a version for a seat.
#[unsafe(no_mangle)]
pub extern "C" fn netdb_c_pin_at(
    alloc: Global,
    of: &mut Handle,
    seat: u32,
    wanted: u64,
    version: &mut u64,
) -> u32
    ensures { Says (asks.Desk (desk.PinAt seat wanted)) of.old.held of.new.held version.old version.new result }
{
    let call = DeskCall::PinAt {
        seat,
        version: wanted,
    };
    give(on(alloc, of, Call::Desk(call)), version)
}

/// Begins a transaction on a seat's pin.
#[unsafe(no_mangle)]
pub extern "C" fn netdb_c_begin(alloc: Global, of: &mut Handle, seat: u32) -> u32
    ensures { Answers (asks.Desk (desk.Begin seat)) of.old.held of.new.held result }
{
    on(alloc, of, Call::Desk(DeskCall::Begin { seat }))
        .status
        .number()
}

/// Runs a line in a seat's transaction.
#[unsafe(no_mangle)]
pub extern "C" fn netdb_c_line(alloc: Global, of: &mut Handle, seat: u32, line: &[u8]) -> u32
    ensures { Answers (asks.Desk (desk.Line seat line.entry)) of.old.held of.new.held result }
{
    on(alloc, of, Call::Desk(DeskCall::Line { seat, line }))
        .status
        .number()
}

/// Commits a seat's transaction. After a conflict the text is its line, which is never empty, or is empty where there was no memory for it.
#[unsafe(no_mangle)]
pub extern "C" fn netdb_c_commit(
    alloc: Global,
    of: &mut Handle,
    seat: u32,
    version: &mut u64,
) -> u32
    ensures { Says (asks.Desk (desk.Commit seat)) of.old.held of.new.held version.old version.new result }
{
    give(
        on(alloc, of, Call::Desk(DeskCall::Commit { seat })),
        version,
    )
}

/// Ends a seat's transaction without a commit.
#[unsafe(no_mangle)]
pub extern "C" fn netdb_c_abandon(alloc: Global, of: &mut Handle, seat: u32) -> u32
    ensures { Answers (asks.Desk (desk.Abandon seat)) of.old.held of.new.held result }
{
    on(alloc, of, Call::Desk(DeskCall::Abandon { seat }))
        .status
        .number()
}

/// Releases a seat's pin.
#[unsafe(no_mangle)]
pub extern "C" fn netdb_c_release(alloc: Global, of: &mut Handle, seat: u32) -> u32
    ensures { Answers (asks.Desk (desk.Release seat)) of.old.held of.new.held result }
{
    on(alloc, of, Call::Desk(DeskCall::Release { seat }))
        .status
        .number()
}

/// Drops the versions that no seat holds, all but the last one.
#[unsafe(no_mangle)]
pub extern "C" fn netdb_c_collect(
    alloc: Global,
    of: &mut Handle,
    seat: u32,
    dropped: &mut u64,
) -> u32
    ensures { Says (asks.Desk (desk.Collect seat)) of.old.held of.new.held dropped.old dropped.new result }
{
    give(
        on(alloc, of, Call::Desk(DeskCall::Collect { seat })),
        dropped,
    )
}

/// The number of a view's version.
#[unsafe(no_mangle)]
pub extern "C" fn netdb_c_version(alloc: Global, of: &mut Handle, version: &mut u64) -> u32
    ensures { Says (asks.View view.Version) of.old.held of.new.held version.old version.new result }
{
    give(on(alloc, of, Call::View(ViewCall::Version)), version)
}

/// Begins a walk over the whole flattening.
#[unsafe(no_mangle)]
pub extern "C" fn netdb_c_walk(alloc: Global, of: &mut Handle) -> u32
    ensures { Answers (asks.View view.Walk) of.old.held of.new.held result }
{
    on(alloc, of, Call::View(ViewCall::Walk)).status.number()
}

/// Begins a walk over what stands at and below a path.
#[unsafe(no_mangle)]
pub extern "C" fn netdb_c_walk_at(alloc: Global, of: &mut Handle, path: &[u32]) -> u32
    ensures { Answers (asks.View (view.WalkAt path.entry)) of.old.held of.new.held result }
{
    on(alloc, of, Call::View(ViewCall::WalkAt { path }))
        .status
        .number()
}

/// Shows the next item of the walk.
#[unsafe(no_mangle)]
pub extern "C" fn netdb_c_next(alloc: Global, of: &mut Handle) -> u32
    ensures { Answers (asks.View view.Next) of.old.held of.new.held result }
{
    on(alloc, of, Call::View(ViewCall::Next)).status.number()
}

/// Says a field of the item that is shown.
#[unsafe(no_mangle)]
pub extern "C" fn netdb_c_field(alloc: Global, of: &mut Handle, number: u32) -> u32
    ensures { Answers (asks.View (view.Field number)) of.old.held of.new.held result }
{
    on(alloc, of, Call::View(ViewCall::Field { number }))
        .status
        .number()
}

/// Writes the text of a number, of the version of the view that a handle holds. A closed handle is a `WrongUse`, and nothing is written.
fn write_held<K: Sink>(alloc: Global, of: &mut Handle, number: u32, out: &mut K) -> Status
    ensures same { of.new.held ≡ of.old.held }
    ensures wrote { HasWritten of.old.held number (K.written out.old) (K.written out.new) result }
    ensures wrong_use { result ≡ Status.WrongUse → out.new ≡ out.old }
    ensures no_top { result ≡ Status.NoTop → out.new ≡ out.old }
    ensures fault { result ≡ Status.WriteFault → Rose (K.faults out.old) (K.faults out.new) }
    ensures never_falls { K.faults out.old ≤ K.faults out.new }
{
    let Some(opened) = take(alloc, of) else {
        return Status::WrongUse;
    };
    let status = write_to(&opened, number, out);
    put(alloc, of, opened);
    status
}

/// Writes the history of the database that a handle holds. A closed handle is a `WrongUse`, and nothing is written.
fn report_held<K: Sink>(alloc: Global, of: &mut Handle, out: &mut K) -> Status
    ensures same { of.new.held ≡ of.old.held }
    ensures wrote { HasReported of.old.held (K.written out.old) (K.written out.new) result }
    ensures wrong_use { result ≡ Status.WrongUse → out.new ≡ out.old }
    ensures fault { result ≡ Status.WriteFault → Rose (K.faults out.old) (K.faults out.new) }
    ensures never_falls { K.faults out.old ≤ K.faults out.new }
{
    let Some(opened) = take(alloc, of) else {
        return Status::WrongUse;
    };
    let status = report_to(alloc, &opened, out);
    put(alloc, of, opened);
    status
}

/// Writes the text of a number, of a view's version, to a file descriptor.
#[unsafe(no_mangle)]
pub extern "C" fn netdb_c_write(alloc: Global, of: &mut Handle, number: u32, descriptor: i32) -> u32
    ensures same { of.new.held ≡ of.old.held }
    ensures answers { GoesTo descriptor (λ before after status. HasWritten of.old.held number before after status) result }
{
    let mut out = DescriptorOut::new(descriptor);
    write_held(alloc, of, number, &mut out).number()
}

/// Writes the history of a database to a file descriptor.
#[unsafe(no_mangle)]
pub extern "C" fn netdb_c_report(alloc: Global, of: &mut Handle, descriptor: i32) -> u32
    ensures same { of.new.held ≡ of.old.held }
    ensures answers { GoesTo descriptor (λ before after status. HasReported of.old.held before after status) result }
{
    let mut out = DescriptorOut::new(descriptor);
    report_held(alloc, of, &mut out).number()
}
