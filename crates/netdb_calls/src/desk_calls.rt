//! The calls on a database.
ghost use Rattle.std.specs.Prelude.{◌≡◌};
ghost use Rattle.netdb_desk.specs.Calls.{last_reply};
ghost use Rattle.netdb_desk.specs.Seats.{held_at};
ghost use Rattle.netdb_calls.specs.Answers.{AnswersDesk, HasCommitted, HasRun, SaysClash, SaysLast, SaysRefused, told_of_begin, told_of_collect, told_of_done, told_of_line, told_of_pin, told_of_pin_at};
ghost use Rattle.netdb_calls.specs.Texts.{head_design};

use crate::calls::DeskCall;
use call_status::{Status, Told};
use db_core::{CollectError, CommitError, PinAtError, PinError};
use netdb_desk::{Desk, LineError, WrongUse};
use netlist_schema::{NoMemory, Object};
use script_say::{say_conflict, say_reply};
use std::alloc::Global;

/// What a pin came to.
fn of_pin(answer: Result<Result<u64, PinError>, WrongUse>) -> Told
    ensures { result ≡ told_of_pin answer }
{
    match answer {
        Ok(Ok(version)) => Told::done(version),
        Ok(Err(PinError::LogFull)) => Told::only(Status::LogFull),
        Ok(Err(PinError::NoMemory)) => Told::only(Status::NoMemory),
        Err(WrongUse) => Told::only(Status::WrongUse),
    }
}

/// What a pin of a version came to.
fn of_pin_at(answer: Result<Result<u64, PinAtError>, WrongUse>) -> Told
    ensures { result ≡ told_of_pin_at answer }
{
    match answer {
        Ok(Ok(version)) => Told::done(version),
        Ok(Err(PinAtError::LogFull)) => Told::only(Status::LogFull),
        Ok(Err(PinAtError::NoVersion { head })) => Told {
            status: Status::NoVersion,
            number: head,
        },
        Ok(Err(PinAtError::Gone { least })) => Told {
            status: Status::Gone,
            number: least,
        },
        Ok(Err(PinAtError::NoMemory)) => Told::only(Status::NoMemory),
        Err(WrongUse) => Told::only(Status::WrongUse),
    }
}

/// What the beginning of a transaction came to.
fn of_begin(answer: Result<Result<(), NoMemory>, WrongUse>) -> Told
    ensures { result ≡ told_of_begin answer }
{
    match answer {
        Ok(Ok(())) => Told::only(Status::Done),
        Ok(Err(NoMemory)) => Told::only(Status::NoMemory),
        Err(WrongUse) => Told::only(Status::WrongUse),
    }
}

/// What a call came to that is never refused.
fn of_done(answer: Result<(), WrongUse>) -> Told
    ensures { result ≡ told_of_done answer }
{
    match answer {
        Ok(()) => Told::only(Status::Done),
        Err(WrongUse) => Told::only(Status::WrongUse),
    }
}

/// What a collect came to.
fn of_collect(answer: Result<Result<u32, CollectError>, WrongUse>) -> Told
    ensures { result ≡ told_of_collect answer }
{
    match answer {
        Ok(Ok(dropped)) => Told::done(u64::from(dropped)),
        Ok(Err(CollectError::LogFull)) => Told::only(Status::LogFull),
        Ok(Err(CollectError::NoMemory)) => Told::only(Status::NoMemory),
        Err(WrongUse) => Told::only(Status::WrongUse),
    }
}

/// Why a line was not run.
fn of_line(error: LineError) -> Told
    ensures { result ≡ told_of_line error }
{
    match error {
        LineError::BadLine => Told::only(Status::BadLine),
        LineError::TooLong => Told::only(Status::TooLarge),
        LineError::NoMemory => Told::only(Status::NoMemory),
    }
}

/// Answers a call. The text is that of a line's reply, or of a conflict; the other calls leave it.
pub(crate) fn answer_desk(
    alloc: Global,
    desk: &mut Desk,
    call: DeskCall<'_>,
    text: &mut Vec<u8>,
) -> Told
    ensures { AnswersDesk call.entry desk.old desk.new text.old.items text.new.items result }
{
    match call {
        DeskCall::Pin { seat } => of_pin(desk.pin(seat)),
        DeskCall::PinAt { seat, version } => of_pin_at(desk.pin_at(seat, version)),
        DeskCall::Begin { seat } => of_begin(desk.begin(seat)),
        DeskCall::Line { seat, line } => run(alloc, desk, seat, line, text),
        DeskCall::Commit { seat } => commit(alloc, desk, seat, text),
        DeskCall::Abandon { seat } => of_done(desk.abandon(seat)),
        DeskCall::Release { seat } => of_done(desk.release(seat)),
        DeskCall::Collect { seat } => of_collect(desk.collect(seat)),
    }
}

/// Runs a line. The text is its reply.
fn run(alloc: Global, desk: &mut Desk, seat: u32, line: &[u8], text: &mut Vec<u8>) -> Told
    ensures { HasRun seat line.now desk.old desk.new text.old.items text.new.items result }
{
    match desk.line(seat, line) {
        Ok(Ok(())) => say_last(alloc, desk, seat, text),
        Ok(Err(error)) => of_line(error),
        Err(WrongUse) => Told::only(Status::WrongUse),
    }
}

/// Says the last reply of a seat's transaction.
fn say_last(alloc: Global, desk: &Desk, seat: u32, text: &mut Vec<u8>) -> Told
    ensures { SaysLast (last_reply (held_at desk.now seat)) text.new.items result }
{
    text.clear();
    let Some(reply) = desk.reply(seat) else {
        return Told::only(Status::TextLost);
    };
    match say_reply(alloc, reply, text) {
        Ok(()) => Told::only(Status::Done),
        Err(NoMemory) => {
            text.clear();
            Told::only(Status::TextLost)
        }
    }
}

/// Commits. After a conflict the text says it, or is empty where there was no memory for it.
fn commit(alloc: Global, desk: &mut Desk, seat: u32, text: &mut Vec<u8>) -> Told
    ensures { HasCommitted seat desk.old desk.new text.old.items text.new.items result }
{
    match desk.commit(seat) {
        Ok(Ok(version)) => Told::done(version),
        Ok(Err(error)) => refused(alloc, desk, error, text),
        Err(WrongUse) => Told::only(Status::WrongUse),
    }
}

/// Says why a commit was refused.
fn refused(alloc: Global, desk: &Desk, error: CommitError, text: &mut Vec<u8>) -> Told
    ensures { SaysRefused error (head_design desk.now) text.old.items text.new.items result }
{
    match error {
        CommitError::LogFull => Told::only(Status::LogFull),
        CommitError::Conflict { object, version } => {
            say_clash(alloc, desk, object, version, text);
            Told {
                status: Status::Conflict,
                number: version,
            }
        }
        CommitError::NoMemory => Told::only(Status::NoMemory),
    }
}

/// Says a conflict, with the names of the last version; nothing where there is no memory.
fn say_clash(alloc: Global, desk: &Desk, object: Object, version: u64, text: &mut Vec<u8>)
    ensures { SaysClash (head_design desk.now) object version text.new.items }
{
    text.clear();
    let Ok(()) = say_conflict(alloc, desk.head(), object, version, text) else {
        text.clear();
        return;
    };
}
