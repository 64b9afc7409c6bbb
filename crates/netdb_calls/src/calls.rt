//! The calls, by what was opened.
ghost use Rattle.netdb_calls.specs.Answers.{Asks, AsksDesk, AsksQuestion, AsksView, OpensQuestions, OpensView};

use crate::desk_calls::answer_desk;
use crate::opened::{Inside, Opened};
use crate::view_calls::answer_view;
use call_status::{Status, Told};
use netdb_questions::{AskError, Questions};
use netdb_view::View;
use netlist_schema::{NoMemory, Shown};
use question_calls::{QuestionCall, answer_question};
use std::alloc::Global;

/// A call on a database, for a seat.
#[derive(Clone, Copy)]
pub enum DeskCall<'a> {
    Pin { seat: u32 },
    PinAt { seat: u32, version: u64 },
    Begin { seat: u32 },
    Line { seat: u32, line: &'a [u8] },
    Commit { seat: u32 },
    Abandon { seat: u32 },
    Release { seat: u32 },
    Collect { seat: u32 },
}

/// A call on a view.
#[derive(Clone, Copy)]
pub enum ViewCall<'a> {
    Version,
    Walk,
    WalkAt { path: &'a [u32] },
    Next,
    Field { number: u32 },
}

/// Answers a call on a database. Where no database was opened it is a `WrongUse`, and nothing is changed.
fn ask_desk(alloc: Global, opened: &mut Opened, call: DeskCall<'_>) -> Told
    ensures { AsksDesk call.entry opened.old opened.new result }
{
    let Inside::Desk(desk) = &mut opened.inside else {
        return Told::only(Status::WrongUse);
    };
    answer_desk(alloc, desk, call, &mut opened.text)
}

/// Answers a call on a view. Where no view was opened it is a `WrongUse`, and nothing is changed.
fn ask_view(opened: &mut Opened, call: ViewCall<'_>) -> Told
    ensures { AsksView call.entry opened.old opened.new result }
{
    let Inside::View(view) = &mut opened.inside else {
        return Told::only(Status::WrongUse);
    };
    answer_view(view, call, &mut opened.text)
}

/// Answers a question. Where no questions were opened it is a `WrongUse`, and nothing is changed.
fn ask_question(alloc: Global, opened: &mut Opened, call: QuestionCall<'_>) -> Told
    ensures { AsksQuestion call.entry opened.old opened.new result }
{
    let Inside::Questions(questions) = &mut opened.inside else {
        return Told::only(Status::WrongUse);
    };
    answer_question(alloc, questions, call, &mut opened.text)
}

/// A call on what was opened.
#[derive(Clone, Copy)]
pub enum Call<'a> {
    Desk(DeskCall<'a>),
    View(ViewCall<'a>),
    Question(QuestionCall<'a>),
    /// The number of bytes of the text.
    Length,
}

/// Answers a call.
pub fn ask(alloc: Global, opened: &mut Opened, call: Call<'_>) -> Told
    ensures { Asks call.entry opened.old opened.new result }
{
    match call {
        Call::Desk(call) => ask_desk(alloc, opened, call),
        Call::View(call) => ask_view(opened, call),
        Call::Question(call) => ask_question(alloc, opened, call),
        Call::Length => Told::done(opened.text.len() as u64),
    }
}

/// A view of the version that a seat of an opened database holds.
pub fn open_view(alloc: Global, opened: &Opened, seat: u32) -> Result<Opened, Status>
    ensures { OpensView opened.now seat result }
{
    let Inside::Desk(desk) = &opened.inside else {
        return Err(Status::WrongUse);
    };
    let Some(seen) = desk.seen(seat) else {
        return Err(Status::WrongUse);
    };
    match seen.share() {
        Ok(version) => Ok(Opened {
            inside: Inside::View(View::of(alloc, version)),
            text: Vec::new(alloc),
        }),
        Err(NoMemory) => Err(Status::NoMemory),
    }
}

/// Questions about the version that a seat of an opened database holds. `NoTop` comes exactly where a seat holds one whose design has none.
pub fn open_questions(alloc: Global, opened: &Opened, seat: u32) -> Result<Opened, Status>
    ensures { OpensQuestions opened.now seat result }
{
    let Inside::Desk(desk) = &opened.inside else {
        return Err(Status::WrongUse);
    };
    let Some(seen) = desk.seen(seat) else {
        return Err(Status::WrongUse);
    };
    let Some(_) = seen.top() else {
        return Err(Status::NoTop);
    };
    let Ok(version) = seen.share() else {
        return Err(Status::NoMemory);
    };
    match Questions::of(alloc, version) {
        Ok(questions) => Ok(Opened {
            inside: Inside::Questions(questions),
            text: Vec::new(alloc),
        }),
        Err(AskError::NoTop) => Err(Status::NoTop),
        Err(AskError::NoMemory) => Err(Status::NoMemory),
    }
}
