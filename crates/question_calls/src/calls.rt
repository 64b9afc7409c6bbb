//! The questions about a version.
ghost use Rattle.std.specs.Prelude.{◌≡◌};
ghost use Rattle.question_calls.specs.Questions.{AnswersNext, AnswersQuestion, BeginsAs, Said, SaysItem, SaysNext, TellsSame, role_at, told_of_begun, told_of_refusal, told_of_same};

use call_status::{Status, Told};
use flat_report::item_text;
use flat_spec::Item;
use netdb_questions::{NetName, NextError, Questions, Refusal, Role};
use netlist_schema::NoMemory;
use std::alloc::Global;

/// A question about a version. Paths, ports and nets go by their texts.
#[derive(Clone, Copy)]
pub enum QuestionCall<'a> {
    Version,
    At {
        path: &'a [u8],
    },
    NetOf {
        path: &'a [u8],
        port: &'a [u8],
        bit: u32,
    },
    InnerNetOf {
        path: &'a [u8],
        port: &'a [u8],
        bit: u32,
    },
    FirstOf {
        path: &'a [u8],
        net: &'a [u8],
    },
    Same {
        path: &'a [u8],
        net: &'a [u8],
        other_path: &'a [u8],
        other_net: &'a [u8],
    },
    /// A list of the pins of a net that stand in the role of this number at it: 0 is any, 1 drivers, 2 loads.
    Pins {
        path: &'a [u8],
        net: &'a [u8],
        role: u32,
    },
    Insts {
        path: &'a [u8],
    },
    Nets {
        path: &'a [u8],
    },
    Next,
}

/// Why a question has no answer.
fn of_refusal(refusal: Refusal) -> Told
    ensures { result ≡ told_of_refusal refusal }
{
    match refusal {
        Refusal::NoPath => Told::only(Status::NoPath),
        Refusal::NoName => Told::only(Status::NoName),
        Refusal::NoNet => Told::only(Status::NoNet),
        Refusal::NoMemory => Told::only(Status::NoMemory),
    }
}

/// Whether two nets are connected.
fn of_same(answer: Result<bool, Refusal>) -> Told
    ensures { result ≡ told_of_same answer }
{
    match answer {
        Ok(true) => Told::only(Status::Done),
        Ok(false) => Told::only(Status::Apart),
        Err(refusal) => of_refusal(refusal),
    }
}

/// What the beginning of a list came to.
fn of_begun(answer: Result<(), Refusal>) -> Told
    ensures { result ≡ told_of_begun answer }
{
    match answer {
        Ok(()) => Told::only(Status::Done),
        Err(refusal) => of_refusal(refusal),
    }
}

/// The role of a number, where it is one.
fn role_of(number: u32) -> Option<Role>
    ensures { result ≡ role_at number }
{
    match number {
        0 => Some(Role::Any),
        1 => Some(Role::Driver),
        2 => Some(Role::Load),
        _ => None,
    }
}

/// Answers a question. The text is that of an item; the other answers leave it.
pub fn answer_question(
    alloc: Global,
    questions: &mut Questions,
    call: QuestionCall<'_>,
    text: &mut Vec<u8>,
) -> Told
    ensures { AnswersQuestion call.entry questions.old questions.new text.old.items text.new.items result }
{
    match call {
        QuestionCall::Version => Told::done(questions.version()),
        QuestionCall::At { path } => {
            let item = questions.at(path);
            say_item(alloc, questions, item, text)
        }
        QuestionCall::NetOf { path, port, bit } => {
            let item = questions.net_of(path, port, bit);
            say_item(alloc, questions, item, text)
        }
        QuestionCall::InnerNetOf { path, port, bit } => {
            let item = questions.inner_net_of(path, port, bit);
            say_item(alloc, questions, item, text)
        }
        QuestionCall::FirstOf { path, net } => {
            let item = questions.first_of(path, net);
            say_item(alloc, questions, item, text)
        }
        QuestionCall::Same {
            path,
            net,
            other_path,
            other_net,
        } => are_same(questions, path, net, other_path, other_net),
        QuestionCall::Pins { path, net, role } => begin_pins(questions, path, net, role),
        QuestionCall::Insts { path } => of_begun(questions.insts(path)),
        QuestionCall::Nets { path } => of_begun(questions.nets(path)),
        QuestionCall::Next => next(alloc, questions, text),
    }
}

/// Tells whether two nets are connected.
fn are_same(
    questions: &Questions,
    path: &[u8],
    net: &[u8],
    other_path: &[u8],
    other_net: &[u8],
) -> Told
    ensures { TellsSame questions.now.version.design path.now net.now other_path.now other_net.now result }
{
    let one = NetName { path, net };
    let other = NetName {
        path: other_path,
        net: other_net,
    };
    of_same(questions.is_same_net(one, other))
}

/// Gives the next item of the list. The text is its line.
fn next(alloc: Global, questions: &mut Questions, text: &mut Vec<u8>) -> Told
    ensures { AnswersNext questions.old questions.new text.old.items text.new.items result }
{
    let item = questions.next();
    say_next(alloc, questions, item, text)
}

/// Begins a list of the pins of a net that stand in the role of a number.
fn begin_pins(questions: &mut Questions, path: &[u8], net: &[u8], number: u32) -> Told
    ensures { BeginsAs (role_at number) questions.old questions.new path.now net.now result }
{
    match role_of(number) {
        Some(role) => of_begun(questions.pins(role, path, net)),
        None => Told::only(Status::WrongUse),
    }
}

/// Says the line of an item. Where there is no memory for it, the status is this one, and the text is empty.
fn say(alloc: Global, questions: &Questions, item: &Item, lost: Status, text: &mut Vec<u8>) -> Told
    ensures { Said questions.now.version.design item.now lost text.new.items result }
{
    text.clear();
    match item_text(alloc, questions.design(), item, text) {
        Ok(()) => Told::only(Status::Done),
        Err(NoMemory) => Told::only(lost),
    }
}

/// Says the item that answers a question. A refusal leaves the text.
fn say_item(
    alloc: Global,
    questions: &Questions,
    answer: Result<Item, Refusal>,
    text: &mut Vec<u8>,
) -> Told
    ensures { SaysItem questions.now.version.design answer text.old.items text.new.items result }
{
    match answer {
        Ok(item) => say(alloc, questions, &item, Status::NoMemory, text),
        Err(refusal) => of_refusal(refusal),
    }
}

/// Says the next item of a list. Where none was given, the text stays.
fn say_next(
    alloc: Global,
    questions: &Questions,
    answer: Result<Option<Item>, NextError>,
    text: &mut Vec<u8>,
) -> Told
    ensures { SaysNext questions.now.version.design answer text.old.items text.new.items result }
{
    match answer {
        Ok(Some(item)) => say(alloc, questions, &item, Status::TextLost, text),
        Ok(None) => Told::only(Status::End),
        Err(NextError::NoList) => Told::only(Status::WrongUse),
        Err(NextError::NoMemory) => Told::only(Status::NoMemory),
    }
}
