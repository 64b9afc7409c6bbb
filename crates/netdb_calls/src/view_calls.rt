//! The calls on a view.
ghost use Rattle.std.specs.Prelude.{◌≡◌};
ghost use Rattle.netdb_calls.specs.Fields.{field_at};
ghost use Rattle.netdb_calls.specs.Answers.{AnswersView, HasShown, SaysField, told_of_begin_at, told_of_walk};

use crate::calls::ViewCall;
use call_status::{Status, Told};
use netdb_view::{BeginError, Field, LineStep, View};
use netlist_schema::NoMemory;
use occ_walk::WalkError;

/// What the beginning of a walk came to.
fn of_walk(answer: Result<(), WalkError>) -> Told
    ensures { result ≡ told_of_walk answer }
{
    match answer {
        Ok(()) => Told::only(Status::Done),
        Err(WalkError::NoTop) => Told::only(Status::NoTop),
        Err(WalkError::NoMemory) => Told::only(Status::NoMemory),
    }
}

/// What the beginning of a walk at a path came to.
fn of_walk_at(answer: Result<(), BeginError>) -> Told
    ensures { result ≡ told_of_begin_at answer }
{
    match answer {
        Ok(()) => Told::only(Status::Done),
        Err(BeginError::NoTop) => Told::only(Status::NoTop),
        Err(BeginError::NoPath) => Told::only(Status::NoPath),
        Err(BeginError::NoMemory) => Told::only(Status::NoMemory),
    }
}

/// The field of a number, where it is one.
fn field_of(number: u32) -> Option<Field>
    ensures { result ≡ field_at number }
{
    match number {
        0 => Some(Field::Kind),
        1 => Some(Field::Path),
        2 => Some(Field::Library),
        3 => Some(Field::Cell),
        4 => Some(Field::Net),
        5 => Some(Field::Port),
        6 => Some(Field::Bit),
        7 => Some(Field::Direction),
        8 => Some(Field::FirstPath),
        9 => Some(Field::FirstNet),
        _ => None,
    }
}

/// Answers a call. The text is that of an item or a field; the other calls leave it.
pub(crate) fn answer_view(view: &mut View, call: ViewCall<'_>, text: &mut Vec<u8>) -> Told
    ensures { AnswersView call.entry view.old view.new text.old.items text.new.items result }
{
    match call {
        ViewCall::Version => Told::done(view.version().version()),
        ViewCall::Walk => of_walk(view.begin()),
        ViewCall::WalkAt { path } => of_walk_at(view.begin_at(path)),
        ViewCall::Next => next(view, text),
        ViewCall::Field { number } => say_field(view, number, text),
    }
}

/// Shows the next item. The text is its line.
fn next(view: &mut View, text: &mut Vec<u8>) -> Told
    ensures { HasShown view.old view.new text.old.items text.new.items result }
{
    match view.next_line(text) {
        LineStep::Shown => Told::only(Status::Done),
        LineStep::Lost => Told::only(Status::TextLost),
        LineStep::End => Told::only(Status::End),
        LineStep::NoWalk => Told::only(Status::WrongUse),
        LineStep::NoMemory => Told::only(Status::NoMemory),
    }
}

/// Says a field of the item that is shown.
fn say_field(view: &View, number: u32, text: &mut Vec<u8>) -> Told
    ensures { SaysField view.now number text.new.items result }
{
    text.clear();
    let Some(which) = field_of(number) else {
        return Told::only(Status::NoField);
    };
    match view.field(which, text) {
        Ok(true) => Told::only(Status::Done),
        Ok(false) => Told::only(Status::NoField),
        Err(NoMemory) => Told::only(Status::NoMemory),
    }
}
