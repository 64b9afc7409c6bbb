//! The functions that C calls for questions about a version. Each is one call of `netdb_calls` on what the handle holds.
ghost use Rattle.netdb_calls.specs.declared.calls.Call.TheVariants as asks;
ghost use Rattle.question_calls.specs.declared.calls.QuestionCall.TheVariants as question;
ghost use Rattle.netdb_c.specs.Exports.{Answers, HasQuestions, Says};

use crate::exports::{give, on, put, put_new, take};
use crate::handle::Handle;
use call_status::Status;
use netdb_calls::{Call, open_questions};
use question_calls::QuestionCall;
use std::alloc::Global;

/// Opens questions about the version that a seat holds, in another handle.
#[unsafe(no_mangle)]
pub extern "C" fn netdb_c_ask(alloc: Global, of: &mut Handle, seat: u32, out: &mut Handle) -> u32
    ensures { HasQuestions of.old.held of.new.held seat out.old.held out.new.held result }
{
    let Some(opened) = take(alloc, of) else {
        return Status::WrongUse.number();
    };
    let made = open_questions(alloc, &opened, seat);
    put(alloc, of, opened);
    match made {
        Ok(questions) => put_new(alloc, out, questions, Status::Done),
        Err(status) => status.number(),
    }
}

/// The number of the version that is asked.
#[unsafe(no_mangle)]
pub extern "C" fn netdb_c_ask_version(alloc: Global, of: &mut Handle, version: &mut u64) -> u32
    ensures { Says (asks.Question question.Version) of.old.held of.new.held version.old version.new result }
{
    give(
        on(alloc, of, Call::Question(QuestionCall::Version)),
        version,
    )
}

/// Says the occurrence at a path.
#[unsafe(no_mangle)]
pub extern "C" fn netdb_c_ask_at(alloc: Global, of: &mut Handle, path: &[u8]) -> u32
    ensures { Answers (asks.Question (question.At path.entry)) of.old.held of.new.held result }
{
    on(alloc, of, Call::Question(QuestionCall::At { path }))
        .status
        .number()
}

/// Says the first net at a bit of an occurrence, seen from outside.
#[unsafe(no_mangle)]
pub extern "C" fn netdb_c_ask_net_of(
    alloc: Global,
    of: &mut Handle,
    path: &[u8],
    port: &[u8],
    bit: u32,
) -> u32
    ensures { Answers (asks.Question (question.NetOf path.entry port.entry bit)) of.old.held of.new.held result }
{
    let call = QuestionCall::NetOf { path, port, bit };
    on(alloc, of, Call::Question(call)).status.number()
}

/// The same, seen from inside the occurrence.
#[unsafe(no_mangle)]
pub extern "C" fn netdb_c_ask_inner_net_of(
    alloc: Global,
    of: &mut Handle,
    path: &[u8],
    port: &[u8],
    bit: u32,
) -> u32
    ensures { Answers (asks.Question (question.InnerNetOf path.entry port.entry bit)) of.old.held of.new.held result }
{
    let call = QuestionCall::InnerNetOf { path, port, bit };
    on(alloc, of, Call::Question(call)).status.number()
}

/// Says the first of the nets that are connected with a net.
#[unsafe(no_mangle)]
pub extern "C" fn netdb_c_ask_first_of(
    alloc: Global,
    of: &mut Handle,
    path: &[u8],
    net: &[u8],
) -> u32
    ensures { Answers (asks.Question (question.FirstOf path.entry net.entry)) of.old.held of.new.held result }
{
    on(
        alloc,
        of,
        Call::Question(QuestionCall::FirstOf { path, net }),
    )
    .status
    .number()
}

/// Whether two nets are connected.
#[unsafe(no_mangle)]
pub extern "C" fn netdb_c_ask_same(
    alloc: Global,
    of: &mut Handle,
    path: &[u8],
    net: &[u8],
    other_path: &[u8],
    other_net: &[u8],
) -> u32
    ensures { Answers (asks.Question (question.Same path.entry net.entry other_path.entry other_net.entry)) of.old.held of.new.held result }
{
    let call = QuestionCall::Same {
        path,
        net,
        other_path,
        other_net,
    };
    on(alloc, of, Call::Question(call)).status.number()
}

/// Begins a list of the pins of a net that stand in a role at it.
#[unsafe(no_mangle)]
pub extern "C" fn netdb_c_ask_pins(
    alloc: Global,
    of: &mut Handle,
    path: &[u8],
    net: &[u8],
    role: u32,
) -> u32
    ensures { Answers (asks.Question (question.Pins path.entry net.entry role)) of.old.held of.new.held result }
{
    let call = QuestionCall::Pins { path, net, role };
    on(alloc, of, Call::Question(call)).status.number()
}

/// Begins a list of the occurrences right below an occurrence.
#[unsafe(no_mangle)]
pub extern "C" fn netdb_c_ask_insts(alloc: Global, of: &mut Handle, path: &[u8]) -> u32
    ensures { Answers (asks.Question (question.Insts path.entry)) of.old.held of.new.held result }
{
    on(alloc, of, Call::Question(QuestionCall::Insts { path }))
        .status
        .number()
}

/// Begins a list of the nets of an occurrence.
#[unsafe(no_mangle)]
pub extern "C" fn netdb_c_ask_nets(alloc: Global, of: &mut Handle, path: &[u8]) -> u32
    ensures { Answers (asks.Question (question.Nets path.entry)) of.old.held of.new.held result }
{
    on(alloc, of, Call::Question(QuestionCall::Nets { path }))
        .status
        .number()
}

/// Says the next item of the list.
#[unsafe(no_mangle)]
pub extern "C" fn netdb_c_ask_next(alloc: Global, of: &mut Handle) -> u32
    ensures { Answers (asks.Question question.Next) of.old.held of.new.held result }
{
    on(alloc, of, Call::Question(QuestionCall::Next))
        .status
        .number()
}
