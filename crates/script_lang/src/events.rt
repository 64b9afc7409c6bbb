//! The text of an event.
ghost use Rattle.std.specs.Prelude.{◌≡◌, ◌∷◌, [], ◌++◌, codes, drop, slice_get, OnErr, OnOk};
ghost use Rattle.std.specs.Fmt.{decimal};
ghost use Rattle.std.specs.Option.{option_copied};
ghost use Rattle.edif_names.specs.Parts.{Grows};
ghost use Rattle.flat_lines_spec.specs.Lines.{spaced};
ghost use Rattle.script_spec.specs.Texts.{answer_words, call_words, conflict_words, event_text, op_lines, ops_of, replies_of};
ghost use Rattle.script_texts.specs.Parts.{behind_blanks};
ghost use Rattle.script_lang.specs.Parts.{event_words, op_line, told_text};

use db_spec::{Answer, Call, Event};
use edit_spec::{Op, Reply};
use netlist_schema::{NoMemory, Object, Shown};
use script_texts::{
    push_count, push_digits, push_number, push_object, push_op, push_reply, push_size, push_word,
};
use std::alloc::Global;

/// Appends an event with its number in the history: who called, the call and the answer in a line, and below it each operation of
/// a commit, with its reply where the commit was accepted. The design tells the names of an object that conflicts. After
/// `NoMemory` the bytes are as before.
pub fn event_text<S: Shown>(
    alloc: Global,
    design: &S,
    number: u64,
    event: &Event,
    out: &mut Vec<u8>,
) -> Result<(), NoMemory>
    ensures ok { OnOk result (out.new.items ≡ out.old.items ++ event_text (S.design design.now) number event.now) }
    ensures err { OnErr result (out.new.items ≡ out.old.items) }
{
    let before = out.len();
    if push_event(alloc, design, number, event, out).is_err() {
        out.truncate(before);
        return Err(NoMemory);
    }
    Ok(())
}

/// Appends a call, each word behind a blank. After `NoMemory` some bytes may stand behind those before.
fn push_call(call: &Call, out: &mut Vec<u8>) -> Result<(), NoMemory>
    ensures ok { OnOk result (out.new.items ≡ out.old.items ++ behind_blanks (call_words call.now)) }
    ensures grows { Grows out.old.items out.new.items }
{
    match call {
        Call::Pin => push_word(b"pin", out),
        Call::PinAt(version) => push_count(b"pin-at", *version, out),
        Call::Release(pin) => push_of_pin(b"release", *pin, out),
        Call::Collect => push_word(b"collect", out),
        Call::Commit { pin, .. } => push_of_pin(b"commit", *pin, out),
    }
}

/// Appends a word and a pin, each word behind a blank. After `NoMemory` some bytes may stand behind those before.
fn push_of_pin(word: &[u8], pin: u64, out: &mut Vec<u8>) -> Result<(), NoMemory>
    ensures ok { OnOk result (out.new.items ≡ out.old.items ++ behind_blanks (word.now ∷ codes "pin" ∷ decimal pin ∷ [])) }
    ensures grows { Grows out.old.items out.new.items }
{
    push_word(word, out)?;
    push_count(b"pin", pin, out)
}

/// Appends a new pin and its version, each word behind a blank. After `NoMemory` some bytes may stand behind those before.
fn push_pinned(pin: u64, version: u64, out: &mut Vec<u8>) -> Result<(), NoMemory>
    ensures ok { OnOk result (out.new.items ≡ out.old.items ++ behind_blanks (codes "pin" ∷ decimal pin ∷ codes "version" ∷ decimal version ∷ [])) }
    ensures grows { Grows out.old.items out.new.items }
{
    push_count(b"pin", pin, out)?;
    push_count(b"version", version, out)
}

/// Appends a conflict, each word behind a blank. After `NoMemory` some bytes may stand behind those before.
fn push_conflict<S: Shown>(
    design: &S,
    object: Object,
    version: u64,
    out: &mut Vec<u8>,
) -> Result<(), NoMemory>
    ensures ok { OnOk result (out.new.items ≡ out.old.items ++ behind_blanks (conflict_words (S.design design.now) object version)) }
    ensures grows { Grows out.old.items out.new.items }
{
    push_word(b"conflict", out)?;
    push_object(design, object, out)?;
    push_count(b"version", version, out)
}

/// Appends an answer, each word behind a blank. After `NoMemory` some bytes may stand behind those before.
fn push_answer<S: Shown>(design: &S, answer: &Answer, out: &mut Vec<u8>) -> Result<(), NoMemory>
    ensures ok { OnOk result (out.new.items ≡ out.old.items ++ behind_blanks (answer_words (S.design design.now) answer.now)) }
    ensures grows { Grows out.old.items out.new.items }
{
    match answer {
        Answer::Pinned { pin, version } => push_pinned(*pin, *version, out),
        Answer::NoVersion(last) => push_count(b"no-version", *last, out),
        Answer::Gone(least) => push_count(b"gone", *least, out),
        Answer::Released => push_word(b"released", out),
        Answer::Collected(count) => push_count(b"collected", u64::from(*count), out),
        Answer::Committed { version, .. } => push_count(b"committed", *version, out),
        Answer::Conflict { object, version } => push_conflict(design, *object, *version, out),
    }
}

/// Appends the words of an event behind its number. After `NoMemory` some bytes may stand behind those before.
fn push_words<S: Shown>(design: &S, event: &Event, out: &mut Vec<u8>) -> Result<(), NoMemory>
    ensures ok { OnOk result (out.new.items ≡ out.old.items ++ behind_blanks (event_words (S.design design.now) event.now)) }
    ensures grows { Grows out.old.items out.new.items }
{
    push_size(b"caller", event.caller, out)?;
    push_call(&event.call, out)?;
    push_word(b"->", out)?;
    push_answer(design, &event.answer, out)
}

/// Appends the line of an event. After `NoMemory` some bytes may stand behind those before.
fn push_line<S: Shown>(
    design: &S,
    number: u64,
    event: &Event,
    out: &mut Vec<u8>,
) -> Result<(), NoMemory>
    ensures ok { OnOk result (out.new.items ≡ out.old.items ++ (spaced (decimal number ∷ event_words (S.design design.now) event.now) ++ 10 ∷ [])) }
    ensures grows { Grows out.old.items out.new.items }
{
    push_digits(number, out)?;
    push_words(design, event, out)?;
    out.push(b'\n')?;
    Ok(())
}

/// Appends a reply behind an arrow, where there is one. After `NoMemory` some bytes may stand behind those before.
fn push_told(alloc: Global, reply: Option<&Reply>, out: &mut Vec<u8>) -> Result<(), NoMemory>
    ensures ok { OnOk result (out.new.items ≡ out.old.items ++ told_text (option_copied reply.entry)) }
    ensures grows { Grows out.old.items out.new.items }
{
    let Some(reply) = reply else {
        return Ok(());
    };
    out.extend_from_slice(b" -> ")?;
    push_reply(alloc, reply, out)
}

/// Appends an operation in a line below an event. After `NoMemory` some bytes may stand behind those before.
fn push_op_line(
    alloc: Global,
    op: &Op,
    reply: Option<&Reply>,
    out: &mut Vec<u8>,
) -> Result<(), NoMemory>
    ensures ok { OnOk result (out.new.items ≡ out.old.items ++ op_line op.now (option_copied reply.entry)) }
    ensures grows { Grows out.old.items out.new.items }
{
    push_op(alloc, op, out)?;
    push_told(alloc, reply, out)?;
    out.push(b'\n')?;
    Ok(())
}

/// The first of the replies, where there is one, and the others.
fn next_reply(left: &[Reply]) -> (Option<&Reply>, &[Reply])
    ensures first { option_copied result.0 ≡ slice_get left.now 0 }
    ensures others { result.1.now ≡ drop 1 left.now }
{
    match left.split_first() {
        Some((reply, others)) => (Some(reply), others),
        None => (None, &[]),
    }
}

/// Appends operations, each in a line with its reply. After `NoMemory` some bytes may stand behind those before.
fn push_ops(alloc: Global, ops: &[Op], replies: &[Reply], out: &mut Vec<u8>) -> Result<(), NoMemory>
    ensures ok { OnOk result (out.new.items ≡ out.old.items ++ op_lines ops.now replies.now) }
    ensures grows { Grows out.old.items out.new.items }
{
    let mut left = replies;
    for op in ops {
        let (reply, others) = next_reply(left);
        push_op_line(alloc, op, reply, out)?;
        left = others;
    }
    Ok(())
}

/// The operations of a call.
fn call_ops(call: &Call) -> &[Op]
    ensures { result.now ≡ ops_of call.now }
{
    match call {
        Call::Commit { ops, .. } => ops.as_slice(),
        _ => &[],
    }
}

/// The replies of an answer.
fn answer_replies(answer: &Answer) -> &[Reply]
    ensures { result.now ≡ replies_of answer.now }
{
    match answer {
        Answer::Committed { replies, .. } => replies.as_slice(),
        _ => &[],
    }
}

/// Appends an event. After `NoMemory` some bytes may stand behind those before.
fn push_event<S: Shown>(
    alloc: Global,
    design: &S,
    number: u64,
    event: &Event,
    out: &mut Vec<u8>,
) -> Result<(), NoMemory>
    ensures ok { OnOk result (out.new.items ≡ out.old.items ++ event_text (S.design design.now) number event.now) }
    ensures grows { Grows out.old.items out.new.items }
{
    push_line(design, number, event, out)?;
    push_ops(
        alloc,
        call_ops(&event.call),
        answer_replies(&event.answer),
        out,
    )
}
