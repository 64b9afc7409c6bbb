//! Steps, from the words of a line.
ghost use Rattle.std.specs.Prelude.{◌∷◌, [], codes, IfOk};
ghost use Rattle.script_spec.specs.Lines.{IsSayable, number, said};
ghost use Rattle.script_spec.specs.Pieces.{Alone, Number, SpellPieces};
ghost use Rattle.script_spec.specs.ScriptText.{SayStep};
ghost use Rattle.script_words.specs.Reading.{lent, Reads};
ghost use Rattle.script_reader.specs.Steps.{IsStepOf, limit_pieces, ReadsStep, SaysRetries};
ghost use Rattle.script_ops.specs.declared.verbs.Verb.TheVariants as verbs;

use script_ops::{Bare, OpVerb, Verb, find_verb, finished, first, only, read_op};
use script_spec::Step;
use script_words::{Unread, number};
use std::alloc::Global;

/// `retry` and a number.
fn counted_retries(words: &[&[u8]]) -> Result<u32, Unread>
    ensures { Reads (λ n. SpellPieces (lent words.now) (said (codes "retry") ∷ number 16 n ∷ [])) result }
{
    let (word, others) = first(words)?;
    if word != b"retry".as_slice() {
        return Err(Unread::Bad);
    }
    let n = number(only(others)?, 0, 16)?;
    match u32::try_from(n) {
        Ok(retries) => Ok(retries),
        Err(_) => Err(Unread::Bad),
    }
}

/// The retries of a `begin`.
fn retries(words: &[&[u8]]) -> Result<u32, Unread>
    ensures { Reads (λ n. SaysRetries (lent words.now) n) result }
{
    if words.is_empty() {
        return Ok(0);
    }
    counted_retries(words)
}

/// `limit` and a number.
fn counted_limit(words: &[&[u8]]) -> Result<u64, Unread>
    ensures { Reads (λ n. SpellPieces (lent words.now) (said (codes "limit") ∷ Alone (Number 1 4294967295 n) ∷ [])) result }
{
    let (word, others) = first(words)?;
    if word != b"limit".as_slice() {
        return Err(Unread::Bad);
    }
    number(only(others)?, 1, u64::from(u32::MAX))
}

/// The limit of a walk.
fn limit(words: &[&[u8]]) -> Result<Option<u64>, Unread>
    ensures { Reads (λ n. SpellPieces (lent words.now) (limit_pieces n)) result }
{
    if words.is_empty() {
        return Ok(None);
    }
    Ok(Some(counted_limit(words)?))
}

/// The step of a line of one word.
fn bare_step(verb: Bare) -> Step
    ensures { IsStepOf (verbs.Alone verb) [] result }
{
    match verb {
        Bare::Commit => Step::Commit,
        Bare::Abandon => Step::Abandon,
        Bare::Pin => Step::Pin,
        Bare::Release => Step::Release,
        Bare::Collect => Step::Collect,
    }
}

/// A line of one word.
fn read_bare(verb: Bare, words: &[&[u8]]) -> Result<Step, Unread>
    ensures { ReadsStep (verbs.Alone verb) (lent words.now) result }
{
    finished(words)?;
    Ok(bare_step(verb))
}

fn read_begin(words: &[&[u8]]) -> Result<Step, Unread>
    ensures { ReadsStep verbs.Begin (lent words.now) result }
{
    let retries = retries(words)?;
    Ok(Step::Begin { retries })
}

fn read_pin_at(words: &[&[u8]]) -> Result<Step, Unread>
    ensures { ReadsStep verbs.PinAt (lent words.now) result }
{
    let version = number(only(words)?, 0, u64::MAX)?;
    Ok(Step::PinAt(version))
}

fn read_walk(words: &[&[u8]]) -> Result<Step, Unread>
    ensures { ReadsStep verbs.Walk (lent words.now) result }
{
    let limit = limit(words)?;
    Ok(Step::Walk { limit })
}

fn read_run(alloc: Global, verb: OpVerb, words: &[&[u8]]) -> Result<Step, Unread>
    ensures { ReadsStep (verbs.Operation verb) (lent words.now) result }
{
    let op = read_op(alloc, verb, words)?;
    Ok(Step::Run(op))
}

/// The step of a line with this verb. `Bad` where the words behind it say none.
fn read_behind(alloc: Global, verb: Verb, words: &[&[u8]]) -> Result<Step, Unread>
    ensures { ReadsStep verb (lent words.now) result }
{
    match verb {
        Verb::Begin => read_begin(words),
        Verb::PinAt => read_pin_at(words),
        Verb::Walk => read_walk(words),
        Verb::Alone(bare) => read_bare(bare, words),
        Verb::Operation(op) => read_run(alloc, op, words),
    }
}

/// The step that the words of a line say. `Bad` where they say none.
pub(crate) fn read_step(alloc: Global, words: &[&[u8]]) -> Result<Step, Unread>
    ensures said { Reads (λ step. SayStep (lent words.now) step) result }
    ensures sayable { IfOk result IsSayable }
{
    let (word, others) = first(words)?;
    match find_verb(word) {
        Some(verb) => read_behind(alloc, verb, others),
        None => Err(Unread::Bad),
    }
}
