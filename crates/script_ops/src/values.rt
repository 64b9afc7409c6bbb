//! Values and properties.
ghost use Rattle.std.specs.Prelude.{◌≡◌, ◌≢◌, ◌∷◌, [], codes, IfOk, MatchResult};
ghost use Rattle.script_spec.specs.Lines.{IsPlainProperty, property_pieces, said, value_pieces};
ghost use Rattle.script_spec.specs.Pieces.{Alone, Exponent, SpellPieces};
ghost use Rattle.script_words.specs.Reading.{lent, Reads};
ghost use Rattle.script_ops.specs.Values.{kind_word, num_rest, ReadsValue};
ghost use Rattle.script_ops.specs.Verbs.{HasBytes};

use crate::front::{finished, first, only, take_name};
use netlist_schema::{Name, Num, Property, Value};
use script_words::{Unread, exponent, integer, quoted};
use std::alloc::Global;

/// Which value a line gives, by its first word.
#[derive(Clone, Copy)]
pub enum Kind {
    True,
    False,
    Int,
    Num,
    Str,
}

/// The kind that a word names.
fn find_kind(word: &[u8]) -> Result<Kind, Unread>
    ensures { MatchResult result (λ k. word.now ≡ kind_word k) (λ e. (k : _) → word.now ≢ kind_word k) }
{
    if word == b"true".as_slice() {
        return Ok(Kind::True);
    }
    if word == b"false".as_slice() {
        return Ok(Kind::False);
    }
    if word == b"int".as_slice() {
        return Ok(Kind::Int);
    }
    if word == b"num".as_slice() {
        return Ok(Kind::Num);
    }
    if word == b"str".as_slice() {
        return Ok(Kind::Str);
    }
    Err(Unread::Bad)
}

/// `e` and an exponent.
fn power(words: &[&[u8]]) -> Result<i32, Unread>
    ensures { Reads (λ x. SpellPieces (lent words.now) (said (codes "e") ∷ Alone (Exponent x) ∷ [])) result }
{
    let (word, others) = first(words)?;
    if word != b"e".as_slice() {
        return Err(Unread::Bad);
    }
    exponent(only(others)?)
}

/// The words of a number behind `num`.
fn num(words: &[&[u8]]) -> Result<Num, Unread>
    ensures { Reads (λ n. SpellPieces (lent words.now) (num_rest n)) result }
{
    let (word, others) = first(words)?;
    let mantissa = integer(word)?;
    if others.is_empty() {
        return Ok(Num::Int(mantissa));
    }
    let exponent = power(others)?;
    Ok(Num::Scaled { mantissa, exponent })
}

/// The words of a value of this kind behind its first word.
fn value_of(alloc: Global, kind: Kind, words: &[&[u8]]) -> Result<Value, Unread>
    ensures spelled { ReadsValue kind (lent words.now) result }
    ensures bytes { IfOk result HasBytes }
{
    match kind {
        Kind::True => {
            finished(words)?;
            Ok(Value::Boolean(true))
        }
        Kind::False => {
            finished(words)?;
            Ok(Value::Boolean(false))
        }
        Kind::Int => Ok(Value::Integer(integer(only(words)?)?)),
        Kind::Num => Ok(Value::Number(num(words)?)),
        Kind::Str => Ok(Value::Text(quoted(alloc, only(words)?)?)),
    }
}

/// A value.
fn value(alloc: Global, words: &[&[u8]]) -> Result<Value, Unread>
    ensures spelled { Reads (λ v. SpellPieces (lent words.now) (value_pieces v)) result }
    ensures bytes { IfOk result HasBytes }
{
    let (word, others) = first(words)?;
    value_of(alloc, find_kind(word)?, others)
}

/// A property: its key and its value.
pub(crate) fn property(alloc: Global, words: &[&[u8]]) -> Result<Property, Unread>
    ensures spelled { Reads (λ p. SpellPieces (lent words.now) (property_pieces p)) result }
    ensures plain { IfOk result IsPlainProperty }
    ensures bytes { IfOk result (λ p. HasBytes p.value) }
{
    let (id, others) = take_name(alloc, words)?;
    let value = value(alloc, others)?;
    Ok(Property {
        key: Name { id, shown: None },
        value,
        owner: None,
    })
}
