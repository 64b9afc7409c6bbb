//! The values of properties.
ghost use Rattle.std.specs.Prelude.{◌≡◌, FitsSigned, IsTrue, true};
ghost use Rattle.std.specs.Int.{w64};
ghost use Rattle.edif_spelling_spec.specs.Tree.{bare};
ghost use Rattle.netlist_schema.specs.Typed.{IsTypedNum, IsTypedValue};
ghost use Rattle.netlist_schema.specs.declared.property.Value.TheVariants as values;
ghost use Rattle.edif_spec.specs.Means.{MeansNumber, MeansValue};
ghost use Rattle.edif_spec.specs.Rows.{has_keyword, is_one_of};
ghost use Rattle.edif_spec.specs.Stands.{InValue, NumberFault};
ghost use Rattle.edif_spec.specs.declared.keyword.Keyword.TheVariants.{Boolean as BooleanWord, E as ScaledWord, Integer as IntegerWord, Number as NumberWord};
ghost use Rattle.edif_tree.specs.Handles.{here};
ghost use Rattle.edif_parts.specs.Reading.{Answers};
ghost use Rattle.edif_parts.specs.Values.{value_forms};

use crate::error::{EdifError, bad_form};
use crate::parts::{integer_at, read_parts};
use crate::texts::read_text;
use edif_grammar::is_form_of;
use edif_spec::Keyword;
use edif_tree::Node;
use netlist_schema::{Num, Value};
use std::alloc::Global;

/// The value that a form at a node means.
pub(crate) fn read_value(alloc: Global, node: Node<'_>) -> Result<Value, EdifError>
    requires { IsTrue (is_one_of value_forms (bare (here node))) }
    ensures { Answers (λ v. MeansValue (bare (here node.entry)) v × IsTypedValue v) (InValue (here node.entry)) result }
{
    if is_form_of(node, Keyword::Boolean) {
        let truth = read_boolean(alloc, node)?;
        return Ok(Value::Boolean(truth));
    }
    if is_form_of(node, Keyword::Integer) {
        let value = read_integer(alloc, node)?;
        return Ok(Value::Integer(value));
    }
    if is_form_of(node, Keyword::Number) {
        let number = read_number(alloc, node)?;
        return Ok(Value::Number(number));
    }
    let text = read_text(alloc, node, Keyword::String)?;
    Ok(Value::Text(text))
}

/// The truth value that a `boolean` at a node means.
fn read_boolean(alloc: Global, node: Node<'_>) -> Result<bool, EdifError>
    requires { has_keyword BooleanWord (bare (here node)) ≡ true }
    ensures { Answers (λ b. MeansValue (bare (here node.entry)) (values.Boolean b)) (InValue (here node.entry)) result }
{
    let parts = read_parts(alloc, node, Keyword::Boolean)?;
    let truth = parts.fixed.at(0);
    if is_form_of(truth, Keyword::True) {
        read_parts(alloc, truth, Keyword::True)?;
        Ok(true)
    } else {
        read_parts(alloc, truth, Keyword::False)?;
        Ok(false)
    }
}

/// The number that an `integer` at a node means.
fn read_integer(alloc: Global, node: Node<'_>) -> Result<i64, EdifError>
    requires { has_keyword IntegerWord (bare (here node)) ≡ true }
    ensures { Answers (λ z. MeansValue (bare (here node.entry)) (values.Integer z) × FitsSigned w64 z) (InValue (here node.entry)) result }
{
    let parts = read_parts(alloc, node, Keyword::Integer)?;
    Ok(integer_at(parts.fixed.at(0)))
}

/// The number that a `number` at a node means.
fn read_number(alloc: Global, node: Node<'_>) -> Result<Num, EdifError>
    requires { has_keyword NumberWord (bare (here node)) ≡ true }
    ensures { Answers (λ n. MeansValue (bare (here node.entry)) (values.Number n) × IsTypedNum n) (InValue (here node.entry)) result }
{
    let parts = read_parts(alloc, node, Keyword::Number)?;
    let number = parts.fixed.at(0);
    if is_form_of(number, Keyword::E) {
        read_scaled(alloc, number)
    } else {
        Ok(Num::Int(integer_at(number)))
    }
}

/// The number that a mantissa with an exponent at a node means.
fn read_scaled(alloc: Global, node: Node<'_>) -> Result<Num, EdifError>
    requires { has_keyword ScaledWord (bare (here node)) ≡ true }
    ensures { Answers (λ n. MeansNumber (bare (here node.entry)) n × IsTypedNum n) (NumberFault (here node.entry)) result }
{
    let parts = read_parts(alloc, node, Keyword::E)?;
    let power = parts.fixed.at(1);
    let mantissa = integer_at(parts.fixed.at(0));
    let Ok(exponent) = i32::try_from(integer_at(power)) else {
        return Err(bad_form(power.place()));
    };
    Ok(Num::Scaled { mantissa, exponent })
}
