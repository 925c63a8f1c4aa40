//! How values are joined.

ghost use Rattle.std.specs.Prelude.{◌≡◌, ◌≢◌, ◌≤◌};
ghost use Rattle.expression_defs.specs.Expression as spec;
ghost use Rattle.asm_text.specs.GivenValues.{model_of_value, model_of_value_answer};

use crate::expressions::values::Value;
use expression_defs::ExprError;

/// Two values, joined by an operator. Anything but `+`, `-` and `*` divides.
pub(crate) fn joined(operator: u8, a: Value, b: Value) -> Result<Value, ExprError>
    ensures { model_of_value_answer result ≡ spec.joined operator (model_of_value a) (model_of_value b) }
{
    match operator {
        b'+' => sum(a, b),
        b'-' => difference(a, b),
        b'*' => product(a, b),
        _ => ratio(a, b),
    }
}

fn sum(a: Value, b: Value) -> Result<Value, ExprError>
    ensures { model_of_value_answer result ≡ spec.sum (model_of_value a) (model_of_value b) }
{
    match (a, b) {
        (Value::Absolute(a), Value::Absolute(b)) => Ok(Value::Absolute(a.wrapping_add(b))),
        (Value::Absolute(a), Value::Relocatable(b)) | (Value::Relocatable(a), Value::Absolute(b)) =>
            { Ok(Value::Relocatable(a.wrapping_add(b))) }
        _ => Err(ExprError::BadRelocation),
    }
}

fn difference(a: Value, b: Value) -> Result<Value, ExprError>
    ensures { model_of_value_answer result ≡ spec.difference (model_of_value a) (model_of_value b) }
{
    match (a, b) {
        (Value::Absolute(a), Value::Absolute(b)) | (Value::Relocatable(a), Value::Relocatable(b)) =>
            { Ok(Value::Absolute(a.wrapping_sub(b))) }
        (Value::Relocatable(a), Value::Absolute(b)) => Ok(Value::Relocatable(a.wrapping_sub(b))),
        _ => Err(ExprError::BadRelocation),
    }
}

fn product(a: Value, b: Value) -> Result<Value, ExprError>
    ensures { model_of_value_answer result ≡ spec.product (model_of_value a) (model_of_value b) }
{
    match (a, b) {
        (Value::Absolute(a), Value::Absolute(b)) => Ok(Value::Absolute(a.wrapping_mul(b))),
        _ => Err(ExprError::BadRelocation),
    }
}

fn ratio(a: Value, b: Value) -> Result<Value, ExprError>
    ensures { model_of_value_answer result ≡ spec.ratio (model_of_value a) (model_of_value b) }
{
    match (a, b) {
        (Value::Absolute(_), Value::Absolute(0)) => Err(ExprError::DivideByZero),
        (Value::Absolute(a), Value::Absolute(b)) => Ok(Value::Absolute(quotient(a, b))),
        _ => Err(ExprError::BadRelocation),
    }
}

/// A value after a minus sign.
pub(crate) fn minus(value: Value) -> Result<Value, ExprError>
    ensures { model_of_value_answer result ≡ spec.minus (model_of_value value) }
{
    match value {
        Value::Absolute(number) => Ok(Value::Absolute(negated(number))),
        _ => Err(ExprError::BadRelocation),
    }
}

/// The number with the other sign.
fn negated(number: u16) -> u16
    ensures { result ≡ spec.negated number }
{
    number.wrapping_neg()
}

/// A quotient of signed numbers, toward zero.
fn quotient(a: u16, b: u16) -> u16
    requires { b ≢ 0 }
    ensures { result ≡ spec.quotient a b }
{
    let whole = magnitude(a) / magnitude(b);
    if is_negative(a) == is_negative(b) {
        whole
    } else {
        negated(whole)
    }
}

/// Whether a word is below zero as a signed number.
fn is_negative(number: u16) -> bool
    ensures { result ≡ spec.is_negative number }
{
    number >= 0x8000
}

/// How far a signed number is from zero.
fn magnitude(number: u16) -> u16
    ensures value { result ≡ spec.magnitude number }
    ensures zero { result ≡ 0 → number ≡ 0 }
{
    if is_negative(number) {
        negated(number)
    } else {
        number
    }
}
