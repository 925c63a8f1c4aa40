//! The operands of a line, held against their ranges.

ghost use Rattle.std.specs.Prelude.{◌≡◌, ◌<◌, ◌+◌, IfOk};
ghost use Rattle.asm_text.specs.GivenValues.{model_of_value};
ghost use Rattle.instruction_defs.specs.SecondChecks as spec;
ghost use Rattle.asm_forms.specs.UpToTwo.{items_of};
ghost use Rattle.asm_forms.specs.Values.{model_of_operand, ready_answer, readies_answer, IsReady, AllReady};

use crate::up_to_two::UpToTwo;
use crate::values::Operand;
use asm_text::Value;
use instruction_defs::FormError;
use tms_defs::Place;

/// An operand whose values are in their ranges.
#[derive(Clone, Copy)]
pub(crate) enum EncodedOperand {
    /// A place without a word that follows.
    Located(Place),
    /// A place with the word that follows, its address.
    Addressed(Place, Value),
    /// A register or a count.
    Counted(u8),
    /// The displacement of a jump or of a bit.
    Displaced(i8),
    /// A word that follows.
    Followed(Value),
}

/// The operands of a line at a place, held against their ranges.
pub(crate) fn all_ranged(
    here: &Value,
    operands: UpToTwo<Operand>,
) -> Result<UpToTwo<EncodedOperand>, FormError>
    ensures value { readies_answer result
        ≡ spec.all_ranged (model_of_value here.now) (items_of model_of_operand operands) }
    ensures ready { IfOk result AllReady }
{
    match operands {
        UpToTwo::None => Ok(UpToTwo::None),
        UpToTwo::One(operand) => {
            let ready = ranged(here, operand)?;
            Ok(UpToTwo::One(ready))
        }
        UpToTwo::Two(first, second) => {
            let ready = ranged(here, first)?;
            let next = ranged(here, second)?;
            Ok(UpToTwo::Two(ready, next))
        }
    }
}

/// An operand of a line at a place, held against its range.
#[inline(always)]
fn ranged(here: &Value, operand: Operand) -> Result<EncodedOperand, FormError>
    ensures value { ready_answer result ≡ spec.ranged (model_of_value here.now) (model_of_operand operand) }
    ensures ready { IfOk result IsReady }
{
    match operand {
        Operand::InRegister(number) => by_register(0, number),
        Operand::ByRegister(number) => by_register(1, number),
        Operand::AutoIncrement(number) => by_register(3, number),
        Operand::AtAddress(value) => Ok(EncodedOperand::Addressed(
            Place { mode: 2, reg: 0 },
            value,
        )),
        Operand::AtIndexed(value, number) => indexed(value, number),
        Operand::Number(number) => {
            let count = below_sixteen(number)?;
            Ok(EncodedOperand::Counted(count))
        }
        Operand::Bit(number) => bit(number),
        Operand::To(target) => jump(place_number(here), target),
        Operand::Following(value) => Ok(EncodedOperand::Followed(value)),
    }
}

fn by_register(mode: u8, number: u16) -> Result<EncodedOperand, FormError>
    requires { mode < 4 }
    ensures value { ready_answer result ≡ spec.by_register mode number }
    ensures ready { IfOk result IsReady }
{
    let reg = below_sixteen(number)?;
    Ok(EncodedOperand::Located(Place { mode, reg }))
}

fn below_sixteen(number: u16) -> Result<u8, FormError>
    ensures value { result ≡ spec.below_sixteen number }
    ensures ready { IfOk result (λ count. count < 16) }
{
    if number < 16 {
        Ok(number as u8)
    } else {
        Err(FormError::BadOperand)
    }
}

/// An address with an index register, which is not register 0.
fn indexed(value: Value, number: u16) -> Result<EncodedOperand, FormError>
    ensures value { ready_answer result ≡ spec.indexed (model_of_value value) number }
    ensures ready { IfOk result IsReady }
{
    if 0 < number && number < 16 {
        let reg = number as u8;
        Ok(EncodedOperand::Addressed(Place { mode: 2, reg }, value))
    } else {
        Err(FormError::BadOperand)
    }
}

/// The displacement of a bit, a signed byte.
fn bit(number: u16) -> Result<EncodedOperand, FormError>
    ensures value { ready_answer result ≡ spec.bit number }
    ensures ready { IfOk result IsReady }
{
    let disp = number.cast_signed();
    if -128 <= disp && disp < 128 {
        Ok(EncodedOperand::Displaced(disp as i8))
    } else {
        Err(FormError::BadOperand)
    }
}

/// The displacement of a jump from a line at a place.
fn jump(here: u16, target: u16) -> Result<EncodedOperand, FormError>
    ensures value { ready_answer result ≡ spec.displaced (spec.displacement_to (here + 2) target) }
    ensures ready { IfOk result IsReady }
{
    match displacement_to(u32::from(here) + 2, u32::from(target)) {
        Some(disp) => Ok(EncodedOperand::Displaced(disp)),
        None => Err(FormError::JumpTooFar),
    }
}

/// How many words stand from the next instruction to a target, which may be before it.
fn displacement_to(next: u32, target: u32) -> Option<i8>
    ensures { result ≡ spec.displacement_to next target }
{
    if next <= target {
        forward(target - next)
    } else {
        backward(next - target)
    }
}

fn forward(bytes: u32) -> Option<i8>
    ensures { result ≡ spec.forward bytes }
{
    if bytes % 2 == 0 && bytes <= 254 {
        Some((bytes / 2) as i8)
    } else {
        None
    }
}

fn backward(bytes: u32) -> Option<i8>
    ensures { result ≡ spec.backward bytes }
{
    if bytes % 2 == 0 && bytes <= 256 {
        Some(-((bytes / 2) as i16) as i8)
    } else {
        None
    }
}

/// The number of a value that is no external name, without its kind.
fn place_number(value: &Value) -> u16
    ensures { result ≡ spec.place_number (model_of_value value.now) }
{
    match value {
        Value::Absolute(number) | Value::Relocatable(number) => *number,
        Value::External(_) => 0,
    }
}
