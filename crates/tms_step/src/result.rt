//! Results and their status bits, of words and of bytes.

ghost use Rattle.std.specs.Prelude.{◌≡◌, ◌<◌};
ghost use Rattle.tms_defs.specs.Flags.{modulus, byte_or_word, by_result, sum_of, sum_flags, difference_of};
ghost use Rattle.tms_defs.specs.Flags.{difference_flags, by_order, no_flags};
ghost use Rattle.tms_defs.specs.Logic.{ones_set, ones_cleared};

use tms_defs::{Flags, Out8, Out16};
use tms_words::{add8, add16, compare8, compare16, sub8, sub16};

/// L>, A> and EQ by a result, and the other status bits as they are (TMS9900 data manual, "Status register").
#[inline(always)]
#[tactic(auto, using(crate::proofs::Results::signed_above))]
pub(crate) fn result_flags(byte: bool, value: u16, flags: Flags) -> Flags
    requires { value < modulus (byte_or_word byte) }
    ensures { result ≡ by_result (byte_or_word byte) value flags }
{
    let half = if byte { 0x80 } else { 0x8000 };
    Flags {
        lgt: value > 0,
        agt: value > 0 && value < half,
        eq: value == 0,
        ..flags
    }
}

/// The sum of two words or of two bytes, with its status bits (TMS9900 data manual, "Add words", "Add bytes").
#[inline(always)]
pub(crate) fn sum(byte: bool, destination: u16, source: u16) -> Out16
    requires destination { destination < modulus (byte_or_word byte) }
    requires source { source < modulus (byte_or_word byte) }
    ensures value { result.value ≡ sum_of (byte_or_word byte) destination source }
    ensures flags { result.flags ≡ sum_flags (byte_or_word byte) destination source }
{
    if byte {
        widened(add8(destination as u8, source as u8))
    } else {
        add16(destination, source)
    }
}

/// The difference of two words or of two bytes, with its status bits (TMS9900 data manual, "Subtract words", "Subtract
/// bytes").
#[inline(always)]
pub(crate) fn difference(byte: bool, destination: u16, source: u16) -> Out16
    requires destination { destination < modulus (byte_or_word byte) }
    requires source { source < modulus (byte_or_word byte) }
    ensures value { result.value ≡ difference_of (byte_or_word byte) destination source }
    ensures flags { result.flags ≡ difference_flags (byte_or_word byte) destination source }
{
    if byte {
        widened(sub8(destination as u8, source as u8))
    } else {
        sub16(destination, source)
    }
}

/// The ones of the source are set in the destination (TMS9900 data manual, "Set ones corresponding", "Set ones
/// corresponding bytes").
#[inline]
#[tactic(auto, using(crate::proofs::Results::ones_fit))]
pub(crate) fn ones_set(byte: bool, destination: u16, source: u16) -> u16
    requires destination { destination < modulus (byte_or_word byte) }
    requires source { source < modulus (byte_or_word byte) }
    ensures value { result ≡ ones_set destination source }
    ensures fits { result < modulus (byte_or_word byte) }
{
    destination | source
}

/// The ones of the source are cleared in the destination (TMS9900 data manual, "Set zeros corresponding", "Set zeros
/// corresponding bytes").
#[inline]
#[tactic(auto, using(crate::proofs::Results::ones_left, crate::proofs::Results::ones_left_fit))]
pub(crate) fn ones_cleared(byte: bool, destination: u16, source: u16) -> u16
    requires destination { destination < modulus (byte_or_word byte) }
    requires source { source < modulus (byte_or_word byte) }
    ensures value { result ≡ ones_cleared (byte_or_word byte) destination source }
    ensures fits { result < modulus (byte_or_word byte) }
{
    destination & !source
}

/// The result of an operation on bytes, as a number of the width of a word.
#[inline]
fn widened(out: Out8) -> Out16
    ensures value { result.value ≡ out.value }
    ensures flags { result.flags ≡ out.flags }
{
    Out16 {
        value: u16::from(out.value),
        flags: out.flags,
    }
}

/// L>, A> and EQ of a first number against a second; C and OV are false.
#[inline(always)]
pub(crate) fn order(byte: bool, first: u16, second: u16) -> Flags
    requires first { first < modulus (byte_or_word byte) }
    requires second { second < modulus (byte_or_word byte) }
    ensures { result ≡ by_order (byte_or_word byte) first second no_flags }
{
    if byte {
        compare8(first as u8, second as u8)
    } else {
        compare16(first, second)
    }
}
