//! Sums, differences, negatives, absolute values, comparisons and the parity of bytes, with their status bits.
ghost use Rattle.std.specs.Prelude.{◌≡◌};
ghost use Rattle.tms_defs.specs.Flags.{Byte, result_flags, sum_of, sum_flags, sum_overflows, sum_has_wrong_sign};
ghost use Rattle.tms_defs.specs.Flags.{difference_has_wrong_sign, difference_of, difference_flags};
ghost use Rattle.tms_defs.specs.Flags.{difference_overflows, negation_of, negation_flags, absolute_of};
ghost use Rattle.tms_defs.specs.Flags.{absolute_flags, by_order, no_flags, has_odd_parity};

use tms_defs::{Flags, Out8};

/// The sum of two bytes; its status bits are the bits of `add16` at the width of a byte.
/// TMS9900 data manual, "Add bytes".
#[tactic(auto, using(tms_defs::proofs::OverflowLaws::sum_overflows_by_signs))]
pub fn add8(d: u8, s: u8) -> Out8
    ensures value { result.value ≡ sum_of Byte d s }
    ensures flags { result.flags ≡ sum_flags Byte d s }
    // the operands have one sign, and the sum has the other
    ensures sign { result.flags.ov ≡ sum_has_wrong_sign Byte d s }
{
    let (value, carry) = d.overflowing_add(s);
    Out8 {
        value,
        flags: result_flags8(value, carry, sum_overflows8(d, s)),
    }
}

/// The difference `d - s` of two bytes; its status bits are the bits of `sub16` at the width of a byte.
/// TMS9900 data manual, "Subtract bytes".
#[tactic(auto, using(tms_defs::proofs::OverflowLaws::difference_overflows_by_signs))]
pub fn sub8(d: u8, s: u8) -> Out8
    ensures value { result.value ≡ difference_of Byte d s }
    ensures flags { result.flags ≡ difference_flags Byte d s }
    // the operands have different signs, and the difference has not the first's
    ensures sign { result.flags.ov ≡ difference_has_wrong_sign Byte d s }
{
    let value = d.wrapping_sub(s);
    Out8 {
        value,
        flags: result_flags8(value, d >= s, difference_overflows8(d, s)),
    }
}

/// The negative of a byte; its status bits are the bits of `neg16` at the width of a byte.
/// TMS9900 data manual, "Negate".
pub fn neg8(x: u8) -> Out8
    ensures value { result.value ≡ negation_of Byte x }
    ensures flags { result.flags ≡ negation_flags Byte x }
{
    let value = x.wrapping_neg();
    Out8 {
        value,
        flags: result_flags8(value, x == 0, x == 0x80),
    }
}

/// The absolute value of a byte; its status bits are the bits of `abs16` at the width of a byte.
/// TMS9900 data manual, "Absolute value".
pub fn abs8(x: u8) -> Out8
    ensures value { result.value ≡ absolute_of Byte x }
    ensures flags { result.flags ≡ absolute_flags Byte x }
{
    Out8 {
        value: magnitude8(x),
        flags: result_flags8(x, false, x == 0x80),
    }
}

/// L>, A> and EQ of `a` against `b`, as bytes; C and OV are false.
/// TMS9900 data manual, "Compare bytes".
pub fn compare8(a: u8, b: u8) -> Flags
    ensures { result ≡ by_order Byte a b no_flags }
{
    Flags {
        lgt: a > b,
        agt: a.cast_signed() > b.cast_signed(),
        eq: a == b,
        c: false,
        ov: false,
    }
}

/// The number of ones of a byte is odd. TMS9900 data manual, "Status register".
pub fn odd8(x: u8) -> bool
    ensures { result ≡ has_odd_parity x }
{
    x.count_ones() % 2 == 1
}

/// L>, A> and EQ by a byte against 0, with the given C and OV.
fn result_flags8(number: u8, c: bool, ov: bool) -> Flags
    ensures { result ≡ result_flags Byte number c ov }
{
    Flags {
        lgt: number > 0,
        agt: number.cast_signed() > 0,
        eq: number == 0,
        c,
        ov,
    }
}

/// The sum of two signed bytes is no signed byte.
fn sum_overflows8(d: u8, s: u8) -> bool
    ensures { result ≡ sum_overflows Byte d s }
{
    d.cast_signed().overflowing_add(s.cast_signed()).1
}

/// The difference of two signed bytes is no signed byte.
fn difference_overflows8(d: u8, s: u8) -> bool
    ensures { result ≡ difference_overflows Byte d s }
{
    d.cast_signed().overflowing_sub(s.cast_signed()).1
}

/// The absolute value of a signed byte.
fn magnitude8(x: u8) -> u8
    ensures { result ≡ absolute_of Byte x }
{
    x.cast_signed().unsigned_abs()
}
