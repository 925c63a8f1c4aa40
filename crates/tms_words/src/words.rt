//! Sums, differences, negatives, absolute values and comparisons of words, with their status bits.
ghost use Rattle.std.specs.Prelude.{◌≡◌};
ghost use Rattle.tms_defs.specs.Flags.{Word, result_flags, sum_of, sum_flags, sum_overflows, sum_has_wrong_sign};
ghost use Rattle.tms_defs.specs.Flags.{difference_has_wrong_sign, difference_of, difference_flags};
ghost use Rattle.tms_defs.specs.Flags.{difference_overflows, negation_of, negation_flags, absolute_of};
ghost use Rattle.tms_defs.specs.Flags.{absolute_flags, by_order, no_flags};

use tms_defs::{Flags, Out16};

/// The sum of two words. L>, A> and EQ are set by the sum; C where it leaves the width; OV where the sum of the
/// signed numbers does. TMS9900 data manual, "Add words".
#[tactic(auto, using(tms_defs::proofs::OverflowLaws::sum_overflows_by_signs))]
pub fn add16(d: u16, s: u16) -> Out16
    ensures value { result.value ≡ sum_of Word d s }
    ensures flags { result.flags ≡ sum_flags Word d s }
    // the operands have one sign, and the sum has the other
    ensures sign { result.flags.ov ≡ sum_has_wrong_sign Word d s }
{
    let (value, carry) = d.overflowing_add(s);
    Out16 {
        value,
        flags: result_flags16(value, carry, sum_overflows16(d, s)),
    }
}

/// The difference `d - s` of two words. L>, A> and EQ are set by the difference; C where there is no borrow; OV where
/// the difference of the signed numbers leaves the width. TMS9900 data manual, "Subtract words".
#[tactic(auto, using(tms_defs::proofs::OverflowLaws::difference_overflows_by_signs))]
pub fn sub16(d: u16, s: u16) -> Out16
    ensures value { result.value ≡ difference_of Word d s }
    ensures flags { result.flags ≡ difference_flags Word d s }
    // the operands have different signs, and the difference has not the first's
    ensures sign { result.flags.ov ≡ difference_has_wrong_sign Word d s }
{
    let value = d.wrapping_sub(s);
    Out16 {
        value,
        flags: result_flags16(value, d >= s, difference_overflows16(d, s)),
    }
}

/// The negative of a word. L>, A> and EQ are set by the negative; OV for >8000, which stays as it is (TMS9900 data
/// manual, "Negate"). Profile: C is set for 0 alone.
pub fn neg16(x: u16) -> Out16
    ensures value { result.value ≡ negation_of Word x }
    ensures flags { result.flags ≡ negation_flags Word x }
{
    let value = x.wrapping_neg();
    Out16 {
        value,
        flags: result_flags16(value, x == 0, x == 0x8000),
    }
}

/// The absolute value of a word. L>, A> and EQ are set by the word as it was; OV for >8000, which stays as it is
/// (TMS9900 data manual, "Absolute value"). Profile: C is false.
pub fn abs16(x: u16) -> Out16
    ensures value { result.value ≡ absolute_of Word x }
    ensures flags { result.flags ≡ absolute_flags Word x }
{
    Out16 {
        value: magnitude16(x),
        flags: result_flags16(x, false, x == 0x8000),
    }
}

/// L>, A> and EQ of `a` against `b`, as words; C and OV are false.
/// TMS9900 data manual, "Compare words".
pub fn compare16(a: u16, b: u16) -> Flags
    ensures { result ≡ by_order Word a b no_flags }
{
    Flags {
        lgt: a > b,
        agt: a.cast_signed() > b.cast_signed(),
        eq: a == b,
        c: false,
        ov: false,
    }
}

/// L>, A> and EQ by a word against 0, with the given C and OV.
pub(crate) fn result_flags16(number: u16, c: bool, ov: bool) -> Flags
    ensures { result ≡ result_flags Word number c ov }
{
    Flags {
        lgt: number > 0,
        agt: number.cast_signed() > 0,
        eq: number == 0,
        c,
        ov,
    }
}

/// The sum of two signed words is no signed word.
fn sum_overflows16(d: u16, s: u16) -> bool
    ensures { result ≡ sum_overflows Word d s }
{
    d.cast_signed().overflowing_add(s.cast_signed()).1
}

/// The difference of two signed words is no signed word.
fn difference_overflows16(d: u16, s: u16) -> bool
    ensures { result ≡ difference_overflows Word d s }
{
    d.cast_signed().overflowing_sub(s.cast_signed()).1
}

/// The absolute value of a signed word.
fn magnitude16(x: u16) -> u16
    ensures { result ≡ absolute_of Word x }
{
    x.cast_signed().unsigned_abs()
}
