//! Shifts with their status bits.
ghost use Rattle.std.specs.Prelude.{◌≡◌, ◌≤◌, ◌<◌, ◌-◌, ◌/◌, ◌%◌, ◌^◌, ◌==◌, false};
ghost use Rattle.tms_defs.specs.Flags.{Word, result_flags};
ghost use Rattle.tms_defs.specs.Shifts.{shifted, shift_flags, shift_overflows, sign_changes, long_word};
ghost use Rattle.tms_defs.specs.declared.instruction.ShiftOp.TheVariants.{SLA};

use crate::words::result_flags16;
use tms_defs::{Out16, ShiftOp};

/// A word shifted by a count from 1 to 16. L>, A> and EQ are set by the result; C is the last bit that was shifted
/// out; OV is set where SLA changed the sign at any moment of the shift, and is false for the others.
/// TMS9900 data manual, "Shift instructions".
pub fn shift16(op: ShiftOp, value: u16, count: u8) -> Out16
    requires { (1 ≤ count) × (count ≤ 16) }
    ensures value { result.value ≡ shifted op value count }
    ensures flags { result.flags ≡ shift_flags op value count }
    // the sign bit changed at some moment of the shift
    ensures sign { op ≡ SLA → result.flags.ov ≡ sign_changes value count }
{
    let word = u32::from(value);
    match op {
        ShiftOp::SRA if value < 0x8000 => shift_right(word, count),
        ShiftOp::SRA => shift_right(0xFFFF_0000 + word, count),
        ShiftOp::SRL => shift_right(word, count),
        ShiftOp::SRC => shift_right((word << 16) + word, count),
        ShiftOp::SLA => shift_left(value, count),
    }
}

/// The low word of a long word that is shifted to the right.
fn shift_right(long: u32, count: u8) -> Out16
    requires { (1 ≤ count) × (count ≤ 16) }
    ensures value { result.value ≡ long / 2 ^ count % 65536 }
    ensures flags { result.flags
        ≡ result_flags Word (long / 2 ^ count % 65536) (long / 2 ^ (count - 1) % 2 == 1) false }
{
    let value = (long >> count & 0xFFFF) as u16;
    let last_out = long >> (count - 1) & 1 == 1;
    Out16 {
        value,
        flags: result_flags16(value, last_out, false),
    }
}

/// A word that is shifted to the left.
fn shift_left(value: u16, count: u8) -> Out16
    requires { (1 ≤ count) × (count ≤ 16) }
    ensures value { result.value ≡ shifted SLA value count }
    ensures flags { result.flags ≡ shift_flags SLA value count }
{
    let long = u32::from(value) << count;
    let shifted = (long & 0xFFFF) as u16;
    let last_out = long >> 16 & 1 == 1;
    Out16 {
        value: shifted,
        flags: result_flags16(shifted, last_out, left_overflows(value, count)),
    }
}

/// The signed word, doubled once for each place of a shift to the left, is no signed word.
fn left_overflows(value: u16, count: u8) -> bool
    requires { (1 ≤ count) × (count ≤ 16) }
    ensures { result ≡ shift_overflows SLA value count }
{
    let exact = i64::from(value.cast_signed()) * (1 << count);
    exact < -0x8000 || exact >= 0x8000
}
