//! The parts of an instruction's text.

ghost use Rattle.std.specs.Prelude.{◌≡◌, ◌<◌, ◌≤◌, ◌+◌, ◌++◌};
ghost use Rattle.std.specs.Fmt.{decimal};
ghost use Rattle.arrayvec.specs.ArrayString.{array_string_len};
ghost use Rattle.instruction_defs.specs.Printed as spec;

use arrayvec::ArrayString;
use itoa::Buffer;

/// The text of an instruction.
pub(crate) type Text = ArrayString<64>;

/// Appends a number in decimal digits.
pub(crate) fn push_decimal(text: &mut Text, number: u8)
    requires { array_string_len text.old + 5 ≤ 64 }
    ensures text { text.new.bytes ≡ text.old.bytes ++ decimal number }
    ensures size { array_string_len text.new ≤ array_string_len text.old + 5 }
{
    text.push_str(Buffer::new().format(number));
}

/// Appends a signed number in decimal digits.
#[tactic(auto, using(std::proofs::Common::append_assoc))]
pub(crate) fn push_signed(text: &mut Text, number: i8)
    requires { array_string_len text.old + 6 ≤ 64 }
    ensures text { text.new.bytes ≡ text.old.bytes ++ spec.signed_text number }
    ensures size { array_string_len text.new ≤ array_string_len text.old + 6 }
{
    if number < 0 {
        text.push('-');
    }
    push_decimal(text, number.unsigned_abs());
}

/// Appends a register by its number.
#[tactic(auto, using(std::proofs::Common::append_assoc))]
pub(crate) fn push_register(text: &mut Text, number: u8)
    requires { array_string_len text.old + 6 ≤ 64 }
    ensures text { text.new.bytes ≡ text.old.bytes ++ spec.register_text number }
    ensures size { array_string_len text.new ≤ array_string_len text.old + 6 }
{
    text.push('R');
    push_decimal(text, number);
}
