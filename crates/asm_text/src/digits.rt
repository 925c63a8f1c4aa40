//! Bytes and words as hexadecimal digits.

ghost use Rattle.std.specs.Prelude.{◌≡◌, ◌<◌, ◌≤◌, ◌+◌, ◌++◌};
ghost use Rattle.arrayvec.specs.ArrayString.{array_string_len};
ghost use Rattle.source_defs.specs.Digits as spec;
ghost use Rattle.source_defs.specs.Digits.{hex_word, hex_byte};
ghost use Rattle.source_defs.specs.Numbers.{hexadecimal_digit};

use arrayvec::ArrayString;

/// The hexadecimal digits, in upper case.
const DIGITS: &[u8; 16] = b"0123456789ABCDEF";

/// The two hexadecimal digits of a byte, in upper case.
#[tactic(auto, unfolding(source_defs::specs::Digits::byte_digits))]
pub fn byte_digits(byte: u8) -> [u8; 2]
    ensures { result ≡ spec.byte_digits byte }
{
    [
        hexadecimal_digit(byte / 16 % 16),
        hexadecimal_digit(byte % 16),
    ]
}

/// The four hexadecimal digits of a word, in upper case.
#[tactic(auto, unfolding(source_defs::specs::Digits::word_digits))]
pub fn word_digits(word: u16) -> [u8; 4]
    ensures { result ≡ spec.word_digits word }
{
    [
        hexadecimal_digit((word / 4096 % 16) as u8),
        hexadecimal_digit((word / 256 % 16) as u8),
        hexadecimal_digit((word / 16 % 16) as u8),
        hexadecimal_digit((word % 16) as u8),
    ]
}

/// The hexadecimal digit of a value below 16.
fn hexadecimal_digit(value: u8) -> u8
    requires { value < 16 }
    ensures { result ≡ hexadecimal_digit value }
{
    DIGITS[usize::from(value)]
}

/// Appends a word by `>` and its four hexadecimal digits.
#[tactic(auto, using(std::proofs::Common::append_assoc), unfolding(source_defs::specs::Digits::word_digits))]
pub fn push_word<const N: usize>(text: &mut ArrayString<N>, word: u16)
    requires { array_string_len text.old + 5 ≤ N }
    ensures text { text.new.bytes ≡ text.old.bytes ++ hex_word word }
    ensures size { array_string_len text.new ≡ array_string_len text.old + 5 }
{
    let [first, second, third, fourth] = word_digits(word);
    text.push('>');
    text.push(char::from(first));
    text.push(char::from(second));
    text.push(char::from(third));
    text.push(char::from(fourth));
}

/// Appends a byte by `>` and its two hexadecimal digits.
#[tactic(auto, using(std::proofs::Common::append_assoc), unfolding(source_defs::specs::Digits::byte_digits))]
pub fn push_byte<const N: usize>(text: &mut ArrayString<N>, byte: u8)
    requires { array_string_len text.old + 3 ≤ N }
    ensures text { text.new.bytes ≡ text.old.bytes ++ hex_byte byte }
    ensures size { array_string_len text.new ≡ array_string_len text.old + 3 }
{
    let [first, second] = byte_digits(byte);
    text.push('>');
    text.push(char::from(first));
    text.push(char::from(second));
}
