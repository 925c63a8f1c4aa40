//! A line of a report, as it grows.

ghost use Rattle.std.specs.Prelude.{◌≡◌, ◌≤◌, ◌<◌, ◌+◌, ◌-◌, ◌*◌, ◌∷◌, ◌++◌, length, replicate};
ghost use Rattle.std.specs.Fmt.{decimal};
ghost use Rattle.arrayvec.specs.ArrayVec.{array_vec_len};
ghost use Rattle.source_defs.specs.Digits.{byte_digits, hex_word, right_in};
ghost use Rattle.report_defs.specs.Rows.{spaced_bytes};

use arrayvec::ArrayVec;
use asm_text::{byte_digits, word_digits};
use itoa::Buffer;

/// A line of up to 192 bytes, its line feed included. It has room for the names of two files.
pub type Line = ArrayVec<u8, 192>;

/// The most blanks before a number.
const BLANKS: &[u8] = b"          ";

/// A line of these bytes.
pub fn line_of(bytes: &[u8]) -> Line
    requires { length bytes.now ≤ 192 }
    ensures bytes { result.items ≡ bytes.now }
    ensures len { array_vec_len result ≡ length bytes.now }
{
    let mut line = Line::new();
    append(&mut line, bytes);
    line
}

/// Appends bytes.
pub fn append(line: &mut Line, bytes: &[u8])
    requires { array_vec_len line.old + length bytes.now ≤ 192 }
    ensures bytes { line.new.items ≡ line.old.items ++ bytes.now }
    ensures len { array_vec_len line.new ≡ array_vec_len line.old + length bytes.now }
{
    line.try_extend_from_slice(bytes).unwrap();
}

/// Appends a word by `>` and its four hexadecimal digits.
#[tactic(auto, using(std::proofs::Common::append_assoc))]
pub fn append_word(line: &mut Line, word: u16)
    requires { array_vec_len line.old + 5 ≤ 192 }
    ensures bytes { line.new.items ≡ line.old.items ++ hex_word word }
    ensures len { array_vec_len line.new ≡ array_vec_len line.old + 5 }
{
    line.push(b'>');
    append(line, &word_digits(word));
}

/// Appends a number in decimal digits, of which there are 20 at most.
#[tactic(auto, using(crate::proofs::Decimals::twenty_digits))]
pub fn append_count(line: &mut Line, count: u64)
    requires { array_vec_len line.old + 20 ≤ 192 }
    ensures bytes { line.new.items ≡ line.old.items ++ decimal count }
    ensures len { array_vec_len line.new ≤ array_vec_len line.old + 20 }
{
    append(line, Buffer::new().format(count).as_bytes());
}

/// Appends a number right in up to ten columns, which are as many as it has digits at most.
#[tactic(auto, using(crate::proofs::Decimals::ten_digits))]
pub fn append_right(line: &mut Line, columns: usize, number: u32)
    requires columns { columns ≤ 10 }
    requires room { array_vec_len line.old + 10 ≤ 192 }
    ensures bytes { line.new.items ≡ line.old.items ++ right_in columns number }
    ensures len { array_vec_len line.new ≤ array_vec_len line.old + 10 }
{
    let mut buffer = Buffer::new();
    let digits = buffer.format(number).as_bytes();
    append(line, blanks(columns.saturating_sub(digits.len())));
    append(line, digits);
}

/// Up to ten blanks.
fn blanks(count: usize) -> &'static [u8]
    requires { count ≤ 10 }
    ensures blanks { result.now ≡ replicate count 0x20 }
    ensures len { length result.now ≡ count }
{
    &BLANKS[..count]
}

/// Appends bytes, each after a blank by its two hexadecimal digits.
pub fn append_spaced(line: &mut Line, bytes: &[u8])
    requires { array_vec_len line.old + 3 * length bytes.now ≤ 192 }
    ensures bytes { line.new.items ≡ line.old.items ++ spaced_bytes bytes.now }
    ensures len { array_vec_len line.new ≡ array_vec_len line.old + 3 * length bytes.now }
{
    for &byte in bytes {
        append_spaced_byte(line, byte);
    }
}

/// Appends a byte after a blank.
#[tactic(auto, using(std::proofs::Common::append_assoc))]
fn append_spaced_byte(line: &mut Line, byte: u8)
    requires { array_vec_len line.old + 3 ≤ 192 }
    ensures bytes { line.new.items ≡ line.old.items ++ (0x20 ∷ byte_digits byte) }
    ensures len { array_vec_len line.new ≡ array_vec_len line.old + 3 }
{
    line.push(b' ');
    append(line, &byte_digits(byte));
}
