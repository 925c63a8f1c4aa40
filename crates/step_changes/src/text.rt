//! The text of a change.

ghost use Rattle.std.specs.Prelude.{◌≡◌, ◌≤◌, ◌<◌, ◌+◌, ◌++◌, length, codes};
ghost use Rattle.arrayvec.specs.ArrayVec.{array_vec_len};
ghost use Rattle.change_defs.specs.Text as spec;

use asm_text::byte_digits;
use change_defs::Part;
use report_lines::{Line, append, append_count, append_word};

/// The text of a change, of which the one before ended at a place.
#[tactic(auto, using(std::proofs::Common::append_assoc), unfolding(change_defs::specs::Text::change_text))]
pub(crate) fn change_text(part: Part, end: usize, at: usize, byte: u8, count: usize) -> Line
    requires at { at < spec.size_of part }
    requires count { count ≤ 16384 }
    ensures text { result.items ≡ spec.change_text (spec.place_text part) end (record { at = at; byte = byte; count = count }) }
    ensures size { array_vec_len result ≤ 16 }
{
    let mut line = Line::new();
    if at == end && end != 0 {
        line.push(b',');
    } else {
        append_place(&mut line, part, at);
    }
    append_repeated(&mut line, byte, count);
    line
}

/// Appends a blank, a place of a part and an equals sign.
#[tactic(auto, using(std::proofs::Common::append_assoc))]
fn append_place(line: &mut Line, part: Part, at: usize)
    requires at { at < spec.size_of part }
    requires room { array_vec_len line.old + 8 ≤ 192 }
    ensures bytes { line.new.items ≡ line.old.items ++ (codes " " ++ (spec.place_text part at ++ codes "=")) }
    ensures len { array_vec_len line.new ≤ array_vec_len line.old + 8 }
{
    line.push(b' ');
    match part {
        Part::Cells => append_word(line, 0x8300 + at as u16),
        Part::Video => {
            line.push(b'V');
            append_word(line, at as u16);
        }
        Part::Registers => {
            line.push(b'W');
            line.push(b'0' + at as u8);
        }
    }
    line.push(b'=');
}

/// Appends a byte, and at how many places it is.
#[tactic(auto, using(std::proofs::Common::append_assoc), unfolding(change_defs::specs::Text::repeated_text))]
pub fn append_repeated(line: &mut Line, byte: u8, count: usize)
    requires room { array_vec_len line.old + 43 ≤ 192 }
    requires count { count ≤ 24576 }
    ensures bytes { line.new.items ≡ line.old.items ++ spec.repeated_text byte count }
    ensures len { array_vec_len line.new ≤ array_vec_len line.old + 8 }
{
    append(line, &byte_digits(byte));
    if count != 1 {
        line.push(b'*');
        append_count(line, count as u64);
    }
}
