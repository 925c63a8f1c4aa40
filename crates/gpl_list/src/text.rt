//! The lines of a listing.

ghost use Rattle.std.specs.Prelude.{◌≡◌, ◌≤◌, ◌+◌, ◌%◌, ◌++◌, length, take, drop};
ghost use Rattle.source_defs.specs.Digits.{hex_word};
ghost use Rattle.arrayvec.specs.ArrayVec.{array_vec_len};
ghost use Rattle.gpl_list_defs.specs.Text as spec;
ghost use Rattle.gpl_list.specs.Reading.{model_of_name, model_of_row};

use crate::rows::{NameRow, Row};
use arrayvec::ArrayVec;
use report_lines::{Line, append, append_right, append_spaced, append_word};

/// How many bytes are in a row.
const ROW_BYTES: usize = 8;

/// In how many columns the number of a line stands.
const NUMBER_COLUMNS: usize = 7;

/// The blanks of a row without bytes.
const BYTE_BLANKS: &[u8] = b"                        ";

/// The line of a row, with room for the longest text.
pub(crate) type RowLine = ArrayVec<u8, 352>;

/// The first line of a row: its number, its address, its first bytes and its text.
#[tactic(auto, using(std::proofs::Common::append_assoc), unfolding(gpl_list_defs::specs::Text::line_text))]
pub(crate) fn line_text(row: &Row) -> RowLine
    ensures { result.items ≡ spec.line_text (model_of_row row.now) }
{
    let front = line_front(row);
    let mut line = RowLine::new();
    line.try_extend_from_slice(front.as_slice()).unwrap();
    line.try_extend_from_slice(row.text.as_slice()).unwrap();
    line.push(b'\n');
    line
}

/// What is before the text.
#[tactic(auto, using(std::proofs::Common::append_assoc), unfolding(gpl_list_defs::specs::Text::line_front))]
fn line_front(row: &Row) -> Line
    ensures text { result.items ≡ spec.line_front (model_of_row row.now) }
    ensures len { array_vec_len result ≤ 80 }
{
    let mut line = Line::new();
    append_right(&mut line, NUMBER_COLUMNS, row.number);
    line.push(b' ');
    append_word(&mut line, address(row.address));
    append_bytes(&mut line, first_bytes(row.bytes.as_slice()));
    line.push(b' ');
    line
}

/// An address as a word, which is 0 after the last of all.
#[tactic(auto, using(crate::proofs::Further::word_by))]
pub(crate) fn address(number: u32) -> u16
    ensures value { result ≡ number % 65536 }
    ensures shown { hex_word result ≡ hex_word number }
{
    (number % 0x10000) as u16
}

/// The bytes of the first row.
#[tactic(auto, using(crate::proofs::Further::take_short))]
pub(crate) fn first_bytes(bytes: &[u8]) -> &[u8]
    ensures bytes { result.now ≡ take 8 bytes.now }
    ensures few { length result.now ≤ 8 }
{
    if bytes.len() > ROW_BYTES {
        return &bytes[..ROW_BYTES];
    }
    bytes
}

/// The bytes after the first row.
#[tactic(auto, using(crate::proofs::Further::drop_short))]
pub(crate) fn further_bytes(bytes: &[u8]) -> &[u8]
    ensures { result.now ≡ drop 8 bytes.now }
{
    if bytes.len() > ROW_BYTES {
        return &bytes[ROW_BYTES..];
    }
    &[]
}

/// Appends up to eight bytes, and blanks for those that are fewer.
#[tactic(auto, using(std::proofs::Common::append_assoc), unfolding(gpl_list_defs::specs::Text::bytes_text))]
fn append_bytes(line: &mut Line, bytes: &[u8])
    requires room { array_vec_len line.old + 24 ≤ 192 }
    requires few { length bytes.now ≤ 8 }
    ensures text { line.new.items ≡ line.old.items ++ spec.bytes_text bytes.now }
    ensures len { array_vec_len line.new ≡ array_vec_len line.old + 24 }
{
    append_spaced(line, bytes);
    append(line, &BYTE_BLANKS[3 * bytes.len()..]);
}

/// A row of further bytes, of which the first is at an address.
#[tactic(auto, using(std::proofs::Common::append_assoc), unfolding(gpl_list_defs::specs::Text::further_line))]
pub(crate) fn further_line(at: u16, bytes: &[u8]) -> Line
    requires { length bytes.now ≤ 8 }
    ensures { result.items ≡ spec.further_line at bytes.now }
{
    let mut line = Line::new();
    append(&mut line, b"        ");
    append_word(&mut line, at);
    append_spaced(&mut line, bytes);
    line.push(b'\n');
    line
}

/// The line of a name.
#[tactic(auto, using(std::proofs::Common::append_assoc), unfolding(gpl_list_defs::specs::Text::name_line))]
pub(crate) fn name_line(row: &NameRow) -> Line
    ensures { result.items ≡ spec.name_line (model_of_name row.now) }
{
    let mut line = Line::new();
    append(&mut line, b"name ");
    append_word(&mut line, row.value);
    line.push(b' ');
    append_right(&mut line, NUMBER_COLUMNS, row.line);
    line.push(b' ');
    append(&mut line, row.name.as_bytes());
    line.push(b'\n');
    line
}
