//! The lines of a listing of memory.

ghost use Rattle.std.specs.Prelude.{◌≡◌, ◌<◌, ◌≤◌, ◌+◌, ◌*◌, ◌++◌, length, take, slice_index, codes};
ghost use Rattle.source_defs.specs.Digits.{hex_byte, hex_word};
ghost use Rattle.tms_defs.specs.Words.{words_of_bytes};
ghost use Rattle.instruction_defs.specs.Printed.{printed};
ghost use Rattle.bench_io.specs.Written.{Written};
ghost use Rattle.word_listings.specs.Listing as spec;

use asm_forms::print_instr;
use asm_text::byte_digits;
use bench_io::{Failed, Sink, put_chunk};
use report_lines::{Line, append, append_word};

/// The blanks in front of an operation.
const MARGIN: &[u8] = b"       ";

/// The line that says where the first byte stands.
#[tactic(auto, using(std::proofs::Common::append_assoc))]
pub(crate) fn origin_line(at: u16) -> Line
    ensures { result.items ≡ spec.listing_line (codes "AORG " ++ hex_word at) }
{
    let mut line = Line::new();
    append(&mut line, b"       AORG ");
    append_word(&mut line, at);
    line.push(b'\n');
    line
}

/// Writes the lines of the words that bytes hold, of which the first is at an address: each an instruction, or
/// DATA.
#[tactic(auto, using(bench_io::proofs::Writes::wrote_none))]
pub(crate) fn put_instructions<O: Sink>(at: u16, bytes: &[u8], out: &mut O) -> Result<(), Failed>
    requires { at + length bytes.now ≤ 65536 }
    ensures { Written result (O.state out.old) (O.state out.new) (spec.word_lines at (words_of_bytes bytes.now)) }
{
    let mut line = Line::new();
    let mut place = 0;
    while place + 1 < bytes.len() {
        let count = make_front_line(&mut line, &bytes[place..], at + place as u16);
        put_chunk(out, line.as_slice())?;
        place += 2 * usize::from(count);
    }
    Ok(())
}

/// Makes the line of the instruction at the front of some bytes, or of DATA with their first word, whatever the line
/// held; and says how many words it has.
fn make_front_line(line: &mut Line, bytes: &[u8], at: u16) -> u8
    requires { 1 < length bytes.now }
    ensures line { line.new.items ≡ spec.listing_line (printed (words_of_bytes bytes.now) at).text }
    ensures count { result ≡ (printed (words_of_bytes bytes.now) at).count }
{
    let words = [word_at(bytes, 0), word_at(bytes, 1), word_at(bytes, 2)];
    let (text, count) = print_instr(&words[..(bytes.len() / 2).min(3)], at);
    line.clear();
    append(line, MARGIN);
    append(line, text.as_bytes());
    line.push(b'\n');
    count
}

/// The word with a number, from 0, of the words that bytes hold; or 0 after them.
#[tactic(auto, using(crate::proofs::Listings::word_of, crate::proofs::Listings::no_word))]
fn word_at(bytes: &[u8], number: usize) -> u16
    requires { number ≤ 2 }
    ensures { result ≡ slice_index (words_of_bytes bytes.now) number }
{
    if 2 * number + 1 >= bytes.len() {
        return 0;
    }
    u16::from_be_bytes([bytes[2 * number], bytes[2 * number + 1]])
}

/// Writes the line of the last byte where it is an odd one.
pub(crate) fn put_odd_byte<O: Sink>(bytes: &[u8], out: &mut O) -> Result<(), Failed>
    ensures { Written result (O.state out.old) (O.state out.new) (spec.odd_byte_lines bytes.now) }
{
    if bytes.len() % 2 == 0 {
        return Ok(());
    }
    put_chunk(out, byte_line(bytes[bytes.len() - 1]).as_slice())
}

/// The line of a byte that is no word.
#[tactic(auto, using(std::proofs::Common::append_assoc))]
fn byte_line(byte: u8) -> Line
    ensures { result.items ≡ spec.listing_line (codes "BYTE " ++ hex_byte byte) }
{
    let mut line = Line::new();
    append(&mut line, b"       BYTE >");
    append(&mut line, &byte_digits(byte));
    line.push(b'\n');
    line
}
