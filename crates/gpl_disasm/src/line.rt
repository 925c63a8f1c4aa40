//! A line of the listing.
ghost use Rattle.std.specs.Prelude.{◌≡◌, ◌≤◌, ◌<◌, ◌+◌, ◌++◌, codes, length};
ghost use Rattle.source_defs.specs.Digits.{hex_byte};
ghost use Rattle.arrayvec.specs.ArrayString.{array_string_len};
ghost use Rattle.source_defs.specs.ListedLines.{listed};
ghost use Rattle.gpl_defs.specs.declared.instruction.GplRead.TheVariants.{Instr};
ghost use Rattle.gpl_defs.specs.Reading.{reading, IsReadAt};
ghost use Rattle.gpl_listing_defs.specs.Listing as spec;

use crate::text::{push_byte_text, push_instr};
use arrayvec::ArrayString;
use base_defs::GROM_SIZE;
use gpl_forms::{GplInstr, GplRead, read_instr, size_between, size_of};

/// A line, with room for its line feed.
pub(crate) type Line = ArrayString<80>;

/// The blanks in front of an operation.
pub(crate) const MARGIN: &str = "       ";

/// The line of the byte at the address `at` of 65,536 bytes, and the address after the bytes that it stands for. That
/// is an instruction where a whole one is there in its shortest spelling and ends in its GROM and at or before
/// the address `end`; where that is not so, it is BYTE with the byte. The line has no line feed.
pub fn list_line(image: &[u8], at: u16, end: u32) -> (ArrayString<80>, u32)
    requires size { length image.now ≡ 65536 }
    requires before { at < end }
    requires end { end ≤ 65536 }
    ensures text { result.0.bytes ≡ listed (spec.listed_at image.now at end).text }
    ensures next { result.1 ≡ at + (spec.listed_at image.now at end).size }
    ensures within { result.1 ≤ end }
    ensures some { at < result.1 }
    ensures room { array_string_len result.0 < 80 }
{
    let mut line = Line::new();
    line.push_str(MARGIN);
    let size = push_listed(&mut line, image, at, end);
    (line, u32::from(at) + size)
}

/// Appends what is listed at an address, and says how many bytes it stands for.
fn push_listed(line: &mut Line, image: &[u8], at: u16, end: u32) -> u32
    requires room { array_string_len line.old ≤ 7 }
    requires size { length image.now ≡ 65536 }
    requires before { at < end }
    requires end { end ≤ 65536 }
    ensures text { line.new.bytes ≡ line.old.bytes ++ (spec.listed_at image.now at end).text }
    ensures size { result ≡ (spec.listed_at image.now at end).size }
    ensures within { at + result ≤ end }
    ensures some { 0 < result }
    ensures room { array_string_len line.new < 80 }
{
    match read_instr(image, at) {
        GplRead::Instr { instr, next } => push_read(line, image, at, end, &instr, next),
        GplRead::Refused(code) => push_byte_line(line, code),
    }
}

/// Appends what is listed at an address where an instruction was read, which ends before the address `next`, and says
/// how many bytes it stands for. The instruction is in its shortest spelling where it was read from so few bytes.
fn push_read(line: &mut Line, image: &[u8], at: u16, end: u32, instr: &GplInstr, next: u16) -> u32
    requires room { array_string_len line.old ≤ 7 }
    requires size { length image.now ≡ 65536 }
    requires before { at < end }
    requires end { end ≤ 65536 }
    requires read { reading image.now at ≡ Instr instr.now next }
    requires means { IsReadAt image.now at (Instr instr.now next) }
    ensures text { line.new.bytes ≡ line.old.bytes ++ (spec.listed_at image.now at end).text }
    ensures size { result ≡ (spec.listed_at image.now at end).size }
    ensures within { at + result ≤ end }
    ensures some { 0 < result }
    ensures room { array_string_len line.new < 80 }
{
    let size = size_of(instr);
    if size == size_between(at, next) && u32::from(at) + size <= end.min(boundary(at)) {
        push_instr(line, instr, at);
        size
    } else {
        push_byte_line(line, image[usize::from(at)])
    }
}

/// The first address of the GROM after an address.
fn boundary(at: u16) -> u32
    ensures { result ≡ spec.boundary at }
{
    let size = u32::from(GROM_SIZE);
    u32::from(at) / size * size + size
}

/// Appends BYTE with a byte, and says that it stands for one.
fn push_byte_line(line: &mut Line, byte: u8) -> u32
    requires { array_string_len line.old ≤ 7 }
    ensures text { line.new.bytes ≡ line.old.bytes ++ (codes "BYTE " ++ hex_byte byte) }
    ensures size { array_string_len line.new ≤ array_string_len line.old + 8 }
    ensures one { result ≡ 1 }
{
    push_byte_text(line, byte);
    1
}
