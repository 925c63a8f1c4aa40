//! The lines that standard error gets of object text that is refused, and of modules that are not linked.

ghost use Rattle.std.specs.Prelude.{◌≡◌, ◌≤◌, ◌<◌, ◌+◌, ◌++◌, ◌∷◌, [], length, drop, codes};
ghost use Rattle.arrayvec.specs.ArrayVec.{array_vec_len};
ghost use Rattle.source_defs.specs.Digits.{hex_word};
ghost use Rattle.report_defs.specs.ObjectFaults as spec;
ghost use Rattle.memory_listing.specs.FaultLines.{IsFaultLine, line_of_link_error};

use asm_text::word_digits;
use link_loader::LinkError;
use object_defs::TagCause;
use report_lines::{Line, append, append_word, line_of, refusal_line};
use std::alloc::AllocError;

/// The line of a bad place in an object text, by the number of its line, from 1. It has room for a file's name before
/// it.
pub fn tag_line(number: u32, cause: TagCause) -> Line
    ensures line { result.items ≡ spec.tag_line (record { line = number; cause = cause }) }
    ensures short { array_vec_len result ≤ 128 }
{
    refusal_line(number, tag_cause_text(cause).as_slice())
}

/// The text of a bad place.
fn tag_cause_text(cause: TagCause) -> Line
    ensures text { result.items ≡ spec.tag_cause_text cause }
    ensures short { array_vec_len result ≤ 64 }
{
    match cause {
        TagCause::BadTag(_) => line_of(b"bad tag"),
        TagCause::BadDigit => line_of(b"bad digit"),
        TagCause::ShortField => line_of(b"short field"),
        TagCause::Checksum { found, computed } => checksum_text(found, computed),
        TagCause::NoEnd => line_of(b"no end"),
        TagCause::TooMany => line_of(b"too many"),
    }
}

/// The text of a wrong checksum.
#[tactic(auto, using(std::proofs::Common::append_assoc))]
fn checksum_text(found: u16, computed: u16) -> Line
    ensures text { result.items
        ≡ codes "checksum " ++ (hex_word found ++ (codes ", computed " ++ hex_word computed)) }
    ensures short { array_vec_len result ≤ 64 }
{
    let mut line = line_of(b"checksum ");
    append_word(&mut line, found);
    append(&mut line, b", computed ");
    append_word(&mut line, computed);
    line
}

/// The line of modules that are not linked.
///
/// # Errors
/// `AllocError` comes where the modules are not linked because memory ran out, which has no line.
pub fn link_line(error: &LinkError) -> Result<Line, AllocError>
    ensures { IsFaultLine result (line_of_link_error error.now) }
{
    Ok(match error {
        LinkError::DuplicateDef(name) => name_line(b"duplicate def ", name.as_bytes()),
        LinkError::OutOfMemoryRange(address) => address_line(*address),
        LinkError::Overlap(address) => word_line(b"overlap at ", *address),
        LinkError::ChainOutside(address) => word_line(b"chain outside ", *address),
        LinkError::ChainCycle(address) => word_line(b"chain cycle ", *address),
        LinkError::Unresolved(name) => name_line(b"unresolved ", name.as_bytes()),
        LinkError::NoEntry => line_of(b"no entry\n"),
        LinkError::Memory => return Err(AllocError),
    })
}

/// Words about a name.
#[tactic(auto, using(std::proofs::Common::append_assoc))]
fn name_line(words: &[u8], name: &[u8]) -> Line
    requires words { length words.now ≤ 32 }
    requires name { length name.now ≤ 6 }
    ensures { result.items ≡ spec.fault_text words.now name.now }
{
    let mut line = line_of(words);
    append(&mut line, name);
    line.push(b'\n');
    line
}

/// Words about an address of 16 bits.
#[tactic(auto, using(std::proofs::Common::append_assoc))]
fn word_line(words: &[u8], address: u16) -> Line
    requires { length words.now ≤ 32 }
    ensures { result.items ≡ spec.fault_text words.now (hex_word address) }
{
    let mut line = line_of(words);
    append_word(&mut line, address);
    line.push(b'\n');
    line
}

/// The text of an address where no word may be loaded. It may have more than four digits.
#[tactic(auto, using(std::proofs::Common::append_assoc))]
fn address_line(address: u32) -> Line
    ensures { result.items ≡ spec.fault_text (codes "outside memory ") (spec.marked_address address) }
{
    let mut line = line_of(b"outside memory ");
    let low = (address % 0x1_0000) as u16;
    let high = (address / 0x1_0000) as u16;
    if high == 0 {
        append_word(&mut line, low);
    } else {
        line.push(b'>');
        append(&mut line, &word_digits(high)[leading_zeros(high)..]);
        append(&mut line, &word_digits(low));
    }
    line.push(b'\n');
    line
}

/// How many zeros are in front of the four digits of a number that is not 0.
fn leading_zeros(number: u16) -> usize
    ensures count { result ≡ spec.leading_zeros number }
    ensures most { result < 4 }
{
    if number < 0x10 {
        3
    } else if number < 0x100 {
        2
    } else if number < 0x1000 {
        1
    } else {
        0
    }
}
