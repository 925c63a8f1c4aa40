//! First words and the lines that they are printed as, and a line that is no instruction. The other lines are in
//! `tests/rows`.

use asm_forms::{FormError, print_instr, size_of};
use asm_text::fields;
use std::alloc::Global;

/// The place of the words.
const HERE: u16 = 0x6000;

/// Whether a first word is printed with no more words than are there: up to three of them, and alone as one.
fn has_its_words(first: u16) -> bool {
    let (text, count) = print_instr(&[first, 0, 0], HERE);
    let (alone, one) = print_instr(&[first], HERE);
    matches!(count, 1..=3)
        && !text.is_empty()
        && one == 1
        && (count == 1) == (text.as_str() == alone.as_str())
}

#[test]
fn prints_every_first_word(rt: HostRuntime) {
    for first in 0..=u16::MAX {
        assert!(rt; has_its_words(first), "{first:04X}");
    }
}

/// Whether a directive has no size as an instruction.
fn refuses_a_directive(alloc: Global, line: &[u8]) -> bool {
    match fields(line) {
        Ok(found) if found.operation.is_some() => {
            size_of(alloc, line, &found) == Err(FormError::UnknownOperation)
        }
        _ => false,
    }
}

#[test]
fn a_directive_is_no_instruction(rt: HostRuntime) {
    assert!(rt; refuses_a_directive(rt.alloc(), b" DATA 1"));
}
