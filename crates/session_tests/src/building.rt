//! The interpreter, built from its source.

use gpl_run::{BuildError, build_interp};
use link_loader::Linked;
use native_interp::{BEHIND, GBOOT, GSTEP, ORIGIN, interpreter_words};
use std::alloc::Global;
use std::test::Fail;

/// How many addresses there are.
const ADDRESSES: usize = 65536;

/// Addresses, and the word there: before the words, the first two, between two words, the last, and after it.
const WORDS: &[(u16, Option<u16>)] = &[
    (ORIGIN - 2, None),
    (ORIGIN, Some(GBOOT)),
    (ORIGIN + 1, None),
    (ORIGIN + 2, Some(GSTEP)),
    (BEHIND - 2, Some(GSTEP)),
    (BEHIND, None),
];

/// The word at an address, of words that come one after the other from >2000 up.
fn placed(words: &[u16], address: u16) -> Option<u16> {
    if address < ORIGIN || address % 2 != 0 {
        return None;
    }
    words.get(usize::from((address - ORIGIN) / 2)).copied()
}

/// Whether linked memory has these words from >2000 up and no others.
fn has_words(linked: &Linked, words: &[u16]) -> bool {
    for at in 0..ADDRESSES {
        let address = at as u16;
        if linked.word_at(address) != placed(words, address) {
            return false;
        }
    }
    true
}

/// Whether linked memory has these words at these addresses.
fn has_rows(linked: &Linked, rows: &[(u16, Option<u16>)]) -> bool {
    for &(address, word) in rows {
        if linked.word_at(address) != word {
            return false;
        }
    }
    true
}

/// Whether the interpreter is built, and has the words that are shipped and no others.
fn is_built(alloc: Global) -> Result<bool, BuildError> {
    let linked = build_interp(alloc)?;
    Ok(has_rows(&linked, WORDS) && has_words(&linked, interpreter_words()))
}

#[test]
fn the_interpreter_has_the_words_that_are_shipped(rt: HostRuntime) -> Result<(), Fail> {
    assert!(rt; is_built(rt.alloc()) == Ok(true));
    Ok(())
}
