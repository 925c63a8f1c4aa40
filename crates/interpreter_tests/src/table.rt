//! The table of the source's lines and names, beside the words that are shipped.

use line_table::{name_count, name_row, row, row_count};
use native_interp::{BEHIND, GBOOT, GEXIT, GOBACK, ORIGIN, interpreter_words};
use std::test::Fail;

/// Lines by their numbers from 0: the place, how many words there are, and the first of them, else 0. They are the
/// first comment, the origin, an EQU, and the first words.
const LINES: &[(usize, u16, u8, u16)] = &[
    (0, 0, 0, 0),
    (23, 0, 0, 0),
    (24, ORIGIN, 0, 0),
    (41, ORIGIN, 3, GBOOT),
    (42, ORIGIN + 6, 1, GEXIT),
];

/// The last two lines, by how many lines come after them: B and END.
const LAST_LINES: &[(usize, u16, u8, u16)] = &[(1, BEHIND - 4, 2, 0x0460), (0, BEHIND, 0, 0)];

/// Names by their numbers from 0, and what they stand for: the first EQU, and the first place.
const NAMES: &[(usize, &[u8], u16)] = &[(0, b"GRMRD", 0x9800), (16, b"TABLE", ORIGIN + 8)];

/// Whether a line has such a row.
fn is_row(index: usize, place: u16, count: u8, first: u16) -> bool {
    if index >= row_count() {
        return false;
    }
    let found = row(index);
    found.place == place && found.count == count && found.words[0] == first
}

/// Whether a name has such a row.
fn is_name(index: usize, name: &[u8], value: u16) -> bool {
    if index >= name_count() {
        return false;
    }
    let found = name_row(index);
    found.name.as_bytes() == name && found.value == value
}

/// Whether the words of all rows, one after the other, are those that are shipped.
fn words_are_shipped(shipped: &[u16]) -> bool {
    let mut place = 0;
    for index in 0..row_count() {
        let found = row(index);
        for &word in found.words.iter().take(usize::from(found.count)) {
            if shipped.get(place) != Some(&word) {
                return false;
            }
            place += 1;
        }
    }
    place == shipped.len()
}

#[test]
fn rows_are_those_of_the_source(rt: HostRuntime) -> Result<(), Fail> {
    for &(index, place, count, first) in LINES {
        assert!(rt; is_row(index, place, count, first), "line {index}");
    }
    for &(after, place, count, first) in LAST_LINES {
        let index = row_count().saturating_sub(after + 1);
        assert!(rt;
            is_row(index, place, count, first),
            "{after} lines before the last"
        );
    }
    for &(index, name, value) in NAMES {
        assert!(rt; is_name(index, name, value), "name {index}");
    }
    assert!(rt;
        is_name(name_count().saturating_sub(1), b"GOBACK", GOBACK),
        "the last name"
    );
    assert!(rt; words_are_shipped(interpreter_words()));
    Ok(())
}
