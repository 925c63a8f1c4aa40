//! Cases of the scans of bytes, at lengths around a chunk of 64 bytes, worked out by hand.

use lane_scan::{count_differences, first_difference, rows_equal, sum_bytes};
use std::alloc::{AllocError, Global};
use std::test::Fail;

/// Two short lists, and their first difference.
const SHORT: &[(&[u8], &[u8], Option<usize>)] = &[
    (&[1, 2, 3], &[1, 2, 3, 4, 5], Some(3)),
    (&[1, 2, 3], &[1, 2, 3], None),
    (&[1, 2, 3], &[1, 7, 3], Some(1)),
    (&[], &[], None),
];

/// Two lists of zeros, by their lengths; a place that holds 1 in the second one; and the first difference.
const FIRST: &[(usize, usize, Option<usize>, Option<usize>)] = &[
    (40, 40, Some(33), Some(33)),
    (0, 0, None, None),
    (0, 1, None, Some(0)),
    (3, 5, None, Some(3)),
    (5, 3, None, Some(3)),
    (31, 31, Some(30), Some(30)),
    (32, 32, Some(31), Some(31)),
    (33, 33, Some(32), Some(32)),
    (63, 63, Some(62), Some(62)),
    (64, 64, Some(63), Some(63)),
    (65, 65, Some(64), Some(64)),
    (64, 64, Some(0), Some(0)),
    (64, 64, None, None),
    (65, 65, None, None),
    (64, 65, None, Some(64)),
    (65, 64, None, Some(64)),
    (192, 192, Some(127), Some(127)),
    (192, 192, Some(128), Some(128)),
    (200, 200, Some(199), Some(199)),
];

/// Lists of one byte over and over, by their length and that byte, and their sum.
const SUMS: &[(usize, u8, u64)] = &[
    (0, 0xFF, 0),
    (1, 0xFF, 255),
    (63, 0xFF, 16_065),
    (64, 0xFF, 16_320),
    (65, 0xFF, 16_575),
    (130, 2, 260),
    (16_384, 0xFF, 4_177_920),
];

/// Lengths of lists that differ in every place, and so often.
const LENGTHS: &[usize] = &[0, 1, 31, 32, 33, 37, 63, 64, 65, 127, 128, 129];

/// Rows of 48 bytes that are all 0 but for a 1 in the last place of the third row, and whether the rows are equal.
const ROWS: &[(usize, usize, bool)] = &[(0, 1, true), (2, 2, true), (0, 2, false), (2, 1, false)];

/// Zeros, with a 1 at a place.
fn marked(alloc: Global, length: usize, place: Option<usize>) -> Result<Vec<u8>, AllocError> {
    let mut bytes = vec![in alloc; 0u8; length]?;
    if let Some(at) = place {
        if at < bytes.len() {
            bytes[at] = 1;
        }
    }
    Ok(bytes)
}

/// Whether the first difference is as given, from both sides.
fn differs_first(one: &[u8], other: &[u8], first: Option<usize>) -> bool {
    first_difference(one, other) == first && first_difference(other, one) == first
}

/// Whether as many places differ.
fn differs_in(one: &[u8], other: &[u8], count: usize) -> bool {
    one.len() == other.len() && count_differences(one, other) == count
}

/// Whether the sum is as given.
fn sums_to(bytes: &[u8], sum: u64) -> bool {
    bytes.len() < 65_536 && sum_bytes(bytes) == sum
}

/// Whether two of three rows are equal or not, as given.
fn compares_as(bytes: &[u8], i: usize, j: usize, equal: bool) -> bool {
    bytes.len() == 48 && i < 3 && j < 3 && rows_equal(bytes, i, j) == equal
}

#[test]
fn scans_go_by_plain_rules(rt: HostRuntime) -> Result<(), Fail> {
    for &(one, other, first) in SHORT {
        assert!(rt; differs_first(one, other, first), "first of {}", one.len());
    }
    for &(length, other_length, place, first) in FIRST {
        let one = marked(rt.alloc(), length, None)?;
        let other = marked(rt.alloc(), other_length, place)?;
        assert!(rt;
            differs_first(&one, &other, first),
            "first of {length} and {other_length}"
        );
    }
    for &(length, byte, sum) in SUMS {
        let bytes = vec![in rt.alloc(); byte; length]?;
        assert!(rt; sums_to(&bytes, sum), "sum of {length}");
    }
    Ok(())
}

#[test]
fn places_and_rows_are_compared(rt: HostRuntime) -> Result<(), Fail> {
    for &length in LENGTHS {
        let zeros = vec![in rt.alloc(); 0u8; length]?;
        let ones = vec![in rt.alloc(); 1u8; length]?;
        assert!(rt;
            differs_in(&zeros, &ones, length) && differs_in(&ones, &ones, 0),
            "count of {length}"
        );
    }
    let bytes = marked(rt.alloc(), 48, Some(47))?;
    for &(i, j, equal) in ROWS {
        assert!(rt; compares_as(&bytes, i, j, equal), "rows {i} and {j}");
    }
    Ok(())
}
