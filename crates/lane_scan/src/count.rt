//! How many places of two lists of bytes differ.

ghost use Rattle.std.specs.Prelude.{◌≡◌, ◌≤◌, length, drop};
ghost use Rattle.std.specs.List.{zip, count_by};
ghost use Rattle.base_defs.specs.Lists.{is_different, count_differences};

use crate::lanes::{LANES, differing_lanes};

/// In how many places two lists differ. They need to have the same length.
pub fn count_differences(a: &[u8], b: &[u8]) -> usize
    requires { length a.now ≡ length b.now }
    ensures value { result ≡ count_differences a.now b.now }
    ensures bound { result ≤ length a.now }
{
    let mut count = 0;
    let mut at = 0;
    while a.len() - at >= LANES {
        count += differing_lanes(a, b, at).count_ones() as usize;
        at += LANES;
    }
    count + count_from(a, b, at)
}

/// In how many places from `from` on two lists differ, byte by byte.
fn count_from(a: &[u8], b: &[u8], from: usize) -> usize
    requires length { length a.now ≡ length b.now }
    requires from { from ≤ length a.now }
    ensures { result ≡ count_by is_different (drop from (zip a.now b.now)) }
{
    let mut count = 0;
    for at in from..a.len() {
        if a[at] != b[at] {
            count += 1;
        }
    }
    count
}
