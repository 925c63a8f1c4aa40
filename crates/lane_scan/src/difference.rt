//! The first place where two lists of bytes differ.

ghost use Rattle.std.specs.Prelude.{◌≡◌, ◌+◌, ◌≤◌, ◌<◌, length, drop, min, IfSome};
ghost use Rattle.std.specs.List.{zip, prefix_len};
ghost use Rattle.base_defs.specs.Lists.{is_same, common_length, first_difference, IsFirstDifference};

use crate::lanes::{LANES, differing_lanes};

/// The first place where two lists differ. Where one is a proper front of the other, that is the place where it ends.
/// Equal lists have none.
pub fn first_difference(a: &[u8], b: &[u8]) -> Option<usize>
    ensures value { result ≡ first_difference a.now b.now }
    ensures first { IsFirstDifference a.now b.now result }
    ensures within { length a.now ≡ length b.now → IfSome result (λ at. at < length a.now) }
{
    let common = common_length(a, b);
    if common == a.len() && common == b.len() {
        None
    } else {
        Some(common)
    }
}

/// How many places, from the front on, are the same in both lists, chunk by chunk.
#[inline]
fn common_length(a: &[u8], b: &[u8]) -> usize
    ensures { result ≡ common_length a.now b.now }
{
    let end = a.len().min(b.len());
    let mut at = 0;
    while end - at >= LANES {
        let differing = differing_lanes(a, b, at);
        if differing != 0 {
            return at + differing.trailing_zeros() as usize;
        }
        at += LANES;
    }
    common_end(a, b, at)
}

/// Where the places that are the same from `from` on end, byte by byte.
fn common_end(a: &[u8], b: &[u8], from: usize) -> usize
    requires { from ≤ min (length a.now) (length b.now) }
    ensures { result ≡ from + prefix_len is_same (drop from (zip a.now b.now)) }
{
    let end = a.len().min(b.len());
    let mut at = from;
    while at < end && a[at] == b[at] {
        at += 1;
    }
    at
}
