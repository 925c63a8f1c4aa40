//! Chunks of two lists of bytes, compared lane by lane.

ghost use Rattle.std.specs.Prelude.{◌≡◌, ◌+◌, ◌≤◌, length, map};
ghost use Rattle.std.specs.List.{zip};
ghost use Rattle.std.specs.Simd.Lanes.{chunk, mask_l};
ghost use Rattle.base_defs.specs.Lists.{is_different};

use std::simd::prelude::*;

/// How many bytes a chunk has.
pub(crate) const LANES: usize = 64;

/// The places of a chunk in which two lists differ: a bit for each, the lowest for the first.
#[inline(always)]
pub(crate) fn differing_lanes(a: &[u8], b: &[u8], at: usize) -> u64
    requires a { at + LANES ≤ length a.now }
    requires b { at + LANES ≤ length b.now }
    ensures { result ≡ mask_l (map is_different (chunk at LANES (zip a.now b.now))) }
{
    let left = u8x64::from_slice(&a[at..]);
    let right = u8x64::from_slice(&b[at..]);
    !left.simd_eq(right).to_bitmask()
}
