//! The sum of a list of bytes.

ghost use Rattle.std.specs.Prelude.{◌≡◌, ◌+◌, ◌*◌, ◌≤◌, ◌<◌, ◌^◌, length, drop};
ghost use Rattle.std.specs.List.{sum};
ghost use Rattle.std.specs.Simd.Lanes.{chunk};
ghost use Rattle.base_defs.specs.Lists.{sum_bytes};

use crate::lanes::LANES;
use std::simd::prelude::*;

/// The sum of all bytes. There have to be fewer than 2^32 of them.
pub fn sum_bytes(a: &[u8]) -> u64
    requires { length a.now < 2 ^ 32 }
    ensures { result ≡ sum_bytes a.now }
{
    let mut total = 0;
    let mut at = 0;
    while a.len() - at >= LANES {
        total += sum_of_lanes(a, at);
        at += LANES;
    }
    total + sum_from(a, at)
}

/// The sum of a chunk: of its lanes of 32 bits, in each of which four bytes are added.
#[inline(always)]
fn sum_of_lanes(a: &[u8], at: usize) -> u64
    requires { at + LANES ≤ length a.now }
    ensures value { result ≡ sum (chunk at LANES a.now) }
    ensures bound { result ≤ 255 * LANES }
{
    let bytes = u8x64::from_slice(&a[at..]);
    bytes.dot4(u8x64::splat(1)).strict_reduce_sum() as u64
}

/// The sum of the bytes from `from` on, byte by byte.
fn sum_from(a: &[u8], from: usize) -> u64
    requires length { length a.now < 2 ^ 32 }
    requires from { from ≤ length a.now }
    ensures value { result ≡ sum (drop from a.now) }
    ensures bound { result ≤ 255 * length a.now }
{
    let mut total = 0;
    for at in from..a.len() {
        total += a[at] as u64;
    }
    total
}
