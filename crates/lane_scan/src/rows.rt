//! Whether two rows of a list of bytes are equal.

ghost use Rattle.std.specs.Prelude.{◌≡◌, ◌+◌, ◌*◌, ◌≤◌, length};
ghost use Rattle.base_defs.specs.Lists.{rows_equal};

use std::simd::prelude::*;

/// Whether the rows of 16 bytes with the numbers `i` and `j` are equal. Both need to be whole.
pub fn rows_equal(a: &[u8], i: usize, j: usize) -> bool
    requires i { 16 * i + 16 ≤ length a.now }
    requires j { 16 * j + 16 ≤ length a.now }
    ensures { result ≡ rows_equal a.now i j }
{
    let left = u8x16::from_slice(&a[16 * i..]);
    let right = u8x16::from_slice(&a[16 * j..]);
    left.simd_ne(right).to_bitmask() == 0
}
