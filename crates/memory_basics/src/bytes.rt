//! Lists of bytes: a given number of zeros, and what holds of every slice of bytes.

ghost use Rattle.std.specs.Prelude.{◌<◌, ℕ, slice_index, IfOk};
ghost use Rattle.tms_defs.specs.Bytes.{HoldsZeros};

use std::alloc::{AllocError, Global};

/// A number of zeros.
#[tactic(auto, using(tms_defs::proofs::ByteLaws::replicated_zeros))]
pub fn zeros(alloc: Global, count: usize) -> Result<Vec<u8>, AllocError>
    ensures { IfOk result (λ bytes. HoldsZeros count bytes.items) }
{
    vec![in alloc; 0; count]
}

/// Does nothing. Its contract says that a slice of `u8` holds bytes, for the proof of a caller.
#[inline]
pub fn holds_bytes(bytes: &[u8])
    ensures { (at : ℕ) → slice_index bytes.now at < 256 }
{}
