//! Pieces that are written to a sink.

ghost use Rattle.std.specs.Prelude.{[], ◌∷◌};
ghost use Rattle.bench_io.specs.Written.{Written};

use crate::{Failed, Sink};

/// Writes one piece, as a line, by one call.
///
/// # Errors
/// As [`Sink::put`].
#[tactic(auto, using(crate::proofs::Writes::written_one))]
pub fn put_chunk<K: Sink>(sink: &mut K, piece: &[u8]) -> Result<(), Failed>
    ensures { Written result (K.state sink.old) (K.state sink.new) (piece.now ∷ []) }
{
    sink.put(piece)
}
