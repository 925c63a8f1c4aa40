//! A source that is read to its end.

ghost use Rattle.std.specs.Prelude.{◌≡◌, ◌<◌, ◌≤◌, ◌+◌, ℕ, [], length, take, IfOk, IfErr, OnErr};
ghost use Rattle.base_defs.specs.Counts.{saturating_sum, Rose};
ghost use Rattle.bench_io.specs.ReadAll.{ReadWhole, GaveUp, Consumed};
ghost use Rattle.bench_io.specs.Stream.{GaveMore, IsAtEnd, empty_calls};
ghost use Rattle.bench_io.specs.declared.whole.ReadError.TheVariants.{Fault, Memory};

use crate::{Failed, Source};
use std::alloc::{AllocError, Global};
use thiserror::Error;

/// Why a source was not read whole.
#[derive(Clone, Copy, Debug, PartialEq, Eq, Error)]
pub enum ReadError {
    /// The source failed.
    #[error("read fault")]
    Fault,
    /// More bytes came than were asked for.
    #[error("too large")]
    TooLarge,
    /// Memory ran out.
    #[error("out of memory")]
    Memory,
}

impl From<Failed> for ReadError {
    ghost from_gives = { λ _ error. error ≡ Fault };

    fn from(_: Failed) -> Self {
        ReadError::Fault
    }
}

impl From<AllocError> for ReadError {
    ghost from_gives = { λ _ error. error ≡ Memory };

    fn from(_: AllocError) -> Self {
        ReadError::Memory
    }
}

/// How many bytes are asked for at a time.
const PIECE: usize = 4096;

/// Reads `source` up to its end, `limit` bytes at most. It takes no more than `limit + 1` bytes and makes no more than
/// `limit + 1` calls of `take`, of which each but the last takes a byte or more.
///
/// # Errors
/// `TooLarge` comes exactly where more than `limit` bytes were taken, `Fault` only where the source's count of faults
/// rose, and `Memory` means that memory ran out. What was taken before an error stays taken.
pub fn read_all<S: Source>(
    alloc: Global,
    source: &mut S,
    limit: usize,
) -> Result<Vec<u8>, ReadError>
    requires { limit < usize.MAX }

    ensures ok { IfOk result (λ bytes. ReadWhole limit (S.state source.old) (S.state source.new) bytes.items) }
    // `TooLarge` comes exactly where more than `limit` bytes were taken, and then one more were.
    ensures err { IfErr result (λ error. GaveUp error limit (S.state source.old) (S.state source.new)) }
    ensures calls { (count : ℕ) × (count ≤ limit + 1)
        × ((S.state source.new).calls ≡ saturating_sum (S.state source.old).calls count) }
    ensures kept { S.kept source.new ≡ S.kept source.old }
{
    let mut bytes = Vec::new(alloc);
    let mut buffer = [0; PIECE];
    loop {
        let room = PIECE.min(limit + 1 - bytes.len());
        let count = take_once(source, &mut buffer[..room])?;
        if count == 0 {
            return Ok(bytes);
        }
        if limit - bytes.len() < count {
            return Err(ReadError::TooLarge);
        }
        bytes.extend_from_slice(&buffer[..count])?;
    }
}

/// One call of `take`. It is a function of its own, so that its contract says of one call what the contract of
/// `read_all` says of all: a body that makes a failed call again is refused here.
#[tactic(auto, using(crate::proofs::TakeCalls::consumed_once, crate::proofs::TakeCalls::failed_once))]
fn take_once<S: Source>(source: &mut S, buffer: &mut [u8]) -> Result<usize, Failed>
    requires { 0 < length buffer.old }
    ensures within { IfOk result (λ count. count ≤ length buffer.old) }
    ensures end { IfOk result (λ count. count ≡ 0 → IsAtEnd (S.state source.new).left) }
    ensures consumed { IfOk result
        (λ count. Consumed (S.state source.old) (S.state source.new) (take count buffer.new) (empty_calls count)) }
    ensures failed { OnErr result (Consumed (S.state source.old) (S.state source.new) [] 1) }
    ensures cause { OnErr result (Rose (S.state source.old).faults (S.state source.new).faults) }
    ensures given { IfOk result (λ count. GaveMore count (S.state source.old) (S.state source.new)) }
    ensures kept { S.kept source.new ≡ S.kept source.old }
{
    source.take(buffer)
}
