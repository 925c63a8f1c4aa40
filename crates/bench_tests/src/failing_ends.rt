//! Inputs and outputs that fail at each of their calls in turn.

use super::run::run;
use report_defs::Status;
use std::alloc::{AllocError, Global};
use std::test::Fail;

/// Two object texts, of which the first uses a name of the second.
const MODULES: &[u8] = b"00008        A0000B0000C0000BC060C000230006FOO   200007F57CF\n:\n\
00002        A0000B000750000FOO   F\n:\n";

/// A program whose third step is refused.
const PROGRAM: &[u8] = b"S ST @>8300,5\n INC @>8300\n BYTE >0F,>77\n END S\n";

/// Words, an input, how they end, and how many calls of `take` they make.
const RUNS: &[(&[&[u8]], &[u8], Status, u64)] = &[
    (
        &[b"asm"],
        b" LI R1,>1234\n A R1,R2\n RT\n END\n",
        Status::Done,
        2,
    ),
    (&[b"link"], MODULES, Status::Done, 2),
    (
        &[b"link"],
        b"00000        40000FOO   F\n:\n",
        Status::Refused,
        2,
    ),
    (&[b"trace", b"5"], PROGRAM, Status::Stopped, 2),
    (
        &[b"gdis", b"6010"],
        b"\xBE\x00\x05\x80\x80\x00\x0F",
        Status::Done,
        2,
    ),
    (
        &[b"gasm"],
        b" GROM >6000\n AORG >0010\n ST @>8300,>05\n BYTE >80\n ABS @>8300\n BYTE >0F\n END\n",
        Status::Done,
        2,
    ),
    (&[b"demo", b"1"], b"", Status::Done, 0),
];

/// Whether a call of `take` that fails is a read fault with nothing written, whichever of the calls it is, and it makes
/// no further call.
fn each_take_fails(
    alloc: Global,
    words: &[&[u8]],
    input: &[u8],
    status: Status,
    takes: u64,
) -> Result<bool, AllocError> {
    for call in 0..takes {
        let ended = run(alloc, words, input.to_vec(alloc)?, &[call], &[])?;
        if ended.status != Status::ReadFault
            || !ended.out.bytes().is_empty()
            || !ended.err.bytes().is_empty()
        {
            return Ok(false);
        }
    }
    let whole = run(alloc, words, input.to_vec(alloc)?, &[takes], &[])?;
    Ok(whole.status == status)
}

/// How many line feeds bytes have.
fn line_feeds(bytes: &[u8]) -> usize {
    let mut count = 0;
    for &byte in bytes {
        if byte == b'\n' {
            count = usize::wrapping_add(count, 1);
        }
    }
    count
}

/// Whether a call of `put` that fails is a write fault after the lines that were written before it.
fn put_fails(
    alloc: Global,
    words: &[&[u8]],
    input: &[u8],
    call: usize,
    whole: &[u8],
) -> Result<bool, AllocError> {
    let ended = run(alloc, words, input.to_vec(alloc)?, &[], &[call as u64])?;
    let written = ended.out.bytes();
    Ok(
        ended.status == Status::WriteFault
            && ended.err.bytes().is_empty()
            && whole.starts_with(written)
            && line_feeds(written) == call
            && matches!(written, [] | [.., b'\n']),
    )
}

/// Whether each call of `put` so fails: there is one for each line, or one for an image or a fault line.
fn each_put_fails(
    alloc: Global,
    words: &[&[u8]],
    input: &[u8],
    status: Status,
) -> Result<bool, AllocError> {
    let whole = run(alloc, words, input.to_vec(alloc)?, &[], &[])?;
    let puts = line_feeds(whole.out.bytes()).max(1);
    for call in 0..puts {
        if !put_fails(alloc, words, input, call, whole.out.bytes())? {
            return Ok(false);
        }
    }
    let after = run(alloc, words, input.to_vec(alloc)?, &[], &[puts as u64])?;
    Ok(after.status == status && after.out.bytes() == whole.out.bytes())
}

#[test]
fn a_take_that_fails_is_a_read_fault(rt: HostRuntime) -> Result<(), Fail> {
    for &(words, input, status, takes) in RUNS {
        assert!(rt;
            each_take_fails(rt.alloc(), words, input, status, takes)?,
            "{input:?}"
        );
    }
    Ok(())
}

#[test]
fn a_put_that_fails_keeps_the_lines_before_it(rt: HostRuntime) -> Result<(), Fail> {
    for &(words, input, status, _) in RUNS {
        assert!(rt;
            each_put_fails(rt.alloc(), words, input, status)?,
            "{input:?}"
        );
    }
    Ok(())
}
