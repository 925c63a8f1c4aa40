//! Calls of the input, of the shelf and of the sinks that fail, each in turn.

use super::run::{Ended, Run, made};
use report_defs::Status;
use std::alloc::{AllocError, Global};
use std::test::Fail;

/// A run in which no call fails.
fn run(words: &'static [&'static [u8]], input: &'static [u8], file: &'static [u8]) -> Run {
    Run {
        words,
        input,
        file,
        take_fails: None,
        shelf_fails: None,
        put_fails: None,
    }
}

/// Words, an input, the lines of the file `LIB`, and how the run ends if no call fails.
const RUNS: &[(&[&[u8]], &[u8], &[u8], Status)] = &[
    (
        &[b"glist"],
        b" BYTE 1,2,3,4,5,6,7,8,9\n ST @>8300,1\n END",
        b"",
        Status::Done,
    ),
    (&[b"glist"], b" EXIT\n OOPS\n END", b"", Status::Refused),
    (
        &[b"gsteps", b"5"],
        b"S ST @>8300,1\n ST @>8301,2\n ST @>8302,3\n EXIT\n END S",
        b"",
        Status::Done,
    ),
    (
        &[b"gcounts", b"5"],
        b"S ST @>8300,1\n ST @>8301,2\n EXIT\n END S",
        b"",
        Status::Done,
    ),
    (&[b"grun", b"5"], b"S EXIT\n END S", b"", Status::Done),
    (
        &[b"list"],
        b" DATA 1\n COPY \"LIB\"\n",
        b" DATA 2\n",
        Status::Done,
    ),
    (
        &[b"steps", b"10"],
        b"00008        A0000B0201B7FFFB0581B10FF20000F\n:\n",
        b"",
        Status::Done,
    ),
];

/// Whether a run is a read fault with nothing on the error output.
fn is_read_fault(ended: &Ended) -> bool {
    ended.status == Status::ReadFault && ended.err.bytes().is_empty()
}

/// Whether each call of the input that fails is a read fault.
fn each_take_fails(alloc: Global, run: Run) -> Result<bool, AllocError> {
    for call in 0..2 {
        let ended = made(
            alloc,
            &Run {
                take_fails: Some(call),
                ..run
            },
        )?;
        if !is_read_fault(&ended) || !ended.out.bytes().is_empty() {
            return Ok(false);
        }
    }
    Ok(true)
}

/// Whether each call of the shelf that fails is a read fault: the one that opens the file, and two that read it.
fn each_shelf_call_fails(alloc: Global, run: Run) -> Result<bool, AllocError> {
    for call in 0..3 {
        let ended = made(
            alloc,
            &Run {
                shelf_fails: Some(call),
                ..run
            },
        )?;
        if !is_read_fault(&ended) || !ended.out.bytes().is_empty() {
            return Ok(false);
        }
    }
    Ok(true)
}

/// How many line feeds bytes have.
fn line_feeds(bytes: &[u8]) -> usize {
    let mut count = 0;
    for &byte in bytes {
        if byte == b'\n' {
            count = usize::wrapping_add(count, 1);
        }
    }
    count
}

/// Whether each call of a sink that fails is a write fault after the lines that were written before it.
fn each_put_fails(alloc: Global, run: Run, status: Status) -> Result<bool, AllocError> {
    let whole = made(alloc, &run)?;
    let puts = line_feeds(whole.out.bytes());
    for call in 0..puts {
        let ended = made(
            alloc,
            &Run {
                put_fails: Some(call as u64),
                ..run
            },
        )?;
        let written = ended.out.bytes();
        if ended.status != Status::WriteFault
            || !ended.err.bytes().is_empty()
            || !whole.out.bytes().starts_with(written)
            || line_feeds(written) != call
        {
            return Ok(false);
        }
    }
    Ok(whole.status == status && puts > 0)
}

#[test]
fn an_input_that_fails_is_a_read_fault(rt: HostRuntime) -> Result<(), Fail> {
    for &(words, input, file, _) in RUNS {
        assert!(rt;
            each_take_fails(rt.alloc(), run(words, input, file))?,
            "{input:?}"
        );
    }
    Ok(())
}

#[test]
fn a_shelf_that_fails_is_a_read_fault(rt: HostRuntime) -> Result<(), Fail> {
    for &(words, input, file, _) in RUNS {
        if !file.is_empty() {
            assert!(rt;
                each_shelf_call_fails(rt.alloc(), run(words, input, file))?,
                "{input:?}"
            );
        }
    }
    Ok(())
}

#[test]
fn a_sink_that_fails_keeps_the_lines_before_it(rt: HostRuntime) -> Result<(), Fail> {
    for &(words, input, file, status) in RUNS {
        assert!(rt;
            each_put_fails(rt.alloc(), run(words, input, file), status)?,
            "{input:?}"
        );
    }
    Ok(())
}
