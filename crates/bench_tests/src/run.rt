//! One run, and what came of it.

use bench_io::{MemSink, MemSource};
use bench_shelf::MemShelf;
use command_words::Words;
use report_defs::Status;
use std::alloc::{AllocError, Global};
use workbench::bench_with;

/// The usage line.
pub(crate) const USAGE: &[u8] =
    b"usage: ti_bench asm|link [NAME ...]|dis ADDR|exec N|gasm|gdis ADDR|interp|run N|trace N|demo K|\
      watch N ITEM ...\n";

/// How a run ended, and what the two sinks hold then.
#[derive(Drop)]
pub(crate) struct Ended {
    pub(crate) status: Status,
    pub(crate) out: MemSink,
    pub(crate) err: MemSink,
    pub(crate) input: MemSource,
}

/// The words of a command line.
pub(crate) fn words_of(alloc: Global, words: &[&[u8]]) -> Result<Words, AllocError> {
    let mut list = Words::new(alloc);
    for word in words {
        list.push(word)?;
    }
    Ok(list)
}

/// Runs words over an input and an empty shelf, with room for 16,384 bytes in each sink. The calls of each with these
/// numbers fail.
pub(crate) fn run(
    alloc: Global,
    words: &[&[u8]],
    input: Vec<u8>,
    take_fails: &[u64],
    put_fails: &[u64],
) -> Result<Ended, AllocError> {
    let mut shelf = MemShelf::new(Vec::new(alloc), Vec::new(alloc));
    run_with(alloc, words, input, &mut shelf, take_fails, put_fails)
}

/// The same over a shelf.
pub(crate) fn run_with(
    alloc: Global,
    words: &[&[u8]],
    input: Vec<u8>,
    shelf: &mut MemShelf,
    take_fails: &[u64],
    put_fails: &[u64],
) -> Result<Ended, AllocError> {
    let list = words_of(alloc, words)?;
    let mut input = MemSource::new(input, Vec::from_slice(alloc, take_fails)?);
    let mut out = MemSink::new(alloc, 16384, Vec::from_slice(alloc, put_fails)?)?;
    let mut err = MemSink::new(alloc, 16384, Vec::from_slice(alloc, put_fails)?)?;
    let status = bench_with(alloc, &list, &mut input, shelf, &mut out, &mut err);
    Ok(Ended {
        status,
        out,
        err,
        input,
    })
}
