//! One run of `ti_debug`, and what came of it.

use bench_io::{MemSink, MemSource};
use bench_shelf::{FileName, MemShelf};
use command_words::Words;
use debug_commands::debug;
use report_defs::Status;
use std::alloc::{AllocError, Global};

/// A run: its words, its input, the lines of the file `LIB`, and the number of the call of each that fails.
#[derive(Clone, Copy)]
pub(crate) struct Run {
    pub(crate) words: &'static [&'static [u8]],
    pub(crate) input: &'static [u8],
    pub(crate) file: &'static [u8],
    pub(crate) take_fails: Option<u64>,
    pub(crate) shelf_fails: Option<u64>,
    pub(crate) put_fails: Option<u64>,
}

/// How a run ended, and what the two sinks hold then.
#[derive(Drop)]
pub(crate) struct Ended {
    pub(crate) status: Status,
    pub(crate) out: MemSink,
    pub(crate) err: MemSink,
}

/// The number of a call as a list.
fn calls(alloc: Global, fails: Option<u64>) -> Result<Vec<u64>, AllocError> {
    let mut list = Vec::new(alloc);
    if let Some(call) = fails {
        list.push(call)?;
    }
    Ok(list)
}

/// A shelf with the file `LIB`.
fn shelf_of(alloc: Global, run: &Run) -> Result<MemShelf, AllocError> {
    let mut files = Vec::new(alloc);
    if let Some(name) = FileName::read(b"LIB") {
        files.push((name, run.file.to_vec(alloc)?))?;
    }
    Ok(MemShelf::new(files, calls(alloc, run.shelf_fails)?))
}

/// Makes a run, with room for 16,384 bytes in each sink.
pub(crate) fn made(alloc: Global, run: &Run) -> Result<Ended, AllocError> {
    let mut shelf = shelf_of(alloc, run)?;
    let mut words = Words::new(alloc);
    for word in run.words {
        words.push(word)?;
    }
    let mut input = MemSource::new(run.input.to_vec(alloc)?, calls(alloc, run.take_fails)?);
    let mut out = MemSink::new(alloc, 16384, calls(alloc, run.put_fails)?)?;
    let mut err = MemSink::new(alloc, 16384, calls(alloc, run.put_fails)?)?;
    let status = debug(alloc, &words, &mut input, &mut shelf, &mut out, &mut err);
    Ok(Ended { status, out, err })
}
