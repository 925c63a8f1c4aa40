//! Runs over a slice and two vectors of std: their bytes and the status follow from the contracts alone.

ghost use Rattle.std.specs.Prelude.{◌≡◌, IfSome, Some, []};
ghost use Rattle.debug_report_defs.specs.Words.{debug_command};
ghost use Rattle.debug_report_defs.specs.declared.command.DebugCommand.{DebugCommand};
ghost use Rattle.reports.specs.Streams.{StreamsHoldTheReport, new_sink, new_source};
ghost use Rattle.file_commands.specs.Inputs.{ShownInputs};
ghost use Rattle.debug_commands.specs.Debug.{Shows, debug_program};

use bench_shelf::{MemShelf, Shelf};
use command_words::Words;
use debug_commands::debug_through;
use report_defs::Status;
use std::alloc::{AllocError, Global};
use std::io::BufWriter;
use std::test::Fail;

/// What a run wrote, with its status.
#[derive(Drop)]
struct Written {
    status: Status,
    out: Vec<u8>,
    err: Vec<u8>,
}

/// Runs a command over bytes, with vectors as its outputs, the first of them with a buffer. If the report was written
/// whole, the vectors hold it: that is the one report on the bytes.
fn over_bytes<F: Shelf>(
    alloc: Global,
    words: &Words,
    bytes: &[u8],
    shelf: &mut F,
) -> Option<Written>
    ensures { IfSome result (λ wrote.
        (command : DebugCommand) (read : ShownInputs) → debug_command words.now ≡ Some command
        → Shows command (record { input = new_source (Some bytes.now); shelf = F.shelf shelf.old }) read
        → StreamsHoldTheReport (debug_program.ReportOn command read) [] []
        (new_sink (Some wrote.out.items)) (new_sink (Some wrote.err.items)) wrote.status) }
{
    let Ok(output) = BufWriter::new(alloc, Vec::new(alloc)) else {
        return None;
    };
    let (status, _, out, err) = debug_through(alloc, words, bytes, shelf, output, Vec::new(alloc));
    match status {
        Status::Done | Status::Refused | Status::Stopped => Some(Written {
            status,
            out: out.into_inner(),
            err: err.into_inner(),
        }),
        _ => None,
    }
}

/// What `glist` writes of `S EXIT`: the line with its address and byte, and the name.
const LISTING: &[u8] = b"      1 >6000 0B                      S EXIT\nname >6000       1 S\n";

/// Whether `glist` of a source in a slice is answered by these lines in a vector and nothing in the other.
fn lists(alloc: Global, source: &[u8], lines: &[u8]) -> Result<bool, AllocError> {
    let mut words = Words::new(alloc);
    words.push(b"glist")?;
    let mut shelf = MemShelf::new(Vec::new(alloc), Vec::new(alloc));
    Ok(match over_bytes(alloc, &words, source, &mut shelf) {
        Some(wrote) => {
            wrote.status == Status::Done && wrote.out.as_slice() == lines && wrote.err.is_empty()
        }
        None => false,
    })
}

#[test]
fn bytes_of_a_slice_come_out_in_vectors(rt: HostRuntime) -> Result<(), Fail> {
    assert!(rt; lists(rt.alloc(), b"S EXIT\n", LISTING)?);
    Ok(())
}
