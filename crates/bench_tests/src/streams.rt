//! Runs over a slice and two vectors of std: their bytes and the status follow from the contracts alone.

ghost use Rattle.std.specs.Prelude.{◌≡◌, IfSome, Some, []};
ghost use Rattle.report_defs.specs.ProgramCommands.{ProgramCommand, program_command};
ghost use Rattle.reports.specs.Streams.{StreamsHoldTheReport, new_sink, new_source};
ghost use Rattle.file_commands.specs.Inputs.{ShownInputs};
ghost use Rattle.workbench.specs.FileProgram.{Shows, file_program};

use super::run::words_of;
use bench_shelf::{MemShelf, Shelf};
use command_words::Words;
use report_defs::Status;
use std::alloc::{AllocError, Global};
use std::io::BufWriter;
use std::test::Fail;
use workbench::bench_through;

/// What a run wrote, with its status.
#[derive(Drop)]
struct Written {
    status: Status,
    out: Vec<u8>,
    err: Vec<u8>,
}

/// Runs a command over bytes, with vectors as its outputs, the first of them with a buffer. If the report was written
/// whole, the vectors hold it: that is the one report on the bytes.
fn over_bytes<F: Shelf>(
    alloc: Global,
    words: &Words,
    bytes: &[u8],
    shelf: &mut F,
) -> Option<Written>
    ensures { IfSome result (λ wrote.
        (command : ProgramCommand) (read : ShownInputs) → program_command words.now ≡ Some command
        → Shows command (record { input = new_source (Some bytes.now); shelf = F.shelf shelf.old }) read
        → StreamsHoldTheReport (file_program.ReportOn command read) [] []
        (new_sink (Some wrote.out.items)) (new_sink (Some wrote.err.items)) wrote.status) }
{
    let Ok(output) = BufWriter::new(alloc, Vec::new(alloc)) else {
        return None;
    };
    let (status, _, out, err) = bench_through(alloc, words, bytes, shelf, output, Vec::new(alloc));
    match status {
        Status::Done | Status::Refused | Status::Stopped => Some(Written {
            status,
            out: out.into_inner(),
            err: err.into_inner(),
        }),
        _ => None,
    }
}

/// Whether `gasm` of a source in a slice is answered by these bytes in a vector and nothing in the other.
fn assembles(alloc: Global, source: &[u8], image: &[u8]) -> Result<bool, AllocError> {
    let words = words_of(alloc, &[b"gasm"])?;
    let mut shelf = MemShelf::new(Vec::new(alloc), Vec::new(alloc));
    Ok(match over_bytes(alloc, &words, source, &mut shelf) {
        Some(wrote) => {
            wrote.status == Status::Done && wrote.out.as_slice() == image && wrote.err.is_empty()
        }
        None => false,
    })
}

#[test]
fn bytes_of_a_slice_come_out_in_vectors(rt: HostRuntime) -> Result<(), Fail> {
    assert!(rt; assembles(rt.alloc(), b"S EXIT\n END S\n", &[0x0B])?);
    Ok(())
}
