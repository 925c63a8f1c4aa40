//! `list`: the lines of an assembler source and of the files that it copies, with their places and what they place, and
//! its names.

ghost use Rattle.std.specs.Prelude.{◌≡◌, ◌≤◌, length, IfSome};
ghost use Rattle.report_defs.specs.Report.{largest_input};
ghost use Rattle.debug_report_defs.specs.Listings.{rows_report};
ghost use Rattle.bench_shelf.specs.Causes.{CountsGrew};
ghost use Rattle.bench_shelf.specs.Listed.{GivesReport};
ghost use Rattle.reports.specs.Outputs.{EndsWith};
ghost use Rattle.asm_list.specs.Listings.{rows_of};
ghost use Rattle.debug_commands.specs.Listed.{EndsListed, model_of_refusal};

use asm_list::{AsmListing, list_source};
use bench_io::Sink;
use bench_shelf::Shelf;
use file_commands::command_error;
use report_defs::Status;
use reports::finish;
use std::alloc::Global;

/// Lists a source with the files of a shelf that it copies. Of one that is refused the lines before the refused one are
/// written, and then the fault line that `asm` has of it. All memory is taken before the first byte is written.
pub(crate) fn list<F: Shelf, O: Sink, E: Sink>(
    alloc: Global,
    shelf: &mut F,
    source: &[u8],
    out: &mut O,
    err: &mut E,
) -> Status
    requires { length source.now ≤ largest_input }
    ensures ends { EndsListed (F.shelf shelf.old) (F.shelf shelf.new) source.now (record {
      out = O.state out.old;
      out' = O.state out.new;
      err = E.state err.old;
      err' = E.state err.new;
    }) result }
    ensures later { CountsGrew (F.shelf shelf.old) (F.shelf shelf.new) }
{
    match list_source(alloc, shelf, source) {
        Ok(listing) => finish_list(&listing, out, err),
        Err(error) => finish(&Err(command_error(error)), out, err),
    }
}

/// Writes a listing, and then the line of what is refused, if anything is.
fn finish_list<O: Sink, E: Sink>(listing: &AsmListing, out: &mut O, err: &mut E) -> Status
    requires { IfSome listing.now.refused GivesReport }
    ensures { EndsWith (record {
      out = O.state out.old;
      out' = O.state out.new;
      err = E.state err.old;
      err' = E.state err.new;
    }) (rows_report (rows_of listing.now) (model_of_refusal listing.now.refused)) result }
{
    if listing.write(out).is_err() {
        return Status::WriteFault;
    }
    match listing.refused() {
        Some(error) => finish(&Err(command_error(error)), out, err),
        None => Status::Done,
    }
}
