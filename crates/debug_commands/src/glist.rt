//! `glist`: the lines of a GPL source with their addresses and their bytes, and its names.

ghost use Rattle.std.specs.Prelude.{◌≡◌, ◌≤◌, length};
ghost use Rattle.report_defs.specs.Report.{largest_input};
ghost use Rattle.gpl_list_defs.specs.Listing.{listing_of, listing_report};
ghost use Rattle.reports.specs.Outputs.{EndsWith};
ghost use Rattle.gpl_list.specs.Listings.{model_of_listing};
ghost use Rattle.debug_commands.specs.Answered.{EndsAnswered};

use bench_io::Sink;
use gpl_list::{GplListing, list_source};
use report_defs::Status;
use report_lines::gpl_line;
use reports::{end_with_line, finish};
use std::alloc::Global;

/// Lists a GPL source. Of one that is refused the lines before the refused one are written, and then its fault line.
/// All memory is taken before the first byte is written.
pub(crate) fn glist<O: Sink, E: Sink>(
    alloc: Global,
    input: &[u8],
    out: &mut O,
    err: &mut E,
) -> Status
    requires { length input.now ≤ largest_input }
    ensures { EndsAnswered (λ report. report ≡ listing_report (listing_of input.now)) (record {
      out = O.state out.old;
      out' = O.state out.new;
      err = E.state err.old;
      err' = E.state err.new;
    }) result }
{
    match list_source(alloc, input) {
        Ok(listing) => finish_listing(&listing, out, err),
        Err(error) => finish(&Err(error.into()), out, err),
    }
}

/// Writes a listing, and then the line that is refused, if one is.
fn finish_listing<O: Sink, E: Sink>(listing: &GplListing, out: &mut O, err: &mut E) -> Status
    ensures { EndsWith (record {
      out = O.state out.old;
      out' = O.state out.new;
      err = E.state err.old;
      err' = E.state err.new;
    }) (listing_report (model_of_listing listing.now)) result }
{
    if listing.write(out).is_err() {
        return Status::WriteFault;
    }
    match listing.refused() {
        Some(refused) => end_with_line(
            gpl_line(refused.line, refused.cause).as_slice(),
            Status::Refused,
            err,
        ),
        None => Status::Done,
    }
}
