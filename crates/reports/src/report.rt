//! A report, and how it is written.

ghost use Rattle.std.specs.Prelude.{◌≡◌};
ghost use Rattle.bench_io.specs.Stream.{SinkState};
ghost use Rattle.bench_io.specs.Written.{Written};
ghost use Rattle.gpl_run.specs.Sessions.{gpl_state_of};
ghost use Rattle.report_defs.specs.GromListing.{image_listing};
ghost use Rattle.report_defs.specs.Program as programs;
ghost use Rattle.report_defs.specs.Report as spec;
ghost use Rattle.reports.specs.Made.{model_of_report, own_status, pieces_of};
ghost use Rattle.reports.specs.Outputs.{EndsWith};

use crate::execution::{end_status, put_execution};
use crate::listing::Listing;
use crate::watched::{Watched, put_watched};
use bench_io::{Failed, Sink, put_chunk};
use console_defs::RunEnd;
use demo_program::put_summary;
use gpl_disasm::disassemble;
use gpl_forms::GromImage;
use gpl_run::Session;
use link_loader::Linked;
use memory_listing::put_memory;
use object_tags::ObjectLine;
use report_defs::{Status, Summary};
use report_lines::put_lines;
use tms_step::Machine;
use trace_dump::{program_status, put_state, put_stop};

/// A report of any command, made and not yet written.
#[derive(Drop)]
pub enum Report {
    /// Object text, whose lines go to standard output, each by one call.
    Object(Vec<ObjectLine>),
    /// An image, whose bytes go to standard output by one call.
    Image(GromImage),
    /// Raw bytes in memory, whose listing goes to standard output line by line.
    Listing(Listing),
    /// An image of GROM, whose listing goes to standard output line by line.
    Grom(GromImage),
    /// A run of the machine, whose end and whose dump go to standard output line by line.
    Execution {
        /// What ended the run.
        ending: RunEnd,
        /// The machine that it left.
        machine: Machine,
    },
    /// A GPL program that was run, whose end, state and dump go to standard output line by line.
    Program(Session),
    /// The summary of a program that was made from a number and run, which goes to standard output line by line.
    Demo(Summary),
    /// Linked memory, whose listing goes to standard output line by line.
    Memory(Linked),
    /// A program whose items were watched: what was found, else how it ended, and its state and the dump go to standard
    /// output line by line.
    Watched(Watched),
}

impl Report {
    /// Writes the report, and gives its status, or that the output failed. It takes no memory.
    pub(crate) fn finish<O: Sink>(&self, out: &mut O) -> Status
        ensures { (err : SinkState) → EndsWith (record {
          out = O.state out.old;
          out' = O.state out.new;
          err = err;
          err' = err;
        }) (model_of_report self.now) result }
    {
        match self.write(out) {
            Ok(()) => self.status(),
            Err(Failed) => Status::WriteFault,
        }
    }

    /// Writes the report.
    fn write<O: Sink>(&self, out: &mut O) -> Result<(), Failed>
        ensures { Written result (O.state out.old) (O.state out.new) (pieces_of self.now) }
    {
        match self {
            Report::Object(lines) => put_lines(lines.as_slice(), out),
            Report::Image(image) => put_image(out, image.written()),
            Report::Listing(listing) => listing.write(out),
            Report::Grom(image) => put_grom(image, out),
            Report::Execution { ending, machine } => put_execution(out, *ending, machine),
            Report::Program(session) => put_program(out, session),
            Report::Demo(summary) => put_summary(*summary, out),
            Report::Memory(linked) => put_memory(linked, out),
            Report::Watched(watched) => put_watched(watched, out),
        }
    }

    /// The status of the report.
    fn status(&self) -> Status
        ensures { result ≡ own_status self.now }
    {
        match self {
            Report::Object(_)
            | Report::Image(_)
            | Report::Listing(_)
            | Report::Grom(_)
            | Report::Memory(_) => Status::Done,
            Report::Execution { ending, .. } => end_status(*ending),
            Report::Program(session) => program_status(session.ended()),
            Report::Demo(summary) => program_status(summary.ended),
            Report::Watched(watched) => watched.status(),
        }
    }
}

/// Writes bytes by one call, or by none where there are none.
#[tactic(auto, using(bench_io::proofs::Writes::wrote_none))]
fn put_image<O: Sink>(out: &mut O, bytes: &[u8]) -> Result<(), Failed>
    ensures { Written result (O.state out.old) (O.state out.new) (spec.one_piece bytes.now) }
{
    if bytes.is_empty() {
        return Ok(());
    }
    put_chunk(out, bytes)
}

/// Writes the listing of an image.
fn put_grom<O: Sink>(image: &GromImage, out: &mut O) -> Result<(), Failed>
    ensures { Written result (O.state out.old) (O.state out.new) (image_listing image.now) }
{
    disassemble(image, out)
}

/// Writes how a GPL program ended, if it did; its state; and the machine that ran it.
fn put_program<O: Sink>(out: &mut O, session: &Session) -> Result<(), Failed>
    ensures { Written result (O.state out.old) (O.state out.new)
        (programs.program_lines session.now.ended (gpl_state_of session.now) session.now.machine) }
{
    put_stop(session, out)?;
    put_state(session, out)
}
