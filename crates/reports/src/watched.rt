//! A program whose items were watched, and how it is written.

ghost use Rattle.std.specs.Prelude.{◌≡◌, [], ◌∷◌};
ghost use Rattle.bench_io.specs.Written.{Written};
ghost use Rattle.reports.specs.Watched.{end_lines, found_line, watched_lines, watched_status};

use crate::hit::{hit_line, no_hit_line};
use bench_io::{Failed, Sink, put_chunk};
use gpl_run::Session;
use report_defs::Status;
use trace_dump::{program_status, put_state, put_stop};
use watch_defs::Found;

/// A program whose items were watched: what was found, and the program as it was left.
#[derive(Drop)]
pub struct Watched {
    /// What was found.
    pub found: Found,
    /// The program after the hit, or at its end or the limit.
    pub session: Session,
}

impl Watched {
    /// The status of the report: after a hit it is done, else the status of the program's end.
    pub(crate) fn status(&self) -> Status
        ensures { result ≡ watched_status self.now.found self.now.session }
    {
        match self.found {
            Found::Hit { .. } => Status::Done,
            Found::None => program_status(self.session.ended()),
        }
    }
}

/// Writes the report line by line: after the line of a hit the state and the dump of its step; else a line that says
/// so, how the program ended, if it did, its state and the dump. It takes no memory.
pub(crate) fn put_watched<O: Sink>(watched: &Watched, out: &mut O) -> Result<(), Failed>
    ensures { Written result (O.state out.old) (O.state out.new) (watched_lines watched.now.found watched.now.session) }
{
    put_found(watched.found, out)?;
    put_end(watched, out)?;
    put_state(&watched.session, out)
}

/// Writes what was found.
fn put_found<O: Sink>(found: Found, out: &mut O) -> Result<(), Failed>
    ensures { Written result (O.state out.old) (O.state out.new) (found_line found ∷ []) }
{
    match found {
        Found::Hit {
            step,
            from,
            item,
            change,
        } => { put_chunk(out, hit_line(step, from, item, change).as_slice()) }
        Found::None => put_chunk(out, no_hit_line()),
    }
}

/// Writes how a program ended, if it did and nothing was found.
#[tactic(auto, using(bench_io::proofs::Writes::wrote_none))]
fn put_end<O: Sink>(watched: &Watched, out: &mut O) -> Result<(), Failed>
    ensures { Written result (O.state out.old) (O.state out.new) (end_lines watched.now.found watched.now.session) }
{
    match watched.found {
        Found::Hit { .. } => Ok(()),
        Found::None => put_stop(&watched.session, out),
    }
}
