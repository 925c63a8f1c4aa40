//! A GPL program whose steps are shown, which is written while it runs.

ghost use Rattle.std.specs.Prelude.{◌≡◌, ◌<◌, ◌≤◌, ℕ, None};
ghost use Rattle.gpl_run.specs.Sessions as sessions;
ghost use Rattle.report_defs.specs.Trace.{seen_state};
ghost use Rattle.gpl_counts.specs.Counts.{most_shown_steps};
ghost use Rattle.trace_dump.specs.Plays.{Plays};
ghost use Rattle.bench_commands.specs.Traced.{CanTrace, EndsTrace};

use bench_io::{Failed, Sink};
use gpl_run::Session;
use report_defs::Status;
use reports::{Report, finish};
use std::marker::Brand;
use std::sync::ledger::{Blank, Ledger};
use tms_step::Steps;
use trace_dump::{Seen, StepLine, play};

/// A GPL program that is before its first step, what is seen of it, and how many steps are to be made at most.
#[derive(Drop)]
pub struct Trace {
    pub(crate) session: Session,
    pub(crate) seen: Seen,
    pub(crate) limit: u32,
}

impl Trace {
    /// Runs the program and writes the line of each step once it is made; then the program's end, its last state and
    /// the dump. The status is the one of the program's end, or of a write fault.
    pub fn finish<T: StepLine, O: Sink, E: Sink>(
        self,
        line: &mut T,
        out: &mut O,
        err: &mut E,
    ) -> Status
        requires { CanTrace self }
        ensures { EndsTrace T.shows (record {
          out = O.state out.old;
          out' = O.state out.new;
          err = E.state err.old;
          err' = E.state err.new;
        }) self result }
    {
        let Trace {
            mut session,
            mut seen,
            limit,
        } = self;
        let blank = Blank::new(1);
        if play_session::<T, O, Brand>(&mut session, &mut seen, line, limit, out, blank).is_err() {
            return Status::WriteFault;
        }
        session.machine().holds_bounds();
        finish(&Ok(Report::Program(session)), out, err)
    }
}

/// Runs a program that is running, and writes the lines of its steps.
fn play_session<T: StepLine, O: Sink, L: Ledger>(
    session: &mut Session,
    seen: &mut Seen,
    line: &mut T,
    limit: u32,
    out: &mut O,
    blank: Blank,
) -> Result<u32, Failed>
    requires name { blank.name ≡ L.name }
    requires parts { blank.parts ≡ L.parts }
    requires some { 0 < L.parts }
    requires running { session.old.ended ≡ None }
    requires kept { seen.old ≡ seen_state (sessions.gpl_state_of session.old) }
    requires limit { limit ≤ most_shown_steps }
    ensures { (before : ℕ) × (after : ℕ)
        × Plays T.shows limit session.old session.new before after (O.state out.old) (O.state out.new) result }
{
    let mut steps = Steps::<L>::new(blank);
    play(session, seen, line, limit, out, &mut steps)
}
