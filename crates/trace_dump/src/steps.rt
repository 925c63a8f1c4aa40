//! A program's steps, each with its line.

ghost use Rattle.std.specs.Prelude.{◌≡◌, ◌≤◌, None};
ghost use Rattle.gpl_run.specs.Sessions as sessions;
ghost use Rattle.report_defs.specs.Trace.{seen_state};
ghost use Rattle.gpl_counts.specs.Counts.{most_shown_steps};
ghost use Rattle.trace_dump.specs.Plays.{Plays};

use crate::line::trace_line;
use crate::seen::Seen;
use crate::step_line::StepLine;
use bench_io::{Failed, Sink, put_chunk};
use gpl_run::Session;
use interp_defs::Turn;
use std::sync::ledger::Ledger;
use tms_step::Steps;

/// Runs a program that is running up to its end, and no more than `limit` steps, which are up to 10,000,000, and writes
/// the line of each step, by one call, once it is made. The result is how many steps were made. What is kept in `seen`
/// is what the machine shows, before and after. No memory is taken.
///
/// # Errors
/// `Failed` comes where a line could not be written: the lines of the steps before it were, and a front of it. The
/// sink's count of faults rose; the program is running, and its last step is the one of the line that failed.
pub fn play<T: StepLine, O: Sink, L: Ledger>(
    session: &mut Session,
    seen: &mut Seen,
    line: &mut T,
    limit: u32,
    out: &mut O,
    steps: &mut Steps<L>,
) -> Result<u32, Failed>
    requires running { session.old.ended ≡ None }
    requires kept { seen.old ≡ seen_state (sessions.gpl_state_of session.old) }
    requires limit { limit ≤ most_shown_steps }
    ensures plays { Plays T.shows limit session.old session.new steps.old steps.new
        (O.state out.old) (O.state out.new) result }
    ensures kept { seen.new ≡ seen_state (sessions.gpl_state_of session.new) }
{
    session.holds_match();
    for made in 0..limit {
        line.begin(&trace_line(session, made + 1));
        if let Turn::Stopped(_) = session.next(steps) {
            return Ok(made);
        }
        line.end(seen, session.machine());
        put_chunk(out, line.as_bytes())?;
    }
    Ok(limit)
}
