//! How a GPL program ended, its state, and the machine that ran it.

ghost use Rattle.std.specs.Prelude.{◌≡◌};
ghost use Rattle.bench_io.specs.Written.{Written};
ghost use Rattle.gpl_run.specs.Sessions.{gpl_state_of};
ghost use Rattle.report_defs.specs.Program as spec;

use crate::parts::dump;
use crate::state::{state_line, stop_line};
use bench_io::{Failed, Sink, put_chunk};
use gpl_run::Session;
use gpl_step_defs::Reason;
use report_defs::Status;

/// Writes how a program ended, if it did. It takes no memory.
#[tactic(auto, using(bench_io::proofs::Writes::wrote_none))]
pub fn put_stop<O: Sink>(session: &Session, out: &mut O) -> Result<(), Failed>
    ensures { Written result (O.state out.old) (O.state out.new)
        (spec.stop_lines session.now.ended (gpl_state_of session.now).pc) }
{
    match session.ended() {
        Some(reason) => put_chunk(out, stop_line(reason, session.pc()).as_slice()),
        None => Ok(()),
    }
}

/// Writes the state of a program, and the dump of the machine that runs it. It takes no memory.
pub fn put_state<O: Sink>(session: &Session, out: &mut O) -> Result<(), Failed>
    ensures { Written result (O.state out.old) (O.state out.new)
        (spec.state_lines (gpl_state_of session.now) session.now.machine) }
{
    put_chunk(out, state_line(session).as_slice())?;
    dump(session.machine(), out)
}

/// The status of a program's end: one that was stopped has its own.
pub fn program_status(ended: Option<Reason>) -> Status
    ensures { result ≡ spec.program_status ended }
{
    match ended {
        None | Some(Reason::Exit) => Status::Done,
        Some(Reason::Opcode | Reason::Cell | Reason::Stack | Reason::Length | Reason::Register) => {
            Status::Stopped
        }
    }
}
