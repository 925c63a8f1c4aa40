//! Why nothing is reported, and how the errors of libraries are reported.

ghost use Rattle.std.specs.Prelude.{◌≡◌};
ghost use Rattle.memory_listing.specs.FaultLines.{line_of_link_error};
ghost use Rattle.bench_io.specs.Stream.{SinkState};
ghost use Rattle.reports.specs.Answers.{Ends, EndsByLine, error_answer};
ghost use Rattle.reports.specs.Answers.{asm_answer, gpl_answer, line_answer, read_answer, tag_answer};
ghost use Rattle.reports.specs.declared.command_error.CommandError.TheVariants as command_error;

use crate::faults::{fault_line, fault_status};
use asm_core::AsmError;
use bench_io::{Failed, ReadError, Sink, put_chunk};
use gpl_asm::GplError;
use gpl_run::BuildError;
use link_loader::LinkError;
use memory_listing::{link_line, tag_line};
use object_tags::TagError;
use report_defs::{Fault, Status};
use report_lines::{Line, asm_line, gpl_line};
use std::alloc::{AllocError, AllocFailed};

/// Why nothing is reported on standard output.
#[derive(Drop)]
pub enum CommandError {
    /// An input or a file is refused, which standard error reports by this line. It is the line and not the cause,
    /// since the cause of a link may hold a `Name`, which the definitions do not have.
    Refused(Line),
    /// A fault, whose line standard error gets.
    Fault(Fault),
    /// The input or the shelf failed.
    ReadFault,
    /// Memory ran out.
    Memory,
}

impl CommandError {
    /// Writes the line that reports it, if there is one, and gives the status that the program ends with. It takes no
    /// memory.
    pub(crate) fn finish<E: Sink>(&self, err: &mut E) -> Status
        ensures { (out : SinkState) → Ends (record {
          out = out;
          out' = out;
          err = E.state err.old;
          err' = E.state err.new;
        }) (error_answer self.now) result }
    {
        match self {
            CommandError::Refused(line) => end_with_line(line.as_slice(), Status::Refused, err),
            CommandError::Fault(fault) => end_with_line(
                fault_line(*fault).as_slice(),
                fault_status(*fault),
                err,
            ),
            CommandError::ReadFault => Status::ReadFault,
            CommandError::Memory => Status::Memory,
        }
    }
}

/// Writes a line by one call, and gives this status, or a write fault where the output failed. It takes no memory.
pub fn end_with_line<E: Sink>(line: &[u8], status: Status, err: &mut E) -> Status
    ensures { EndsByLine line.now status (E.state err.old) (E.state err.new) result }
{
    match put_chunk(err, line) {
        Ok(()) => status,
        Err(Failed) => Status::WriteFault,
    }
}

impl From<AllocError> for CommandError {
    ghost from_gives = { λ _ result. result ≡ command_error.Memory };

    fn from(_: AllocError) -> Self {
        CommandError::Memory
    }
}

impl<T: Drop> From<AllocFailed<T>> for CommandError {
    ghost from_gives = { λ _ result. result ≡ command_error.Memory };

    fn from(_: AllocFailed<T>) -> Self {
        CommandError::Memory
    }
}

impl From<BuildError> for CommandError {
    ghost from_gives = { λ _ result. result ≡ command_error.Memory };

    fn from(error: BuildError) -> Self {
        match error {
            BuildError::Memory => CommandError::Memory,
        }
    }
}

impl From<ReadError> for CommandError {
    ghost from_gives = { λ error result. error_answer result ≡ read_answer error };

    fn from(error: ReadError) -> Self {
        match error {
            ReadError::TooLarge => CommandError::Fault(Fault::TooLarge),
            ReadError::Fault => CommandError::ReadFault,
            ReadError::Memory => CommandError::Memory,
        }
    }
}

impl From<AsmError> for CommandError {
    ghost from_gives = { λ error result. error_answer result ≡ asm_answer error };

    fn from(error: AsmError) -> Self {
        match error {
            AsmError::At { line, cause } => CommandError::Refused(asm_line(line, cause)),
            AsmError::Memory => CommandError::Memory,
        }
    }
}

impl From<GplError> for CommandError {
    ghost from_gives = { λ error result. error_answer result ≡ gpl_answer error };

    fn from(error: GplError) -> Self {
        match error {
            GplError::At { line, cause } => CommandError::Refused(gpl_line(line, cause)),
            GplError::Memory => CommandError::Memory,
        }
    }
}

impl From<TagError> for CommandError {
    ghost from_gives = { λ error result. error_answer result ≡ tag_answer error };

    fn from(error: TagError) -> Self {
        match error {
            TagError::At { line, cause } => CommandError::Refused(tag_line(line, cause)),
            TagError::Memory => CommandError::Memory,
        }
    }
}

impl From<LinkError> for CommandError {
    ghost from_gives = { λ error result. error_answer result ≡ line_answer (line_of_link_error error) };

    fn from(error: LinkError) -> Self {
        match link_line(&error) {
            Ok(line) => CommandError::Refused(line),
            Err(AllocError) => CommandError::Memory,
        }
    }
}
