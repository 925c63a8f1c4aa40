//! How a run of the machine is written.

ghost use Rattle.std.specs.Prelude.{◌≡◌, ◌≤◌, [], ◌++◌, length, codes};
ghost use Rattle.source_defs.specs.Digits.{hex_word};
ghost use Rattle.bench_io.specs.Written.{Written};
ghost use Rattle.report_defs.specs.Exec as spec;

use bench_io::{Failed, Sink, put_chunk};
use console_defs::RunEnd;
use report_defs::Status;
use report_lines::{Line, append, append_word};
use tms_step::Machine;
use trace_dump::dump;

/// Writes how a run ended, and the machine that it left. Each line is written by one call, and no memory is taken.
///
/// # Errors
/// `Failed` means that a line could not be written. The sink then got a front of the lines, and its count of faults
/// rose.
pub fn put_execution<O: Sink>(out: &mut O, ending: RunEnd, machine: &Machine) -> Result<(), Failed>
    ensures { Written result (O.state out.old) (O.state out.new) (spec.exec_lines ending machine.now) }
{
    put_chunk(out, end_line(ending).as_slice())?;
    dump(machine, out)
}

/// The line that says how a run ended.
fn end_line(ending: RunEnd) -> Line
    ensures { result.items ≡ spec.end_line ending }
{
    let mut line = Line::new();
    match ending {
        RunEnd::Limit => append(&mut line, b"end limit\n"),
        RunEnd::SelfJump => append(&mut line, b"end self jump\n"),
        RunEnd::Refused(address) => append_stop(&mut line, b"end refused ", address),
        RunEnd::Port(address) => append_stop(&mut line, b"end port ", address),
        RunEnd::Reached => append(&mut line, b"end reached\n"),
    }
    line
}

/// Appends words, an address and a line feed to an empty line.
#[tactic(auto, using(std::proofs::Common::append_assoc))]
fn append_stop(line: &mut Line, words: &[u8], address: u16)
    requires empty { line.old.items ≡ [] }
    requires short { length words.now ≤ 20 }
    ensures { line.new.items ≡ words.now ++ (hex_word address ++ codes "\n") }
{
    append(line, words);
    append_word(line, address);
    line.push(b'\n');
}

/// The status of a run's report: a machine that stopped has its own.
pub fn end_status(ending: RunEnd) -> Status
    ensures { result ≡ spec.end_status ending }
{
    match ending {
        RunEnd::Refused(_) | RunEnd::Port(_) => Status::Stopped,
        RunEnd::Limit | RunEnd::SelfJump | RunEnd::Reached => Status::Done,
    }
}
