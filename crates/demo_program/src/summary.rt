//! The summary of the program's run.

ghost use Rattle.std.specs.Prelude.{◌≡◌, ◌≤◌, length, map};
ghost use Rattle.bench_io.specs.Written.{Written};
ghost use Rattle.interp_defs.specs.Match.{shown_by};
ghost use Rattle.base_defs.specs.Lists as plain;
ghost use Rattle.report_defs.specs.Summary as spec;

use bench_io::{Failed, Sink};
use gpl_step_defs::{Reason, VISIBLE_CELLS};
use lane_scan::sum_bytes;
use report_defs::Summary;
use report_lines::{Line, append_count, line_of, put_lines};
use tms_step::Machine;

/// The summary of a program that was made from a number and whose image has a given number of bytes: how many of its
/// steps were made, it ended for a reason, if it did, and this is the machine that ran it.
pub fn summarize(
    number: u32,
    image: u64,
    steps: u32,
    ended: Option<Reason>,
    machine: &Machine,
) -> Summary
    ensures { result ≡ spec.summary_of number image
        (record { done = steps; last = shown_by machine.now.cpu.memory; stop = ended }) machine.now }
{
    Summary {
        number,
        image,
        steps,
        pad: sum_of_cells(machine),
        vdp: sum_bytes(machine.bus().vdp().memory()),
        ended,
        count: machine.count(),
    }
}

/// The sum of the cells that a GPL program sees.
fn sum_of_cells(machine: &Machine) -> u64
    ensures { result ≡ plain.sum_bytes (shown_by machine.now.cpu.memory).cells }
{
    sum_bytes(&machine.bus().pad()[..usize::from(VISIBLE_CELLS)])
}

/// Writes a summary, each of its lines by one call. No memory is taken.
///
/// # Errors
/// `Failed` comes where a line could not be written. The sink then got a front of the lines, and its count of faults
/// rose.
pub fn put_summary<O: Sink>(summary: Summary, out: &mut O) -> Result<(), Failed>
    ensures { Written result (O.state out.old) (O.state out.new) (spec.summary_lines summary) }
{
    put_lines(&summary_lines(summary), out)
}

/// The lines of a summary.
fn summary_lines(summary: Summary) -> [Line; 7]
    ensures { map (λ line. line.items) result ≡ spec.summary_lines summary }
{
    [
        counted_line(b"demo ", u64::from(summary.number)),
        counted_line(b"image ", summary.image),
        counted_line(b"steps ", u64::from(summary.steps)),
        counted_line(b"pad ", summary.pad),
        counted_line(b"vdp ", summary.vdp),
        ended_line(summary.ended),
        counted_line(b"count ", summary.count),
    ]
}

/// A label, and a number in decimal digits.
#[tactic(auto, using(std::proofs::Common::append_assoc), unfolding(report_defs::specs::Summary::counted_line))]
fn counted_line(label: &[u8], count: u64) -> Line
    requires { length label.now ≤ 16 }
    ensures { result.items ≡ spec.counted_line label.now count }
{
    let mut line = line_of(label);
    append_count(&mut line, count);
    line.push(b'\n');
    line
}

/// The line that says why a program ended.
fn ended_line(ended: Option<Reason>) -> Line
    ensures { result.items ≡ spec.ended_line ended }
{
    line_of(ended_text(ended))
}

/// The text of why a program ended, with its line feed.
fn ended_text(ended: Option<Reason>) -> &'static [u8]
    ensures text { result.now ≡ spec.ended_line ended }
    ensures short { length result.now ≤ 8 }
{
    match ended {
        None => b"limit\n",
        Some(Reason::Exit) => b"exit\n",
        Some(Reason::Opcode) => b"stop 1\n",
        Some(Reason::Cell) => b"stop 2\n",
        Some(Reason::Stack) => b"stop 3\n",
        Some(Reason::Length) => b"stop 4\n",
        Some(Reason::Register) => b"stop 5\n",
    }
}
