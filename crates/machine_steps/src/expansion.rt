//! The expansion memory after a run.

ghost use Rattle.std.specs.Prelude.{◌≡◌, length};
ghost use Rattle.bench_io.specs.Written.{Written};
ghost use Rattle.machine_change_defs.specs.Lines as spec;

use bench_io::{Failed, Sink, put_chunk};
use console_bus::Bus;
use report_lines::put_rows;

/// Writes both parts of the expansion memory in rows. Each line is written by one call, and no memory is taken.
///
/// # Errors
/// `Failed` means that a line could not be written. The sink then got a front of the lines, and its count of faults
/// rose.
#[tactic(auto, using(bench_io::proofs::Writes::written_more, bench_io::proofs::Writes::missed_early))]
pub fn put_expansion<O: Sink>(bus: &Bus, out: &mut O) -> Result<(), Failed>
    ensures { Written result (O.state out.old) (O.state out.new) (spec.expansion_lines bus.now) }
{
    put_low(bus.low_expansion(), out)?;
    put_high(bus.high_expansion(), out)
}

/// Writes the low expansion memory.
#[tactic(auto, unfolding(machine_change_defs::specs::Lines::low_lines), using(bench_io::proofs::Writes::written_after, bench_io::proofs::Writes::missed_at))]
fn put_low<O: Sink>(bytes: &[u8], out: &mut O) -> Result<(), Failed>
    requires { length bytes.now ≡ 8192 }
    ensures { Written result (O.state out.old) (O.state out.new) (spec.low_lines bytes.now) }
{
    put_chunk(out, b"low\n")?;
    put_rows(0x2000, bytes, out)
}

/// Writes the high expansion memory.
#[tactic(auto, unfolding(machine_change_defs::specs::Lines::high_lines), using(bench_io::proofs::Writes::written_after, bench_io::proofs::Writes::missed_at))]
fn put_high<O: Sink>(bytes: &[u8], out: &mut O) -> Result<(), Failed>
    requires { length bytes.now ≡ 24576 }
    ensures { Written result (O.state out.old) (O.state out.new) (spec.high_lines bytes.now) }
{
    put_chunk(out, b"high\n")?;
    put_rows(0xA000, bytes, out)
}
