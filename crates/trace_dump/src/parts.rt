//! A dump, part by part.

ghost use Rattle.std.specs.Prelude.{◌≡◌, ◌≤◌, ◌+◌, [], ◌∷◌, ◌++◌, length};
ghost use Rattle.arrayvec.specs.ArrayVec.{array_vec_len};
ghost use Rattle.report_defs.specs.Dump as spec;
ghost use Rattle.report_defs.specs.Rows.{rows_lines};
ghost use Rattle.bench_io.specs.Written.{Written};

use crate::workspace::put_workspace;
use bench_io::{Failed, Sink, put_chunk};
use grom_counter::Grom;
use report_lines::{Line, append, append_count, append_spaced, append_word, put_rows};
use step_changes::video_registers;
use tms_step::Machine;
use vdp_ports::Vdp;

/// Writes what a machine looks like: the scratchpad and the video memory in rows, the registers of the video processor,
/// the counter of the GROMs, the count of executed instructions with the program counter, the workspace pointer and the
/// status, and the sixteen registers of the workspace, or `R none` where it does not lie in memory that can be shown.
/// Each line is written by one call, and no memory is taken.
///
/// # Errors
/// `Failed` comes where a line could not be written. The sink then got a front of the dump, and its count of faults
/// rose.
#[tactic(auto, using(bench_io::proofs::Writes::written_more, bench_io::proofs::Writes::missed_early, std::proofs::Common::append_assoc))]
pub fn dump<O: Sink>(machine: &Machine, out: &mut O) -> Result<(), Failed>
    ensures { Written result (O.state out.old) (O.state out.new) (spec.dump_lines machine.now) }
{
    put_memories(machine, out)?;
    put_registers(machine, out)
}

/// Writes the scratchpad and the video memory.
#[tactic(auto, using(bench_io::proofs::Writes::written_more, bench_io::proofs::Writes::missed_early))]
fn put_memories<O: Sink>(machine: &Machine, out: &mut O) -> Result<(), Failed>
    ensures { let memory = machine.now.cpu.memory in
        Written result (O.state out.old) (O.state out.new)
        (spec.pad_lines memory.scratchpad ++ spec.vdp_lines memory.vdp) }
{
    put_pad(machine.bus().pad(), out)?;
    put_vdp(machine.bus().vdp(), out)
}

/// Writes the counter of the GROMs, and what the processor counts and holds.
#[tactic(auto, using(bench_io::proofs::Writes::written_after, bench_io::proofs::Writes::missed_at))]
fn put_registers<O: Sink>(machine: &Machine, out: &mut O) -> Result<(), Failed>
    ensures { Written result (O.state out.old) (O.state out.new)
        (spec.grom_line machine.now.cpu.memory.grom ∷ spec.count_line machine.now
        ∷ spec.workspace_lines machine.now.cpu) }
{
    put_chunk(out, grom_line(machine.bus().grom()).as_slice())?;
    put_processor(machine, out)
}

/// Writes the count of executed instructions, the processor's own registers and the registers of its workspace.
#[tactic(auto, using(bench_io::proofs::Writes::written_after, bench_io::proofs::Writes::missed_at))]
fn put_processor<O: Sink>(machine: &Machine, out: &mut O) -> Result<(), Failed>
    ensures { Written result (O.state out.old) (O.state out.new)
        (spec.count_line machine.now ∷ spec.workspace_lines machine.now.cpu) }
{
    put_chunk(out, count_line(machine).as_slice())?;
    put_workspace(machine, out)
}

/// Writes the scratchpad in rows.
#[tactic(auto, unfolding(report_defs::specs::Dump::pad_lines), using(bench_io::proofs::Writes::written_after, bench_io::proofs::Writes::missed_at))]
fn put_pad<O: Sink>(scratchpad: &[u8], out: &mut O) -> Result<(), Failed>
    requires { length scratchpad.now ≡ 256 }
    ensures { Written result (O.state out.old) (O.state out.new) (spec.pad_lines scratchpad.now) }
{
    put_chunk(out, b"pad\n")?;
    put_rows(0x8300, scratchpad, out)
}

/// Writes the video memory in rows, and the registers of the video processor.
#[tactic(auto, unfolding(report_defs::specs::Dump::vdp_lines), using(bench_io::proofs::Writes::written_after, bench_io::proofs::Writes::missed_at))]
fn put_vdp<O: Sink>(vdp: &Vdp, out: &mut O) -> Result<(), Failed>
    ensures { Written result (O.state out.old) (O.state out.new) (spec.vdp_lines vdp.now) }
{
    put_chunk(out, b"vdp\n")?;
    put_vdp_state(vdp, out)
}

/// Writes the video memory in rows, and the line of the registers.
#[tactic(auto, using(bench_io::proofs::Writes::written_more, bench_io::proofs::Writes::missed_early))]
fn put_vdp_state<O: Sink>(vdp: &Vdp, out: &mut O) -> Result<(), Failed>
    ensures { Written result (O.state out.old) (O.state out.new)
        (rows_lines 0 vdp.now.memory ++ spec.vdp_registers_line vdp.now.registers ∷ []) }
{
    put_rows(0, vdp.memory(), out)?;
    put_chunk(out, vdp_registers_line(vdp).as_slice())
}

#[tactic(auto, using(std::proofs::Common::append_assoc), unfolding(report_defs::specs::Dump::vdp_registers_line))]
fn vdp_registers_line(vdp: &Vdp) -> Line
    ensures { result.items ≡ spec.vdp_registers_line vdp.now.registers }
{
    let mut line = Line::new();
    append(&mut line, b"regs");
    append_spaced(&mut line, &video_registers(vdp));
    line.push(b'\n');
    line
}

#[tactic(auto, using(std::proofs::Common::append_assoc), unfolding(report_defs::specs::Dump::grom_line))]
fn grom_line(grom: &Grom) -> Line
    ensures { result.items ≡ spec.grom_line grom.now }
{
    let mut line = Line::new();
    append(&mut line, b"grom ");
    append_word(&mut line, grom.counter());
    line.push(b'\n');
    line
}

/// The count of executed instructions and the processor's own registers.
#[tactic(auto, using(std::proofs::Common::append_assoc), unfolding(report_defs::specs::Dump::count_line))]
fn count_line(machine: &Machine) -> Line
    ensures { result.items ≡ spec.count_line machine.now }
{
    let mut line = Line::new();
    append(&mut line, b"count ");
    append_count(&mut line, machine.count());
    append_labelled(&mut line, b" PC ", machine.pc());
    append_labelled(&mut line, b" WP ", machine.wp());
    append_labelled(&mut line, b" ST ", machine.st());
    line.push(b'\n');
    line
}

/// Appends a word after a label.
#[tactic(auto, using(std::proofs::Common::append_assoc), unfolding(report_defs::specs::Dump::labelled_word))]
fn append_labelled(line: &mut Line, label: &[u8], word: u16)
    requires { array_vec_len line.old + length label.now + 5 ≤ 128 }
    ensures bytes { line.new.items ≡ line.old.items ++ spec.labelled_word label.now word }
    ensures len { array_vec_len line.new ≡ array_vec_len line.old + length label.now + 5 }
{
    append(line, label);
    append_word(line, word);
}
