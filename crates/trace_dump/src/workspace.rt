//! The sixteen registers of a workspace.

ghost use Rattle.std.specs.Prelude.{◌≡◌, ◌<◌, ◌≤◌, ◌+◌, ◌++◌, IsTrue, length};
ghost use Rattle.arrayvec.specs.ArrayVec.{array_vec_len};
ghost use Rattle.console_defs.specs.Machine.{has_workspace};
ghost use Rattle.report_defs.specs.Dump as spec;
ghost use Rattle.bench_io.specs.Written.{Written};

use bench_io::{Failed, Sink, put_chunk};
use report_lines::{Line, append, append_word};
use tms_step::Machine;

/// Writes the sixteen registers of the workspace, where it can be shown.
#[tactic(auto, unfolding(report_defs::specs::Dump::workspace_lines), using(bench_io::proofs::Writes::written_more))]
pub(crate) fn put_workspace<O: Sink>(machine: &Machine, out: &mut O) -> Result<(), Failed>
    ensures { Written result (O.state out.old) (O.state out.new) (spec.workspace_lines machine.now.cpu) }
{
    if !machine.has_workspace() {
        return put_chunk(out, b"R none\n");
    }
    put_chunk(out, registers_line(b"R0", machine, 0).as_slice())?;
    put_chunk(out, registers_line(b"R8", machine, 8).as_slice())
}

/// Eight registers from a number on, each after a blank, after the name of the first.
#[tactic(auto, using(std::proofs::Common::append_assoc), unfolding(report_defs::specs::Dump::registers_line))]
fn registers_line(name: &[u8], machine: &Machine, first: u8) -> Line
    requires workspace { IsTrue (has_workspace machine.now.cpu.wp) }
    requires first { first ≤ 8 }
    requires name { length name.now ≤ 2 }
    ensures { result.items ≡ spec.registers_line name.now machine.now.cpu first }
{
    let mut line = Line::new();
    append(&mut line, name);
    append_registers(&mut line, machine, first);
    line.push(b'\n');
    line
}

/// Appends eight registers.
fn append_registers(line: &mut Line, machine: &Machine, first: u8)
    requires workspace { IsTrue (has_workspace machine.now.cpu.wp) }
    requires first { first ≤ 8 }
    requires room { array_vec_len line.old ≤ 2 }
    ensures bytes { line.new.items ≡ line.old.items ++ spec.eight_registers machine.now.cpu first }
    ensures len { array_vec_len line.new ≡ array_vec_len line.old + 48 }
{
    for number in first..first + 8 {
        append_register(line, machine, number);
    }
}

/// Appends a register, after a blank.
fn append_register(line: &mut Line, machine: &Machine, number: u8)
    requires workspace { IsTrue (has_workspace machine.now.cpu.wp) }
    requires number { number < 16 }
    requires room { array_vec_len line.old + 6 ≤ 128 }
    ensures bytes { line.new.items ≡ line.old.items ++ spec.register_text machine.now.cpu number }
    ensures len { array_vec_len line.new ≡ array_vec_len line.old + 6 }
{
    line.push(b' ');
    append_word(line, machine.register(number));
}
