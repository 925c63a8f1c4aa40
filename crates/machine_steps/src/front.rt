//! The front of the line of an instruction.

ghost use Rattle.std.specs.Prelude.{◌≡◌, ◌≤◌, ◌+◌, ◌++◌};
ghost use Rattle.arrayvec.specs.ArrayVec.{array_vec_len};
ghost use Rattle.console_defs.specs.Memory.{word_read};
ghost use Rattle.machine_change_defs.specs.Lines as spec;

use asm_forms::print_instr;
use asm_text::word_digits;
use console_bus::Bus;
use report_lines::{Line, append, append_right, append_word};
use tms_step::Machine;

/// The front of the line of the instruction that a machine is about to execute: its number, its address, the workspace
/// pointer and the status before it, and its text.
#[tactic(auto, using(std::proofs::Common::append_assoc), unfolding(machine_change_defs::specs::Lines::step_front))]
pub(crate) fn step_front(machine: &Machine, number: u32) -> Line
    ensures { result.items ≡ spec.step_front number machine.now }
{
    let mut line = Line::new();
    append_right(&mut line, 6, number);
    line.push(b' ');
    append_processor(&mut line, machine);
    line.push(b' ');
    append_instruction(&mut line, machine);
    line
}

/// Appends the program counter, the workspace pointer and the status.
#[tactic(auto, using(std::proofs::Common::append_assoc), unfolding(machine_change_defs::specs::Lines::processor_text))]
fn append_processor(line: &mut Line, machine: &Machine)
    requires { array_vec_len line.old + 19 ≤ 192 }
    ensures bytes { line.new.items ≡ line.old.items ++ spec.processor_text machine.now.cpu }
    ensures len { array_vec_len line.new ≡ array_vec_len line.old + 19 }
{
    append_word(line, machine.pc());
    append(line, b" WP");
    append(line, &word_digits(machine.wp()));
    append(line, b" ST");
    append(line, &word_digits(machine.st()));
}

/// Appends the text of the instruction at the program counter.
#[tactic(auto, unfolding(machine_change_defs::specs::Lines::instruction_text))]
fn append_instruction(line: &mut Line, machine: &Machine)
    requires { array_vec_len line.old + 64 ≤ 192 }
    ensures { line.new.items ≡ line.old.items ++ spec.instruction_text machine.now.cpu }
{
    let words = code_words(machine.bus(), machine.pc());
    let (text, _) = print_instr(&words, machine.pc());
    append(line, text.as_bytes());
}

/// The words from an address on, of which an instruction has three at most.
fn code_words(bus: &Bus, at: u16) -> [u16; 3]
    ensures { result ≡ spec.code_words bus.now at }
{
    [
        word_at(bus, at),
        word_at(bus, at.wrapping_add(2)),
        word_at(bus, at.wrapping_add(4)),
    ]
}

/// The word that holds an address, or 0 at a port.
fn word_at(bus: &Bus, at: u16) -> u16
    ensures { result ≡ spec.read_word (word_read bus.now at) }
{
    match bus.word_at(at) {
        Ok(word) => word,
        Err(_) => 0,
    }
}
