//! Runs of a piece.

ghost use Rattle.std.specs.Prelude.{◌≡◌, ◌+◌, eqb};
ghost use Rattle.std.specs.List.{list_any};
ghost use Rattle.console_defs.specs.Machine.{machine_step};
ghost use Rattle.interp_defs.specs.Runs as runs;
ghost use Rattle.tms_step.specs.Turns.{executed_by};
ghost use Rattle.sim_view.specs.Running as spec;

use native_interp::{GEXIT, GSTEP, GSTOP};
use std::sync::ledger::Ledger;
use tms_step::{Expansion, Machine, StepEnd, Steps};

/// The most instructions that a piece has.
pub const PIECE: u64 = 16;

/// The code of B at the address in a register, without the number of the register.
const BRANCH_BY_REGISTER: u16 = 0x045;

/// Runs a piece of the interpreter: at most 16 steps, fewer where a branch by a register was executed, or
/// where the machine reaches GSTEP, GSTOP, GEXIT or one of the ends of the piece. A step that
/// executes no instruction ends it too.
pub fn run_piece<L: Ledger>(machine: &mut Machine, steps: &mut Steps<L>, ends: &[u16])
    ensures { spec.RunsPiece ends.now machine.old machine.new steps.old steps.new }
{
    run_at_most(machine, steps, ends, PIECE);
    machine.holds_bounds();
}

/// Steps up to the last of a piece, and no more than a given number.
fn run_at_most<L: Ledger>(machine: &mut Machine, steps: &mut Steps<L>, ends: &[u16], most: u64)
    ensures left { machine.new ≡ (spec.ran ends.now most machine.old).left }
    ensures count { steps.new ≡ steps.old + (spec.ran ends.now most machine.old).count }
{
    let mut left = most;
    while left > 0 {
        left -= 1;
        if step_is_last(machine, steps, ends) {
            return;
        }
    }
}

/// Makes a step, which is counted where it executes an instruction. Is it the last of the piece?
fn step_is_last<L: Ledger>(machine: &mut Machine, steps: &mut Steps<L>, ends: &[u16]) -> bool
    ensures left { machine.new ≡ (machine_step machine.old).1 }
    ensures last { let stepped = machine_step machine.old in result ≡ spec.is_last ends.now stepped.0 stepped.1.cpu.pc }
    ensures count { steps.new ≡ steps.old + executed_by (machine_step machine.old).0 }
{
    match machine.step_from(Expansion::Low) {
        StepEnd::Done(word) => {
            steps.tick();
            ends_piece(ends, word, machine.pc())
        }
        StepEnd::Refused(_) | StepEnd::Port(_) => true,
    }
}

/// The piece ends where the instruction with a word led to an address.
fn ends_piece(ends: &[u16], word: u16, pc: u16) -> bool
    ensures { result ≡ spec.ends_piece ends.now word pc }
{
    word / 16 == BRANCH_BY_REGISTER || is_end(pc) || is_among(ends, pc)
}

/// The address is one of the interpreter's three ends.
fn is_end(pc: u16) -> bool
    ensures { result ≡ runs.is_turn_end pc }
{
    matches!(pc, GSTEP | GSTOP | GEXIT)
}

/// The address is one of those listed.
fn is_among(ends: &[u16], pc: u16) -> bool
    ensures { result ≡ list_any (eqb pc) ends.now }
{
    ends.iter().any(|end| pc == *end)
}
