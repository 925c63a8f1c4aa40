//! One step: the instruction at the program counter is read and executed.
//!
//! The operations that programs make most are found by a few tests, and not by a `match` of many arms,
//! which is compiled into a table of jumps: on the machines where this was measured, a jump through a table takes half
//! as long as a whole step. What is found so is in functions that are not inlined into each other.
//! Inlined they become the table again. As one function that both loops of steps call, the step took a fifth to a third
//! more instructions of the host.
//!
//! What executes an instruction answers `Result<(), PortStop>` and no wider type, which has room in two registers of
//! the host. That there is no instruction is found before.

ghost use Rattle.std.specs.Prelude.{◌≡◌, OnErr, IsFalse};
ghost use Rattle.tms_defs.specs.Instructions.{HasRoom};
ghost use Rattle.console_defs.specs.Machine.{WhereStopped};
ghost use Rattle.console_defs.specs.Memory.{Memory, console};
ghost use Rattle.tms_defs.specs.Step.{executed, is_unsupported, step};
ghost use Rattle.tms_step.specs.Stops.{left_by};
ghost use Rattle.tms_step.specs.Undo.{SameButPc};

use crate::cpu::Cpu;
use console_bus::Expansion;
use tms_defs::{BareOp, Instr, JumpOp, OneOp, PortStop, RegOp, StepEnd};
use tms_words::decode;

impl Cpu {
    /// One step: the instruction at the program counter is read and executed. Where it executes no instruction, nothing
    /// has changed. The word is looked for first in the given part of the expansion memory.
    #[inline(always)]
    pub(crate) fn step(&mut self, first: Expansion) -> StepEnd
        ensures step { (result, self.new) ≡ step Memory console self.old }
        ensures stopped { WhereStopped result (self.new ≡ self.old) }
    {
        let start = self.pc;
        let word = match self.code_word(first) {
            Ok(word) => word,
            Err(stop) => return StepEnd::Port(stop.0),
        };
        let Some(instr) = decode(word) else {
            self.pc = start;
            return StepEnd::Refused(start);
        };
        if is_unsupported(&instr) {
            self.pc = start;
            return StepEnd::Refused(start);
        }
        match self.executed(instr) {
            Ok(()) => StepEnd::Done(word),
            Err(stop) => {
                self.pc = start;
                StepEnd::Port(stop.0)
            }
        }
    }

    /// An instruction is executed; the program counter is after its first word (TMS9900 data manual,
    /// "Instructions").
    #[inline(always)]
    pub(crate) fn executed(&mut self, instr: Instr) -> Result<(), PortStop>
        requires room { HasRoom instr }
        requires executes { IsFalse (is_unsupported instr) }
        ensures value { left_by result (λ _. self.new) ≡ executed Memory console instr self.old }
        ensures stopped { OnErr result (SameButPc self.old self.new) }
    {
        match instr {
            Instr::Two { op, byte, dst, src } => self.two_operands(op, byte, dst, src),
            Instr::Reg { op, d, src } => self.with_source(op, d, src),
            Instr::Shift { op, count, w } => self.shift(op, count, w),
            Instr::One { op, at } => self.one_operand(op, at),
            Instr::Jump { op, disp } => {
                self.jump(op, disp);
                Ok(())
            }
            Instr::Imm { op, w } => self.imm(op, w),
            Instr::Bare { op } => self.bare(op),
        }
    }
}

/// The operation is not executed here: one of the communication register unit, of external devices, or the execution
/// of a word elsewhere.
#[inline(always)]
fn is_unsupported(instr: &Instr) -> bool
    ensures { result ≡ is_unsupported instr.now }
{
    matches!(
        instr,
        Instr::Reg {
            op: RegOp::LDCR | RegOp::STCR,
            ..
        } | Instr::One { op: OneOp::X, .. }
            | Instr::Jump {
                op: JumpOp::SBO | JumpOp::SBZ | JumpOp::TB,
                ..
            }
            | Instr::Bare {
                op: BareOp::IDLE | BareOp::RSET | BareOp::CKON | BareOp::CKOF | BareOp::LREX,
            }
    )
}
