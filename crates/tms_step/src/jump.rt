//! The jumps: which condition of the status each takes, and where it leads.

ghost use Rattle.std.specs.Prelude.{◌≡◌, ◌≢◌, Some};
ghost use Rattle.tms_defs.specs.Words.{even};
ghost use Rattle.tms_defs.specs.Accesses.{Gives};
ghost use Rattle.console_defs.specs.Memory.{Memory};
ghost use Rattle.tms_defs.specs.Jumps.{jump_target, condition};
ghost use Rattle.tms_defs.specs.Step.{jump};
ghost use Rattle.tms_defs.specs.declared.instruction.JumpOp.TheVariants.{JMP, JEQ, JNE, SBO, SBZ, TB};

use crate::cpu::Cpu;
use tms_defs::{JumpOp, Status};

impl Cpu {
    /// A jump; the program counter is at the next instruction (TMS9900 data manual, "Jump instructions").
    #[inline(always)]
    pub(crate) fn jump(&mut self, op: JumpOp, disp: i8)
        requires set { op ≢ SBO }
        requires cleared { op ≢ SBZ }
        requires tested { op ≢ TB }
        ensures { Gives self.new ≡ jump op disp self.old }
    {
        if condition(op, self.status) {
            self.pc = jump_target(self.pc, disp);
        }
    }
}

/// The condition of a jump (TMS9900 data manual, "Jump instructions"). Those that programs make most are found first,
/// by tests, and not by a table of jumps (see `step`).
#[inline(always)]
fn condition(op: JumpOp, status: Status) -> bool
    requires set { op ≢ SBO }
    requires cleared { op ≢ SBZ }
    requires tested { op ≢ TB }
    ensures { Some result ≡ condition op status }
{
    if op == JumpOp::JMP {
        true
    } else if op == JumpOp::JEQ {
        status.flags.eq
    } else if op == JumpOp::JNE {
        !status.flags.eq
    } else {
        other_condition(op, status)
    }
}

/// The condition of one of the other jumps.
#[inline(never)]
fn other_condition(op: JumpOp, status: Status) -> bool
    requires jump { op ≢ JMP }
    requires equal { op ≢ JEQ }
    requires not_equal { op ≢ JNE }
    requires set { op ≢ SBO }
    requires cleared { op ≢ SBZ }
    requires tested { op ≢ TB }
    ensures { Some result ≡ condition op status }
{
    let flags = status.flags;
    match op {
        JumpOp::JLT => !flags.agt && !flags.eq,
        JumpOp::JLE => !flags.lgt || flags.eq,
        JumpOp::JHE => flags.lgt || flags.eq,
        JumpOp::JGT => flags.agt,
        JumpOp::JNC => !flags.c,
        JumpOp::JOC => flags.c,
        JumpOp::JNO => !flags.ov,
        JumpOp::JL => !flags.lgt && !flags.eq,
        JumpOp::JH => flags.lgt && !flags.eq,
        JumpOp::JOP => status.op,
        JumpOp::JMP | JumpOp::JEQ | JumpOp::JNE | JumpOp::SBO | JumpOp::SBZ | JumpOp::TB =>
            unreachable!(),
    }
}

/// The address a number of words from another one, in 16 bits (TMS9900 data manual, "Jump instructions").
#[inline(always)]
#[tactic(auto, using(crate::proofs::Jumps::even_target))]
fn jump_target(pc: u16, disp: i8) -> u16
    requires { even pc ≡ pc }
    ensures target { result ≡ jump_target pc disp }
    ensures even { even result ≡ result }
{
    let bytes = 2 * disp as i16;
    pc.wrapping_add(bytes.cast_unsigned())
}
