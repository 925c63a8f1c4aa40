//! Instructions without an operand but a word that may follow.

ghost use Rattle.std.specs.Prelude.{◌≡◌, OnErr, IsFalse};
ghost use Rattle.console_defs.specs.Memory.{Memory, console};
ghost use Rattle.tms_defs.specs.Step.{is_unsupported, bare};
ghost use Rattle.tms_defs.specs.declared.instruction.BareOp.TheVariants.{RTWP};
ghost use Rattle.tms_defs.specs.declared.instruction.Instr.TheVariants.{Bare};
ghost use Rattle.tms_step.specs.Stops.{left_by};
ghost use Rattle.tms_step.specs.Undo.{SameButPc};

use crate::cpu::{Cpu, even};
use crate::status::status_at;
use tms_defs::{BareOp, PortStop};

impl Cpu {
    /// An operation on the processor's registers; the program counter is at the word that may follow (TMS9900 data
    /// manual, "Internal register load immediate instructions", "Return workspace pointer (RTWP) instruction").
    #[inline(never)]
    pub(crate) fn bare(&mut self, op: BareOp) -> Result<(), PortStop>
        requires { IsFalse (is_unsupported (Bare op)) }
        ensures value { left_by result (λ _. self.new) ≡ bare Memory console op self.old }
        ensures stopped { OnErr result (SameButPc self.old self.new) }
    {
        match op {
            BareOp::LWPI => {
                let word = self.next_word()?;
                self.wp = even(word);
                Ok(())
            }
            BareOp::LIMI => {
                let word = self.next_word()?;
                self.status.rest = self.status.rest / 16 * 16 + word % 16;
                Ok(())
            }
            BareOp::RTWP => self.returned(),
            BareOp::IDLE | BareOp::RSET | BareOp::CKON | BareOp::CKOF | BareOp::LREX => {
                unreachable!()
            }
        }
    }

    /// The return from a context switch (TMS9900 data manual, "Return workspace pointer (RTWP) instruction").
    #[inline]
    fn returned(&mut self) -> Result<(), PortStop>
        ensures value { left_by result (λ _. self.new) ≡ bare Memory console RTWP self.old }
        ensures stopped { OnErr result (self.new ≡ self.old) }
    {
        let (wp, pc, status) = self.kept()?;
        self.wp = even(wp);
        self.pc = even(pc);
        self.status = status_at(status);
        Ok(())
    }
}
