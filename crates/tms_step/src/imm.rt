//! Instructions on a register, most with a word that follows.

ghost use Rattle.std.specs.Prelude.{◌≡◌, ◌<◌, OnErr, IsTrue};
ghost use Rattle.console_defs.specs.Memory.{Memory, console};
ghost use Rattle.tms_defs.specs.Step.{immediate, imm};
ghost use Rattle.tms_step.specs.Parts.{reads_both};
ghost use Rattle.tms_step.specs.Stops.{left_by};
ghost use Rattle.tms_step.specs.Undo.{SameButPc};

use crate::cpu::Cpu;
use tms_defs::{ImmOp, PortStop};
use tms_words::add16;

impl Cpu {
    /// An operation on a register; the program counter is at the word that may follow (TMS9900 data manual,
    /// "Immediate register instructions", "Internal register store instructions").
    #[inline(never)]
    pub(crate) fn imm(&mut self, op: ImmOp, number: u8) -> Result<(), PortStop>
        requires { number < 16 }
        ensures value { left_by result (λ _. self.new) ≡ imm Memory console op number self.old }
        ensures stopped { OnErr result (SameButPc self.old self.new) }
    {
        let address = self.register_address(number);
        if op == ImmOp::LI {
            let word = self.next_word()?;
            self.stored_by_result(false, address, word)
        } else if op == ImmOp::STWP {
            self.write_word(address, self.wp)
        } else if op == ImmOp::STST {
            self.write_word(address, self.status_word())
        } else {
            self.with_immediate(op, number)
        }
    }

    /// AI, ANDI, ORI or CI: the register and the word that follows are both read.
    #[inline(never)]
    fn with_immediate(&mut self, op: ImmOp, number: u8) -> Result<(), PortStop>
        requires number { number < 16 }
        requires op { IsTrue (reads_both op) }
        ensures value { left_by result (λ _. self.new) ≡ imm Memory console op number self.old }
        ensures stopped { OnErr result (SameButPc self.old self.new) }
    {
        let (word, found) = self.immediate(number)?;
        let address = self.register_address(number);
        if op == ImmOp::AI {
            self.stored_with_flags(address, add16(found, word))
        } else if op == ImmOp::ANDI {
            self.stored_by_result(false, address, found & word)
        } else if op == ImmOp::ORI {
            self.stored_by_result(false, address, found | word)
        } else {
            self.compared(false, found, word);
            Ok(())
        }
    }

    /// The word that follows, and a register, which is read after it.
    #[inline(always)]
    fn immediate(&mut self, number: u8) -> Result<(u16, u16), PortStop>
        requires { number < 16 }
        ensures value { left_by result (λ read. (read.0, read.1, self.new)) ≡ immediate Memory console number self.old }
        ensures same { SameButPc self.old self.new }
    {
        let word = self.next_word()?;
        let found = self.word_at(self.register_address(number))?;
        Ok((word, found))
    }
}
