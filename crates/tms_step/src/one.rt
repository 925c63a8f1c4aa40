//! Instructions with one operand in any mode.

ghost use Rattle.std.specs.Prelude.{◌≡◌, ◌≢◌, ◌<◌, OnErr, IsTrue, IsFalse};
ghost use Rattle.tms_defs.specs.Instructions.{IsPlace};
ghost use Rattle.tms_defs.specs.Accesses.{Gives};
ghost use Rattle.console_defs.specs.Memory.{Memory, console};
ghost use Rattle.tms_defs.specs.Step.{one, one_operand};
ghost use Rattle.tms_defs.specs.declared.instruction.OneOp.TheVariants.{BLWP, B, X, BL, CLR};
ghost use Rattle.tms_step.specs.Parts.{is_increment};
ghost use Rattle.tms_step.specs.Stops.{left_by};
ghost use Rattle.tms_step.specs.Undo.{SameButPc};

use crate::cpu::{Cpu, even};
use tms_defs::{OneOp, Place, PortStop};
use tms_words::{abs16, add16, neg16, sub16};

impl Cpu {
    /// An operation on an operand in any mode (TMS9900 data manual, "Single operand instructions").
    #[inline(never)]
    #[tactic(auto, using(crate::proofs::PutBack::auto_incremented_later))]
    pub(crate) fn one_operand(&mut self, op: OneOp, at: Place) -> Result<(), PortStop>
        requires place { IsPlace at }
        requires executes { op ≢ X }
        ensures value { left_by result (λ _. self.new) ≡ one_operand Memory console op at self.old }
        ensures stopped { OnErr result (SameButPc self.old self.new) }
    {
        let address = self.operand(at, false)?;
        let end = self.one(op, address);
        self.undo_on_stop(end, self.auto_incremented_by(at, address))
    }

    /// An operation on the operand at an address. Those that programs make most are found first, by tests, and not by a
    /// table of jumps (see `step`).
    #[inline]
    fn one(&mut self, op: OneOp, address: u16) -> Result<(), PortStop>
        requires { op ≢ X }
        ensures value { left_by result (λ _. self.new) ≡ one Memory console op address self.old }
        ensures stopped { OnErr result (SameButPc self.old self.new) }
    {
        if op == OneOp::CLR {
            self.write_word(address, 0)
        } else if is_increment(op) {
            self.incremented(op, address)
        } else if op == OneOp::B {
            self.branched(address);
            Ok(())
        } else if op == OneOp::BL {
            self.linked(address)
        } else {
            self.other_one(op, address)
        }
    }

    /// INC, INCT, DEC or DECT: the word at an address is increased or decreased.
    #[inline(never)]
    fn incremented(&mut self, op: OneOp, address: u16) -> Result<(), PortStop>
        requires { IsTrue (is_increment op) }
        ensures value { left_by result (λ _. self.new) ≡ one Memory console op address self.old }
        ensures stopped { OnErr result (self.new ≡ self.old) }
    {
        let found = self.word_at(address)?;
        if op == OneOp::INC {
            self.stored_with_flags(address, add16(found, 1))
        } else if op == OneOp::INCT {
            self.stored_with_flags(address, add16(found, 2))
        } else if op == OneOp::DEC {
            self.stored_with_flags(address, sub16(found, 1))
        } else {
            self.stored_with_flags(address, sub16(found, 2))
        }
    }

    /// One of the other operations on the operand at an address.
    #[inline(never)]
    fn other_one(&mut self, op: OneOp, address: u16) -> Result<(), PortStop>
        requires increment { IsFalse (is_increment op) }
        requires clear { op ≢ CLR }
        requires branch { op ≢ B }
        requires link { op ≢ BL }
        requires executes { op ≢ X }
        ensures value { left_by result (λ _. self.new) ≡ one Memory console op address self.old }
        ensures stopped { OnErr result (SameButPc self.old self.new) }
    {
        match op {
            OneOp::BLWP => self.switched(address),
            OneOp::NEG => {
                let found = self.word_at(address)?;
                self.stored_with_flags(address, neg16(found))
            }
            OneOp::INV => {
                let found = self.word_at(address)?;
                self.stored_by_result(false, address, !found)
            }
            OneOp::SWPB => {
                let found = self.word_at(address)?;
                self.write_word(address, found.swap_bytes())
            }
            OneOp::ABS => {
                let found = self.word_at(address)?;
                self.stored_with_flags(address, abs16(found))
            }
            OneOp::SETO => self.write_word(address, 0xFFFF),
            OneOp::INC
            | OneOp::INCT
            | OneOp::DEC
            | OneOp::DECT
            | OneOp::CLR
            | OneOp::B
            | OneOp::BL
            | OneOp::X => unreachable!(),
        }
    }

    /// A branch to an address; an odd one is made even (TMS9900 data manual, "Branch").
    #[inline(always)]
    fn branched(&mut self, address: u16)
        ensures { Gives self.new ≡ one Memory console B address self.old }
    {
        self.pc = even(address);
    }

    /// A branch that keeps the address of the next instruction in register 11 (TMS9900 data manual, "Branch and
    /// link").
    #[inline]
    fn linked(&mut self, address: u16) -> Result<(), PortStop>
        ensures value { left_by result (λ _. self.new) ≡ one Memory console BL address self.old }
        ensures stopped { OnErr result (self.new ≡ self.old) }
    {
        self.write_word(self.register_address(11), self.pc)?;
        self.branched(address);
        Ok(())
    }

    /// A context switch by the vector at an address (TMS9900 data manual, "Branch and load workspace pointer").
    fn switched(&mut self, address: u16) -> Result<(), PortStop>
        ensures value { left_by result (λ _. self.new) ≡ one Memory console BLWP address self.old }
        ensures stopped { OnErr result (SameButPc self.old self.new) }
    {
        let (wp, pc) = self.vector_at(address)?;
        self.write_words(&self.kept_in(wp))?;
        self.wp = wp;
        self.pc = pc;
        Ok(())
    }
}

/// The operation increases or decreases a word.
#[inline(always)]
fn is_increment(op: OneOp) -> bool
    ensures { result ≡ is_increment op }
{
    matches!(op, OneOp::INC | OneOp::INCT | OneOp::DEC | OneOp::DECT)
}
