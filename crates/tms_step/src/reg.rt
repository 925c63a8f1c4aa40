//! Instructions with a source in any mode, and a register or the number of an extended operation.

ghost use Rattle.std.specs.Prelude.{◌≡◌, ◌≢◌, ◌<◌, OnErr};
ghost use Rattle.tms_defs.specs.Instructions.{IsPlace};
ghost use Rattle.console_defs.specs.Memory.{Memory, console};
ghost use Rattle.tms_defs.specs.Step.{values_at, with_division, reg, with_source};
ghost use Rattle.tms_defs.specs.declared.instruction.RegOp.TheVariants.{XOP, LDCR, STCR, DIV};
ghost use Rattle.tms_step.specs.Stops.{left_by};
ghost use Rattle.tms_step.specs.Undo.{SameButPc};

use crate::cpu::{Cpu, register_in};
use tms_defs::{Place, PortStop, RegOp};
use tms_words::{div16, mul16};

impl Cpu {
    /// An operation on a source in any mode (TMS9900 data manual, "Dual operand instructions with multiple addressing
    /// modes for the source operand and workspace register addressing for the destination").
    #[inline(never)]
    #[tactic(auto, using(crate::proofs::PutBack::auto_incremented_later))]
    pub(crate) fn with_source(&mut self, op: RegOp, number: u8, src: Place) -> Result<(), PortStop>
        requires number { number < 16 }
        requires src { IsPlace src }
        requires loads { op ≢ LDCR }
        requires stores { op ≢ STCR }
        ensures value { left_by result (λ _. self.new) ≡ with_source Memory console op number src self.old }
        ensures stopped { OnErr result (SameButPc self.old self.new) }
    {
        let source = self.operand(src, false)?;
        let end = self.reg(op, number, source);
        self.undo_on_stop(end, self.auto_incremented_by(src, source))
    }

    /// An operation on a source at an address, and a register or a number.
    #[inline]
    fn reg(&mut self, op: RegOp, number: u8, source: u16) -> Result<(), PortStop>
        requires number { number < 16 }
        requires loads { op ≢ LDCR }
        requires stores { op ≢ STCR }
        ensures value { left_by result (λ _. self.new) ≡ reg Memory console op number source self.old }
        ensures stopped { OnErr result (SameButPc self.old self.new) }
    {
        let address = self.register_address(number);
        match op {
            RegOp::COC => {
                let (value, found) = self.values_at(source, address)?;
                self.status.flags.eq = value & found == value;
                Ok(())
            }
            RegOp::CZC => {
                let (value, found) = self.values_at(source, address)?;
                self.status.flags.eq = value & found == 0;
                Ok(())
            }
            RegOp::XOR => {
                let (value, found) = self.values_at(source, address)?;
                self.stored_by_result(false, address, found ^ value)
            }
            RegOp::MPY => {
                let (value, found) = self.values_at(source, address)?;
                let (more, less) = mul16(found, value);
                self.write_words(&[(address, more), (address.wrapping_add(2), less)])
            }
            RegOp::XOP => self.extended(number, source),
            RegOp::DIV => self.divided(number, source),
            RegOp::LDCR | RegOp::STCR => unreachable!(),
        }
    }

    /// The value of a source, and a register, which is read after it.
    #[inline]
    fn values_at(&self, source: u16, register: u16) -> Result<(u16, u16), PortStop>
        ensures { left_by result (λ values. values) ≡ values_at Memory console source register self.now }
    {
        let value = self.word_at(source)?;
        let found = self.word_at(register)?;
        Ok((value, found))
    }

    /// The number of a register and the word after it, divided by the source (TMS9900 data manual, "Divide").
    fn divided(&mut self, number: u8, source: u16) -> Result<(), PortStop>
        requires { number < 16 }
        ensures value { left_by result (λ _. self.new) ≡ reg Memory console DIV number source self.old }
        ensures stopped { OnErr result (SameButPc self.old self.new) }
    {
        let address = self.register_address(number);
        let (value, more) = self.values_at(source, address)?;
        let less = self.word_at(address.wrapping_add(2))?;
        let division = div16(more, less, value);
        self.with_division(division, address)?;
        self.status.flags.ov = division.is_none();
        Ok(())
    }

    /// A quotient and a remainder, where there are any, go to an address and the word after it.
    fn with_division(&mut self, division: Option<(u16, u16)>, address: u16) -> Result<(), PortStop>
        ensures value { left_by result (λ _. self.new) ≡ with_division Memory console division address self.old }
        ensures stopped { OnErr result (SameButPc self.old self.new) }
    {
        match division {
            Some((quotient, remainder)) => {
                self.write_words(&[(address, quotient), (address.wrapping_add(2), remainder)])
            }
            None => Ok(()),
        }
    }

    /// An extended operation: a context switch that passes the source's address on (TMS9900 data manual, "Extended
    /// operation (XOP) instruction").
    fn extended(&mut self, number: u8, source: u16) -> Result<(), PortStop>
        requires { number < 16 }
        ensures value { left_by result (λ _. self.new) ≡ reg Memory console XOP number source self.old }
        ensures stopped { OnErr result (SameButPc self.old self.new) }
    {
        let (wp, pc) = self.vector_at(0x0040 + 4 * u16::from(number))?;
        let [pointer, counter, status] = self.kept_in(wp);
        self.write_words(&[pointer, counter, status, (register_in(wp, 11), source)])?;
        self.wp = wp;
        self.pc = pc;
        self.status.rest = 0x0200 + self.status.rest % 0x0200;
        Ok(())
    }
}
