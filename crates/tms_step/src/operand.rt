//! Operands: where they stand, what they are, and the growth of a register.
//!
//! Nothing is kept of a register before it grows: its old value is the operand's address, which is decoded again where
//! the instruction stops.

ghost use Rattle.std.specs.Prelude.{◌≡◌, ◌<◌, IfOk, IsOk, OnErr, Some, IsTrue, IsFalse};
ghost use Rattle.tms_defs.specs.Flags.{Word, modulus, byte_or_word};
ghost use Rattle.console_defs.specs.Memory.{Memory, console};
ghost use Rattle.tms_defs.specs.Operand.{mode_of};
ghost use Rattle.tms_defs.specs.Step.{index_of, operand, value_at, with_value};
ghost use Rattle.tms_defs.specs.Instructions.{IsPlace};
ghost use Rattle.tms_step.specs.Stops.{left_by};
ghost use Rattle.tms_step.specs.Undo.{put_back, auto_incremented_by, grown_register, SameButPc};

use crate::cpu::{Cpu, Kept};
use tms_defs::{Place, PortStop};

impl Cpu {
    /// What an index register adds to an address. Register 0 is no index (TMS9900 data manual, "Indexed addressing").
    #[inline]
    pub(crate) fn index_of(&self, number: u8) -> Result<u16, PortStop>
        requires { number < 16 }
        ensures { left_by result (λ index. index) ≡ index_of Memory console self.now number }
    {
        if number == 0 {
            return Ok(0);
        }
        self.word_at(self.register_address(number))
    }

    /// The address of an operand, after the growth of its register (TMS9900 data manual, "Addressing modes").
    #[inline(always)]
    pub(crate) fn operand(&mut self, place: Place, byte: bool) -> Result<u16, PortStop>
        requires { IsPlace place }
        ensures value { left_by result (λ address. (address, self.new))
            ≡ operand Memory console (mode_of place.mode) (byte_or_word byte) place.reg self.old }
        ensures undo { IfOk result (λ address. SameButPc self.old
            (put_back (auto_incremented_by place address self.old.wp) self.new)) }
        ensures stopped { OnErr result (SameButPc self.old self.new) }
    {
        if place.mode == 0 {
            return Ok(self.register_address(place.reg));
        }
        self.in_memory(place, byte)
    }

    /// The address of an operand that a register or the following word leads to.
    #[inline(never)]
    fn in_memory(&mut self, place: Place, byte: bool) -> Result<u16, PortStop>
        requires place { IsPlace place }
        requires mode { 0 < place.mode }
        ensures value { left_by result (λ address. (address, self.new))
            ≡ operand Memory console (mode_of place.mode) (byte_or_word byte) place.reg self.old }
        ensures undo { IfOk result (λ address. SameButPc self.old
            (put_back (auto_incremented_by place address self.old.wp) self.new)) }
        ensures stopped { OnErr result (SameButPc self.old self.new) }
    {
        match place.mode {
            1 => self.word_at(self.register_address(place.reg)),
            2 => self.indexed(place.reg),
            _ => self.auto_incremented(place.reg, byte),
        }
    }

    /// The following word with an index added.
    #[inline]
    fn indexed(&mut self, number: u8) -> Result<u16, PortStop>
        requires { number < 16 }
        ensures value { left_by result (λ address. (address, self.new))
            ≡ operand Memory console (mode_of 2) Word number self.old }
        ensures same { SameButPc self.old self.new }
    {
        let base = self.next_word()?;
        let index = self.index_of(number)?;
        Ok(base.wrapping_add(index))
    }

    /// The address in a register, which then grows by the bytes of the operand.
    #[inline]
    fn auto_incremented(&mut self, number: u8, byte: bool) -> Result<u16, PortStop>
        requires { number < 16 }
        ensures value { left_by result (λ address. (address, self.new))
            ≡ operand Memory console (mode_of 3) (byte_or_word byte) number self.old }
        ensures undo { IfOk result (λ address. SameButPc self.old
            (put_back (Some (grown_register number address self.old.wp)) self.new)) }
        ensures stopped { OnErr result (SameButPc self.old self.new) }
    {
        let register = self.register_address(number);
        let address = self.word_at(register)?;
        let more = if byte { 1 } else { 2 };
        self.write_over(register, address, address.wrapping_add(more))?;
        Ok(address)
    }

    /// The register that has grown with an operand at an address, as it was before.
    #[inline(always)]
    pub(crate) fn auto_incremented_by(&self, place: Place, address: u16) -> Option<Kept>
        requires { IsPlace place }
        ensures { result ≡ auto_incremented_by place address self.now.wp }
    {
        if place.mode != 3 {
            return None;
        }
        Some(Kept {
            address: self.register_address(place.reg),
            word: address,
        })
    }

    /// The value at an address, a word or a byte. A byte that is read may change a port, and nothing stops it.
    #[inline(always)]
    pub(crate) fn value_at(&mut self, byte: bool, at: u16) -> Result<u16, PortStop>
        ensures value { left_by result (λ value. (value, self.new))
            ≡ value_at Memory console (byte_or_word byte) at self.old }
        ensures fits { IfOk result (λ value. value < modulus (byte_or_word byte)) }
        ensures stopped { OnErr result (self.new ≡ self.old) }
        ensures word { IsFalse byte → self.new ≡ self.old }
    {
        if byte {
            return Ok(self.bus.read_byte(at) as u16);
        }
        self.word_at(at)
    }

    /// Writes a word or a byte to an address. Nothing stops a byte.
    #[inline(always)]
    pub(crate) fn write_value(&mut self, byte: bool, at: u16, value: u16) -> Result<(), PortStop>
        requires { value < modulus (byte_or_word byte) }
        ensures value { left_by result (λ _. self.new)
            ≡ with_value Memory console (byte_or_word byte) at value self.old }
        ensures stopped { OnErr result (self.new ≡ self.old) }
        ensures byte { IsTrue byte → IsOk result }
    {
        if byte {
            self.bus.write_byte(at, value as u8);
            return Ok(());
        }
        self.write_word(at, value)
    }
}
