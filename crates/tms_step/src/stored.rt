//! Results that are stored with their status bits.

ghost use Rattle.std.specs.Prelude.{◌≡◌, ◌<◌, IsOk, OnErr, IsTrue};
ghost use Rattle.tms_defs.specs.Flags.{Word, modulus, byte_or_word};
ghost use Rattle.console_defs.specs.Memory.{Memory, console};
ghost use Rattle.tms_defs.specs.Status.{with_order};
ghost use Rattle.tms_defs.specs.Step.{stored, stored_by_result};
ghost use Rattle.tms_step.specs.Stops.{left_by};

use crate::cpu::Cpu;
use crate::result::{order, result_flags};
use tms_defs::{Flags, Out16, PortStop};
use tms_words::odd8;

impl Cpu {
    /// Stores a result, and sets its status bits.
    #[inline(always)]
    pub(crate) fn stored(
        &mut self,
        byte: bool,
        address: u16,
        value: u16,
        flags: Flags,
    ) -> Result<(), PortStop>
        requires { value < modulus (byte_or_word byte) }
        ensures value { left_by result (λ _. self.new)
            ≡ stored Memory console (byte_or_word byte) address value flags self.old }
        ensures stopped { OnErr result (self.new ≡ self.old) }
        ensures byte { IsTrue byte → IsOk result }
    {
        self.write_value(byte, address, value)?;
        self.status.flags.lgt = flags.lgt;
        self.status.flags.agt = flags.agt;
        self.status.flags.eq = flags.eq;
        self.status.flags.c = flags.c;
        self.status.flags.ov = flags.ov;
        if byte {
            self.status.op = odd8(value as u8);
        }
        Ok(())
    }

    /// Stores a word with its status bits.
    #[inline(always)]
    pub(crate) fn stored_with_flags(&mut self, address: u16, out: Out16) -> Result<(), PortStop>
        ensures value { left_by result (λ _. self.new)
            ≡ stored Memory console Word address out.value out.flags self.old }
        ensures stopped { OnErr result (self.new ≡ self.old) }
    {
        self.stored(false, address, out.value, out.flags)
    }

    /// Stores a result that sets L>, A> and EQ, and leaves C and OV.
    #[inline(always)]
    pub(crate) fn stored_by_result(
        &mut self,
        byte: bool,
        address: u16,
        value: u16,
    ) -> Result<(), PortStop>
        requires { value < modulus (byte_or_word byte) }
        ensures value { left_by result (λ _. self.new)
            ≡ stored_by_result Memory console (byte_or_word byte) address value self.old }
        ensures stopped { OnErr result (self.new ≡ self.old) }
        ensures byte { IsTrue byte → IsOk result }
    {
        self.write_value(byte, address, value)?;
        let flags = result_flags(byte, value, self.status.flags);
        self.status.flags.lgt = flags.lgt;
        self.status.flags.agt = flags.agt;
        self.status.flags.eq = flags.eq;
        if byte {
            self.status.op = odd8(value as u8);
        }
        Ok(())
    }

    /// Sets L>, A> and EQ by a comparison of a first number with a second; the comparison of bytes sets OP by the first
    /// (TMS9900 data manual, "Compare words", "Compare bytes", "Compare immediate").
    #[inline(always)]
    pub(crate) fn compared(&mut self, byte: bool, first: u16, second: u16)
        requires first { first < modulus (byte_or_word byte) }
        requires second { second < modulus (byte_or_word byte) }
        ensures { self.new ≡ record self.old { status = with_order (byte_or_word byte) first second self.old.status } }
    {
        let found = order(byte, first, second);
        self.status.flags.lgt = found.lgt;
        self.status.flags.agt = found.agt;
        self.status.flags.eq = found.eq;
        if byte {
            self.status.op = odd8(first as u8);
        }
    }
}
