//! Shifts of a register.

ghost use Rattle.std.specs.Prelude.{◌≡◌, ◌<◌, ◌≤◌, IfOk, OnErr};
ghost use Rattle.console_defs.specs.Memory.{Memory, console};
ghost use Rattle.tms_defs.specs.Shifts.{shifted, by_shift, count_in};
ghost use Rattle.tms_defs.specs.Step.{count_of, shift};
ghost use Rattle.tms_step.specs.Stops.{left_by};
ghost use Rattle.tms_step.specs.Undo.{SameButPc};

use crate::cpu::Cpu;
use tms_defs::{Flags, Out16, PortStop, ShiftOp};
use tms_words::shift16;

impl Cpu {
    /// A shift of a register. The count 0 takes the low four bits of register 0, where 0 is sixteen (TMS9900 data
    /// manual, "Shift instructions").
    #[inline(never)]
    pub(crate) fn shift(&mut self, op: ShiftOp, count: u8, number: u8) -> Result<(), PortStop>
        requires number { number < 16 }
        requires count { count < 16 }
        ensures value { left_by result (λ _. self.new) ≡ shift Memory console op count number self.old }
        ensures stopped { OnErr result (SameButPc self.old self.new) }
    {
        let address = self.register_address(number);
        let found = self.word_at(address)?;
        let places = self.count_of(count)?;
        let out = shifted(op, found, places, self.status.flags);
        self.stored(false, address, out.value, out.flags)
    }

    /// The count of a shift, from 1 to 16.
    #[inline]
    fn count_of(&self, count: u8) -> Result<u8, PortStop>
        requires { count < 16 }
        ensures value { left_by result (λ places. places) ≡ count_of Memory console count self.now }
        ensures range { IfOk result (λ places. (1 ≤ places) × (places ≤ 16)) }
    {
        if count > 0 {
            return Ok(count);
        }
        let word = self.word_at(self.register_address(0))?;
        Ok(count_in(word))
    }
}

/// The count in the low four bits of a word, where 0 is sixteen.
#[inline]
fn count_in(word: u16) -> u8
    ensures value { result ≡ count_in word }
    ensures range { (1 ≤ result) × (result ≤ 16) }
{
    match (word % 16) as u8 {
        0 => 16,
        count => count,
    }
}

/// A shifted word and the status bits after it: only SLA sets OV.
#[inline]
fn shifted(op: ShiftOp, value: u16, count: u8, flags: Flags) -> Out16
    requires { (1 ≤ count) × (count ≤ 16) }
    ensures value { result.value ≡ shifted op value count }
    ensures flags { result.flags ≡ by_shift op value count flags }
{
    let mut out = shift16(op, value, count);
    match op {
        ShiftOp::SLA => {}
        ShiftOp::SRA | ShiftOp::SRL | ShiftOp::SRC => out.flags.ov = flags.ov,
    }
    out
}
