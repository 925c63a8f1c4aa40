//! Instructions with two operands in any mode.

ghost use Rattle.std.specs.Prelude.{◌≡◌, ◌<◌, OnErr, IsTrue, IsFalse};
ghost use Rattle.tms_defs.specs.Flags.{modulus, byte_or_word};
ghost use Rattle.tms_defs.specs.Instructions.{IsPlace};
ghost use Rattle.console_defs.specs.Memory.{Memory, console, is_port_address};
ghost use Rattle.tms_defs.specs.Step.{two, two_operands};
ghost use Rattle.tms_defs.specs.declared.instruction.TwoOp.TheVariants.{MOV};
ghost use Rattle.tms_step.specs.Stops.{left_by};
ghost use Rattle.tms_step.specs.Undo.{SameButPc};
ghost use Rattle.tms_step.specs.Parts.{from_source, from_port, two_from_port, is_arithmetic, is_bitwise};

use crate::cpu::Cpu;
use crate::result::{difference, ones_cleared, ones_set, sum};
use console_bus::is_port;
use tms_defs::{Place, PortStop, TwoOp};

impl Cpu {
    /// An operation on two operands: the source is derived first.
    #[inline(always)]
    #[tactic(auto, using(crate::proofs::PutBack::auto_incremented_later))]
    pub(crate) fn two_operands(
        &mut self,
        op: TwoOp,
        byte: bool,
        dst: Place,
        src: Place,
    ) -> Result<(), PortStop>
        requires dst { IsPlace dst }
        requires src { IsPlace src }
        ensures value { left_by result (λ _. self.new)
            ≡ two_operands Memory console op (byte_or_word byte) dst src self.old }
        ensures stopped { OnErr result (SameButPc self.old self.new) }
    {
        let source = self.operand(src, byte)?;
        let end = self.from_source(op, byte, source, dst);
        self.undo_on_stop(end, self.auto_incremented_by(src, source))
    }

    /// What follows once the source is derived: it is read, and the destination is derived.
    #[inline(always)]
    #[tactic(auto, using(crate::proofs::PutBack::auto_incremented_later))]
    fn from_source(
        &mut self,
        op: TwoOp,
        byte: bool,
        source: u16,
        dst: Place,
    ) -> Result<(), PortStop>
        requires { IsPlace dst }
        ensures value { left_by result (λ _. self.new) ≡ from_source op (byte_or_word byte) source dst self.old }
        ensures stopped { OnErr result (SameButPc self.old self.new) }
    {
        if byte && is_port(source) {
            return self.from_port(op, source, dst);
        }
        self.from_memory(op, byte, source, dst)
    }

    /// The same, where the source is no byte of a port, so that its reading changes nothing.
    #[inline(always)]
    #[tactic(auto, using(crate::proofs::PutBack::auto_incremented_later))]
    fn from_memory(
        &mut self,
        op: TwoOp,
        byte: bool,
        source: u16,
        dst: Place,
    ) -> Result<(), PortStop>
        requires dst { IsPlace dst }
        requires memory { IsTrue byte → IsFalse (is_port_address source) }
        ensures value { left_by result (λ _. self.new) ≡ from_source op (byte_or_word byte) source dst self.old }
        ensures stopped { OnErr result (SameButPc self.old self.new) }
    {
        let value = self.value_at(byte, source)?;
        let destination = self.operand(dst, byte)?;
        let end = self.two(op, byte, value, destination);
        self.undo_on_stop(end, self.auto_incremented_by(dst, destination))
    }

    /// The same, where the source is a byte of a port. The port is read last: words, which alone can stop the
    /// instruction, neither see nor change a port.
    #[tactic(auto, using(crate::proofs::PutBack::auto_incremented_later))]
    #[inline(never)]
    fn from_port(&mut self, op: TwoOp, source: u16, dst: Place) -> Result<(), PortStop>
        requires { IsPlace dst }
        ensures value { left_by result (λ _. self.new) ≡ from_port op source dst self.old }
        ensures stopped { OnErr result (SameButPc self.old self.new) }
    {
        let destination = self.operand(dst, true)?;
        let end = self.two_from_port(op, source, destination);
        self.undo_on_stop(end, self.auto_incremented_by(dst, destination))
    }

    /// An operation on a byte that is read from a port and a destination.
    fn two_from_port(&mut self, op: TwoOp, source: u16, address: u16) -> Result<(), PortStop>
        ensures value { left_by result (λ _. self.new) ≡ two_from_port op source address self.old }
        ensures stopped { OnErr result (self.new ≡ self.old) }
    {
        let value = self.value_at(true, source)?;
        self.two(op, true, value, address)
    }

    /// An operation on a source and the destination at an address. It is found by tests, and not by a table of jumps
    /// (see `step`).
    #[inline(always)]
    pub(crate) fn two(
        &mut self,
        op: TwoOp,
        byte: bool,
        source: u16,
        address: u16,
    ) -> Result<(), PortStop>
        requires { source < modulus (byte_or_word byte) }
        ensures value { left_by result (λ _. self.new)
            ≡ two Memory console op (byte_or_word byte) source address self.old }
        ensures stopped { OnErr result (self.new ≡ self.old) }
    {
        if op == TwoOp::MOV {
            self.moved(byte, source, address)
        } else if is_arithmetic(op) {
            self.arithmetic(op, byte, source, address)
        } else {
            self.bitwise(op, byte, source, address)
        }
    }

    /// A source is stored at an address, and what is there is not read.
    #[inline(always)]
    fn moved(&mut self, byte: bool, source: u16, address: u16) -> Result<(), PortStop>
        requires { source < modulus (byte_or_word byte) }
        ensures value { left_by result (λ _. self.new)
            ≡ two Memory console MOV (byte_or_word byte) source address self.old }
        ensures stopped { OnErr result (self.new ≡ self.old) }
    {
        self.stored_by_result(byte, address, source)
    }

    /// A sum, a difference or a comparison of a source and the destination at an address.
    #[inline(always)]
    fn arithmetic(
        &mut self,
        op: TwoOp,
        byte: bool,
        source: u16,
        address: u16,
    ) -> Result<(), PortStop>
        requires source { source < modulus (byte_or_word byte) }
        requires op { IsTrue (is_arithmetic op) }
        ensures value { left_by result (λ _. self.new)
            ≡ two Memory console op (byte_or_word byte) source address self.old }
        ensures stopped { OnErr result (self.new ≡ self.old) }
    {
        let found = self.value_at(byte, address)?;
        if op == TwoOp::C {
            self.compared(byte, source, found);
            return Ok(());
        }
        let out = if op == TwoOp::A {
            sum(byte, found, source)
        } else {
            difference(byte, found, source)
        };
        self.stored(byte, address, out.value, out.flags)
    }

    /// The ones of a source are set or cleared in the destination at an address.
    #[inline(always)]
    fn bitwise(&mut self, op: TwoOp, byte: bool, source: u16, address: u16) -> Result<(), PortStop>
        requires source { source < modulus (byte_or_word byte) }
        requires op { IsTrue (is_bitwise op) }
        ensures value { left_by result (λ _. self.new)
            ≡ two Memory console op (byte_or_word byte) source address self.old }
        ensures stopped { OnErr result (self.new ≡ self.old) }
    {
        let found = self.value_at(byte, address)?;
        let result = if op == TwoOp::SOC {
            ones_set(byte, found, source)
        } else {
            ones_cleared(byte, found, source)
        };
        self.stored_by_result(byte, address, result)
    }
}

/// The operation is a sum, a difference or a comparison.
#[inline(always)]
fn is_arithmetic(op: TwoOp) -> bool
    ensures { result ≡ is_arithmetic op }
{
    matches!(op, TwoOp::S | TwoOp::C | TwoOp::A)
}
