//! The processor's state, and its accesses to memory.

ghost use Rattle.std.specs.Prelude.{◌≡◌, ◌<◌, ◌*◌, OnErr};
ghost use Rattle.tms_defs.specs.Words.{even};
ghost use Rattle.tms_defs.specs.Status.{IsStatus};
ghost use Rattle.console_defs.specs.Memory.{Memory, IsMemory, console};
ghost use Rattle.tms_defs.specs.Operand.{register_in, register};
ghost use Rattle.tms_defs.specs.Step.{word_at, with_word, next_word};
ghost use Rattle.tms_step.specs.Stops.{left_by};
ghost use Rattle.tms_step.specs.Undo.{SameButPc};

use console_bus::{Bus, Expansion};
use std::marker::Model;
use tms_defs::{PortStop, Status};

/// The processor with its memory (TMS9900 data manual, "Registers and memory").
#[derive(Drop)]
pub(crate) struct Cpu {
    pub(crate) bus: Bus,
    pub(crate) pc: u16,
    pub(crate) wp: u16,
    pub(crate) status: Status,
}

impl Model for Cpu {
    ghost use Rattle.std.specs.Prelude.{◌≡◌};
    ghost use Rattle.tms_defs.specs.Words.{even};
    ghost use Rattle.console_defs.specs.Memory.{Memory};
    ghost use Rattle.tms_defs.specs.Operand.{Cpu as CpuState};
    ghost use Rattle.tms_defs.specs.Status.{IsStatus};

    ghost Value = { CpuState Memory };

    ghost view = { λ x. record { memory = x.bus; pc = x.pc; wp = x.wp; status = x.status } };

    ghost invariant = { λ x. IsStatus x.status × (even x.pc ≡ x.pc) × (even x.wp ≡ x.wp) };
}

/// A word that was written over.
#[derive(Clone, Copy, Debug)]
pub(crate) struct Kept {
    /// Its address.
    pub(crate) address: u16,
    /// What it was.
    pub(crate) word: u16,
}

impl Cpu {
    /// Does nothing. Its contract says what holds of every processor, for the proof of a caller.
    #[inline]
    pub(crate) fn holds_bounds(&self)
        ensures memory { IsMemory self.now.memory }
        ensures status { IsStatus self.now.status }
        ensures even_pc { even self.now.pc ≡ self.now.pc }
        ensures even_wp { even self.now.wp ≡ self.now.wp }
        ensures pc { self.now.pc < 65536 }
        ensures wp { self.now.wp < 65536 }
    {
        let _pc = self.pc;
        let _wp = self.wp;
        self.bus.holds_bounds();
    }

    /// The word that holds an address.
    #[inline(always)]
    pub(crate) fn word_at(&self, at: u16) -> Result<u16, PortStop>
        ensures { left_by result (λ word. word) ≡ word_at Memory console at self.now }
    {
        self.bus.word_at(at)
    }

    /// Writes the word that holds an address; where a port stops it, nothing has changed.
    #[inline(always)]
    pub(crate) fn write_word(&mut self, at: u16, word: u16) -> Result<(), PortStop>
        ensures value { left_by result (λ _. self.new) ≡ with_word Memory console self.old at word }
        ensures stopped { OnErr result (self.new ≡ self.old) }
    {
        self.bus.write_word(at, word)
    }

    /// The address of a workspace register.
    #[inline(always)]
    pub(crate) fn register_address(&self, number: u8) -> u16
        requires { number < 16 }
        ensures { result ≡ register number self.now }
    {
        register_in(self.wp, number)
    }

    /// The word at the program counter, which goes on by two.
    #[inline(always)]
    pub(crate) fn next_word(&mut self) -> Result<u16, PortStop>
        ensures value { left_by result (λ word. (word, self.new)) ≡ next_word Memory console self.old }
        ensures same { SameButPc self.old self.new }
        ensures stopped { OnErr result (self.new ≡ self.old) }
    {
        self.code_word(Expansion::High)
    }

    /// The same, where the given part of the expansion memory is tested first (see `Bus::code_at`).
    #[inline(always)]
    pub(crate) fn code_word(&mut self, first: Expansion) -> Result<u16, PortStop>
        ensures value { left_by result (λ word. (word, self.new)) ≡ next_word Memory console self.old }
        ensures same { SameButPc self.old self.new }
        ensures stopped { OnErr result (self.new ≡ self.old) }
    {
        let word = self.bus.code_at(self.pc, first)?;
        self.pc = self.pc.wrapping_add(2);
        Ok(word)
    }
}

/// The address of a register of a workspace (TMS9900 data manual, "Registers and memory").
#[inline(always)]
pub(crate) fn register_in(wp: u16, number: u8) -> u16
    requires { number < 16 }
    ensures { result ≡ register_in wp number }
{
    wp.wrapping_add(2 * u16::from(number))
}

/// A word whose lowest bit is cleared.
#[inline]
pub(crate) fn even(word: u16) -> u16
    ensures value { result ≡ even word }
    ensures even { even result ≡ result }
{
    word / 2 * 2
}
