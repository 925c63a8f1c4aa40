//! The machine: the processor over the console's memory, with a count of its instructions.

ghost use Rattle.std.specs.Prelude.{◌≡◌, ◌<◌, IsTrue};
ghost use Rattle.tms_defs.specs.Words.{even};
ghost use Rattle.tms_defs.specs.Accesses.{Gives};
ghost use Rattle.console_defs.specs.Memory.{Memory, console, word_read};
ghost use Rattle.tms_defs.specs.Operand.{register};
ghost use Rattle.tms_defs.specs.Status.{status_at, status_word};
ghost use Rattle.console_defs.specs.Machine.{MachineState, IsMachine, new_machine, machine_step, WhereStopped};
ghost use Rattle.console_defs.specs.Machine.{has_workspace};
ghost use Rattle.console_defs.specs.Causes.{refused_at, refusal, MeetsPort};

use crate::cpu::{Cpu, even};
use crate::status::status_at;
use console_bus::{Bus, Expansion};
use std::marker::Model;
use tms_defs::StepEnd;

/// A TMS9900 processor over the memory of the console, with a count of the instructions that it executed.
#[derive(Drop)]
pub struct Machine {
    cpu: Cpu,
    count: u64,
}

impl Model for Machine {
    ghost use Rattle.console_defs.specs.Machine.{MachineState};

    ghost Value = { MachineState };

    ghost view = { λ m. record { cpu = m.cpu; count = m.count } };
}

impl Machine {
    /// A machine over a memory, with a workspace pointer and a program counter whose lowest bits are cleared. Its
    /// status register and its count are 0.
    #[tactic(auto, using(console_defs::proofs::RunLaws::new_machine_is))]
    pub fn new(bus: Bus, wp: u16, pc: u16) -> Machine
        ensures machine { result ≡ new_machine bus wp pc }
        ensures bounds { IsMachine result }
    {
        bus.holds_bounds();
        Machine {
            cpu: Cpu {
                bus,
                pc: even(pc),
                wp: even(wp),
                status: status_at(0),
            },
            count: 0,
        }
    }

    /// Does nothing. Its contract says what holds of every machine, for the proof of a caller.
    #[inline]
    pub fn holds_bounds(&self)
        ensures { IsMachine self.now }
    {
        let _count = self.count;
        self.cpu.holds_bounds();
    }

    /// One step of the processor: the instruction at the program counter is executed, and the count rises by one or
    /// is at its type's end. Where it is refused, or meets a port by a word access, the whole machine is as
    /// before, ports included. It is refused exactly where no step executes the word at the program counter,
    /// and what it meets is one of the eight ports.
    #[inline(always)]
    pub fn step(&mut self) -> StepEnd
        ensures step { (result, self.new) ≡ machine_step self.old }
        ensures refused { refused_at result ≡ refusal self.old.cpu }
        ensures port { MeetsPort result }
        ensures stopped { WhereStopped result (self.new ≡ self.old) }
    {
        self.step_from(Expansion::High)
    }

    /// The same step, which takes the least time where the instruction is in the given part of the expansion
    /// memory.
    #[inline(always)]
    pub fn step_from(&mut self, part: Expansion) -> StepEnd
        ensures step { (result, self.new) ≡ machine_step self.old }
        ensures refused { refused_at result ≡ refusal self.old.cpu }
        ensures port { MeetsPort result }
        ensures stopped { WhereStopped result (self.new ≡ self.old) }
    {
        let end = self.cpu.step(part);
        if let StepEnd::Done(_) = end {
            self.count = self.count.saturating_add(1);
        }
        end
    }

    /// The program counter, the address of the next instruction.
    pub fn pc(&self) -> u16
        ensures value { result ≡ self.now.cpu.pc }
        ensures even { even result ≡ result }
    {
        self.cpu.pc
    }

    /// The workspace pointer, the address of register 0.
    pub fn wp(&self) -> u16
        ensures value { result ≡ self.now.cpu.wp }
        ensures even { even result ≡ result }
    {
        self.cpu.wp
    }

    /// The word of the status register, all sixteen bits (TMS9900 data manual, "Status register").
    pub fn st(&self) -> u16
        ensures word { result ≡ status_word self.now.cpu.status }
        ensures status { status_at result ≡ self.now.cpu.status }
    {
        self.cpu.status_word()
    }

    /// How many instructions were executed; it is at its type's end.
    pub fn count(&self) -> u64
        ensures { result ≡ self.now.count }
    {
        self.count
    }

    /// The sixteen registers lie wholly in the scratchpad from >8300 on, or in expansion memory.
    pub fn has_workspace(&self) -> bool
        ensures { result ≡ has_workspace self.now.cpu.wp }
    {
        matches!(self.cpu.wp, 0x8300..=0x83E0 | 0x2000..=0x3FE0 | 0xA000..=0xFFE0)
    }

    /// The workspace register with a number below 16 (TMS9900 data manual, "Registers and memory").
    pub fn register(&self, number: u8) -> u16
        requires number { number < 16 }
        requires workspace { IsTrue (has_workspace self.now.cpu.wp) }
        ensures { Gives result ≡ word_read self.now.cpu.memory (register number self.now.cpu) }
    {
        match self.cpu.word_at(self.cpu.register_address(number)) {
            Ok(word) => word,
            Err(_) => unreachable!(),
        }
    }

    /// The memory.
    pub fn bus(&self) -> &Bus
        ensures { result.now ≡ self.now.cpu.memory }
    {
        &self.cpu.bus
    }
}
