//! Runs of steps up to an address, a jump to itself, a limit or a stop.

ghost use Rattle.std.specs.Prelude.{◌≡◌, ◌≤◌, ◌+◌, ◌-◌};
ghost use Rattle.base_defs.specs.Counts.{saturating_sum};
ghost use Rattle.tms_defs.specs.Accesses.{Gives};
ghost use Rattle.console_defs.specs.Machine.{machine_step};
ghost use Rattle.console_defs.specs.Machine as machine;
ghost use Rattle.console_defs.specs.Runs.{IsRun, is_reached};
ghost use Rattle.tms_step.specs.Turns.{executed_by, end_of_turn, end_at_limit};

use crate::machine::Machine;
use crate::steps::Steps;
use console_defs::RunEnd;
use std::sync::ledger::Ledger;
use tms_defs::StepEnd;

/// The word of a jump to itself.
const SELF_JUMP: u16 = 0x10FF;

impl Machine {
    /// Makes steps up to the first of five ends. Before a step, Reached where the program counter is `stop`, else
    /// Limit where `limit` instructions were executed; at a step, Refused or Port as the step itself; after a step,
    /// SelfJump where it executed >10FF. The counter rises by the number of executed instructions.
    pub fn run_to<L: Ledger>(
        &mut self,
        stop: Option<u16>,
        limit: u64,
        steps: &mut Steps<L>,
    ) -> RunEnd
        ensures rises { steps.old ≤ steps.new }
        ensures run { IsRun stop limit (steps.new - steps.old) self.old result self.new }
        // a number of steps that all executed an instruction lead to the machine
        ensures steps { machine.steps (steps.new - steps.old) self.old ≡ Gives self.new }
        ensures count { self.new.count ≡ saturating_sum self.old.count (steps.new - steps.old) }
        ensures limit { steps.new - steps.old ≤ limit }
    {
        self.run(stop, limit, steps)
    }

    /// The loop of a run.
    fn run<L: Ledger>(&mut self, stop: Option<u16>, limit: u64, steps: &mut Steps<L>) -> RunEnd
        ensures rises { steps.old ≤ steps.new }
        ensures run { IsRun stop limit (steps.new - steps.old) self.old result self.new }
        ensures limit { steps.new - steps.old ≤ limit }
    {
        for _made in 0..limit {
            if is_reached(stop, self.pc()) {
                return RunEnd::Reached;
            }
            if let Some(end) = self.turn(steps) {
                return end;
            }
        }
        end_at_limit(stop, self.pc())
    }

    /// One step, counted where it executed an instruction, and the end of a run that it is.
    #[inline(always)]
    fn turn<L: Ledger>(&mut self, steps: &mut Steps<L>) -> Option<RunEnd>
        ensures step { self.new ≡ (machine_step self.old).1 }
        ensures end { result ≡ end_of_turn (machine_step self.old).0 }
        ensures ticks { steps.new ≡ steps.old + executed_by (machine_step self.old).0 }
    {
        match self.step() {
            StepEnd::Done(word) => {
                steps.tick();
                (word == SELF_JUMP).then_some(RunEnd::SelfJump)
            }
            StepEnd::Refused(address) => Some(RunEnd::Refused(address)),
            StepEnd::Port(address) => Some(RunEnd::Port(address)),
        }
    }
}

/// The end of a run that executed as many instructions as its limit says: the address is looked at before the limit.
fn end_at_limit(stop: Option<u16>, pc: u16) -> RunEnd
    ensures { result ≡ end_at_limit stop pc }
{
    if is_reached(stop, pc) {
        RunEnd::Reached
    } else {
        RunEnd::Limit
    }
}

/// The program counter is at the address that ends the run.
#[inline]
fn is_reached(stop: Option<u16>, pc: u16) -> bool
    ensures { result ≡ is_reached stop pc }
{
    stop == Some(pc)
}
