//! Runs a GPL program by turns of the interpreter, up to the step that ends it.

ghost use Rattle.sim_rows.specs.Prelude.{IsMatching, shown_by};
ghost use Rattle.sim_steps.specs.Running.{RunsTurns};

use crate::turn::gpl_turn;
use sim_rows::processor::{Machine, Steps};
use sim_rows::{Reason, Turn};
use std::sync::ledger::Ledger;

/// Makes steps of GPL up to the first that stops, and no more than a given number: how many were made, and why there
/// was no further one, if a step stopped.
///
/// The machine is as the run of the definitions leaves it: it matches the last state, or is halted with it and the
/// reason. No turn takes more TMS9900 instructions than the bound of its step.
pub fn run_turns<L: Ledger>(
    machine: &mut Machine,
    steps: &mut Steps<L>,
    limit: u32,
) -> (u32, Option<Reason>)
    requires { IsMatching machine.old }
    ensures { RunsTurns (shown_by machine.old.cpu.memory) limit
        machine.old machine.new steps.old steps.new result.0 result.1 }
{
    for made in 0..limit {
        if let Turn::Stopped(reason) = gpl_turn(machine, steps) {
            return (made, Some(reason));
        }
    }
    (limit, None)
}
