//! A turn of the interpreter, which makes one step of GPL.

ghost use Rattle.sim_rows.specs.Prelude.{AtDispatch, IsMatching, shown_by, state_at_dispatch};
ghost use Rattle.sim_rows.specs.Prelude.{from_dispatch, Turned, view, whole_turn};
ghost use Rattle.sim_steps.specs.Families as spec;

use crate::family::{Family, family_of};
use crate::start::stop_code;
use sim_alu::run_alu;
use sim_compare::run_compare;
use sim_flow::run_flow;
use sim_misc::run_misc;
use sim_move::run_move;
use sim_muldiv::run_muldiv;
use sim_rows::processor::{Machine, Steps};
use sim_rows::{Reason, Turn, begin_step, current_operation};
use sim_shift::run_shift;
use sim_stack::run_stack;
use std::sync::ledger::Ledger;

/// Runs the interpreter from the beginning of a step of GPL to its end, on a machine that matches a state of GPL.
///
/// The answer is the step's: [`Turn::Stepped`] where it is made, and the machine then matches the state after it;
/// [`Turn::Stopped`] with the reason where it is not, and the machine is then halted with the state as it was and the
/// address of the code byte. It executes at most as many TMS9900 instructions as the bound of the step.
pub fn gpl_turn<L: Ledger>(machine: &mut Machine, steps: &mut Steps<L>) -> Turn
    requires { IsMatching machine.old }
    ensures { Turned (shown_by machine.old.cpu.memory) machine.old machine.new (whole_turn steps.old steps.new) result }
{
    begin_step(machine, steps);
    run_family(machine, steps, family_of(current_operation(machine)))
}

/// Runs the instructions of a family, from the dispatch of a step to its end.
fn run_family<L: Ledger>(machine: &mut Machine, steps: &mut Steps<L>, family: Family) -> Turn
    requires { AtDispatch (spec.belongs family) machine.old }
    ensures { Turned (state_at_dispatch (view machine.old))
        machine.old machine.new (from_dispatch steps.old steps.new) result }
{
    match family {
        Family::Alu => run_alu(machine, steps),
        Family::Shift => run_shift(machine, steps),
        Family::MulDiv => run_muldiv(machine, steps),
        Family::Compare => run_compare(machine, steps),
        Family::Flow => run_flow(machine, steps),
        Family::Stack => run_stack(machine, steps),
        Family::Move => run_move(machine, steps),
        Family::Misc => run_misc(machine, steps),
        Family::Refused => {
            stop_code(machine, steps);
            Turn::Stopped(Reason::Opcode)
        }
    }
}
