//! The instructions that use the stacks, from their dispatch to the end of the step.

ghost use Rattle.std.specs.Prelude.{◌≡◌, Some, true};
ghost use Rattle.sim_rows.specs.Prelude.{AtDispatch, AtEntry, Exits, from_dispatch, One, row_entry, IsAt};
ghost use Rattle.sim_rows.specs.Prelude.{state_at_dispatch, Turned, view};
ghost use Rattle.sim_rows.specs.sim_operands.Routines.{CanStore};
ghost use Rattle.sim_stack.specs.Family.{is_stack, is_stack_row};
ghost use Rattle.sim_stack.specs.Rows.{turn_at};
ghost use Rattle.sim_stack.specs.Rows as row;

use crate::call::run_call;
use crate::fetch::run_fetched;
use crate::push::run_push;
use crate::returns::run_return;
use sim_rows::gpl::{GplOperation, OneName};
use sim_rows::labels::GSTOP;
use sim_rows::processor::{Machine, Steps};
use sim_rows::{Reason, Turn, current_operation, start_row};
use std::sync::ledger::Ledger;

/// The turn of an instruction that has ended or stopped for lack of room.
fn turn_here(machine: &Machine) -> Turn
    ensures { result ≡ turn_at machine.now.cpu.pc }
{
    if machine.pc() == GSTOP {
        return Turn::Stopped(Reason::Stack);
    }
    Turn::Stepped
}

/// Runs the row of FETCH or PUSH to the end of the step.
fn run_row_of_one<L: Ledger>(machine: &mut Machine, steps: &mut Steps<L>, name: OneName)
    requires is_at { IsAt machine.old (row_entry (Some (One name))) }
    requires family { is_stack_row (Some (One name)) ≡ true }
    requires byte { (view machine.old).r.r3 ≡ 1 }
    requires visible { CanStore (view machine.old) }
    ensures { Exits machine.old machine.new steps.old steps.new (row.row (One name) (view machine.old)) }
{
    match name {
        OneName::FETCH => run_fetched(machine, steps),
        OneName::PUSH => run_push(machine, steps),
        _ => unreachable!(),
    }
}

/// The same, by the operation that was found.
fn run_row<L: Ledger>(machine: &mut Machine, steps: &mut Steps<L>, operation: GplOperation)
    requires entry { AtEntry is_stack_row operation machine.old }
    requires byte { (view machine.old).r.r3 ≡ 1 }
    ensures { Exits machine.old machine.new steps.old steps.new (row.row operation (view machine.old)) }
{
    match operation {
        GplOperation::One(name) => run_row_of_one(machine, steps, name),
        _ => unreachable!(),
    }
}

/// Runs FETCH or PUSH from its dispatch to the end of the step.
fn run_stack_row<L: Ledger>(machine: &mut Machine, steps: &mut Steps<L>) -> Turn
    requires { AtDispatch is_stack_row machine.old }
    ensures { let s = state_at_dispatch (view machine.old) in
        Turned s machine.old machine.new (from_dispatch steps.old steps.new) result }
{
    let Some(operation) = start_row(machine, steps) else {
        return Turn::Stopped(Reason::Cell);
    };
    run_row(machine, steps, operation);
    turn_here(machine)
}

/// Runs CALL, RTN, RTNC, FETCH or PUSH from its dispatch to the end of the step.
pub fn run_stack<L: Ledger>(machine: &mut Machine, steps: &mut Steps<L>) -> Turn
    requires { AtDispatch is_stack machine.old }
    ensures { let s = state_at_dispatch (view machine.old) in
        Turned s machine.old machine.new (from_dispatch steps.old steps.new) result }
{
    match current_operation(machine) {
        Some(GplOperation::Plain(_)) => {
            run_return(machine, steps);
            turn_here(machine)
        }
        Some(GplOperation::Jump(_)) => {
            run_call(machine, steps);
            turn_here(machine)
        }
        Some(GplOperation::One(_)) => run_stack_row(machine, steps),
        Some(
            GplOperation::Byte(_)
            | GplOperation::Branch(_)
            | GplOperation::Two(_)
            | GplOperation::Move(_),
        )
        | None => unreachable!(),
    }
}
