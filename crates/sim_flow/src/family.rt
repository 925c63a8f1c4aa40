//! EXIT, B, BR, BS and CASE, from their dispatch to the end of the step.

ghost use Rattle.std.specs.Prelude.{◌≡◌, Some};
ghost use Rattle.sim_rows.specs.Prelude.{AtDispatch, B, Branch, CASE, Dispatched, Jump, One};
ghost use Rattle.sim_rows.specs.Prelude.{from_dispatch, operation_in_view, RunsRow, IsAt, state_at_dispatch};
ghost use Rattle.sim_rows.specs.Prelude.{Stepped, Turned, view};
ghost use Rattle.sim_flow.specs.Family.{is_case, is_flow};
ghost use Rattle.sim_rows.specs.native_interp.declared.addresses.TheConstants as address;
ghost use Rattle.sim_rows.specs.sim_view.Bounds.{bound_of_case_row};

use crate::pieces::{
    find_branch, go_to_branch, leave, read_branch_target, read_target, request_table, test_branch,
};
use sim_compare::clear_condition;
use sim_jumps::{jump, take_jump};
use sim_rows::gpl::GplOperation;
use sim_rows::labels::BTARG;
use sim_rows::processor::{Machine, Steps};
use sim_rows::subroutines::seek_address;
use sim_rows::{Reason, Turn, current_operation, start_row, where_next};
use std::sync::ledger::Ledger;

/// Runs B from its dispatch to the end of the step.
fn run_jump<L: Ledger>(machine: &mut Machine, steps: &mut Steps<L>)
    requires is_at { IsAt machine.old address.GOB }
    requires dispatched { let v = view machine.old in Dispatched (state_at_dispatch v) v }
    requires is { operation_in_view (view machine.old) ≡ Some (Jump B) }
    ensures { let s = state_at_dispatch (view machine.old) in
        Turned s machine.old machine.new (from_dispatch steps.old steps.new) Stepped }
{
    read_target(machine, steps);
    jump(machine, steps);
}

/// Runs BR and BS from their dispatch to the end of the step.
fn run_branch<L: Ledger>(machine: &mut Machine, steps: &mut Steps<L>, _on: bool)
    requires is_at { IsAt machine.old address.BRANCH }
    requires dispatched { let v = view machine.old in Dispatched (state_at_dispatch v) v }
    requires is { operation_in_view (view machine.old) ≡ Some (Branch _on) }
    ensures { let s = state_at_dispatch (view machine.old) in
        Turned s machine.old machine.new (from_dispatch steps.old steps.new) Stepped }
{
    test_branch(machine, steps);
    if machine.pc() == BTARG {
        read_branch_target(machine, steps);
        take_jump(machine, steps);
    } else {
        clear_condition(machine, steps);
    }
}

/// Runs CASE from its row to the end of the step.
fn run_case<L: Ledger>(machine: &mut Machine, steps: &mut Steps<L>)
    requires { IsAt machine.old address.CASEV }
    ensures { RunsRow (One CASE) bound_of_case_row machine.old machine.new steps.old steps.new }
{
    request_table(machine, steps);
    where_next(machine, steps);
    find_branch(machine, steps);
    seek_address(machine, steps);
    go_to_branch(machine, steps);
    take_jump(machine, steps);
}

/// Runs CASE from its dispatch to the end of the step.
fn run_case_row<L: Ledger>(machine: &mut Machine, steps: &mut Steps<L>) -> Turn
    requires { AtDispatch is_case machine.old }
    ensures { let s = state_at_dispatch (view machine.old) in
        Turned s machine.old machine.new (from_dispatch steps.old steps.new) result }
{
    let Some(_) = start_row(machine, steps) else {
        return Turn::Stopped(Reason::Cell);
    };
    run_case(machine, steps);
    Turn::Stepped
}

/// Runs EXIT, B, BR, BS and CASE from their dispatch to the end of the step.
pub fn run_flow<L: Ledger>(machine: &mut Machine, steps: &mut Steps<L>) -> Turn
    requires { AtDispatch is_flow machine.old }
    ensures { let s = state_at_dispatch (view machine.old) in
        Turned s machine.old machine.new (from_dispatch steps.old steps.new) result }
{
    match current_operation(machine) {
        Some(GplOperation::Plain(_)) => {
            leave(machine, steps);
            Turn::Stopped(Reason::Exit)
        }
        Some(GplOperation::Jump(_)) => {
            run_jump(machine, steps);
            Turn::Stepped
        }
        Some(GplOperation::Branch(on)) => {
            run_branch(machine, steps, on);
            Turn::Stepped
        }
        Some(GplOperation::One(_)) => run_case_row(machine, steps),
        Some(GplOperation::Byte(_) | GplOperation::Two(_) | GplOperation::Move(_)) | None =>
            unreachable!(),
    }
}
