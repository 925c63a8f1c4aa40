//! MUL and DIV, from their dispatch to the end of the step.

ghost use Rattle.std.specs.Prelude.{◌≡◌, Some, true};
ghost use Rattle.sim_rows.specs.Prelude.{AtDispatch, Exits, row_entry, IsAt};
ghost use Rattle.sim_rows.specs.Prelude.{from_dispatch, state_at_dispatch, Turned, Two, view};
ghost use Rattle.sim_muldiv.specs.Family.{is_muldiv};
ghost use Rattle.sim_muldiv.specs.Rows as row;

use crate::product::run_product;
use crate::quotient::run_quotient;
use sim_rows::gpl::{GplOperation, TwoName};
use sim_rows::processor::{Machine, Steps};
use sim_rows::{Reason, Turn, start_row};
use std::sync::ledger::Ledger;

/// Runs the row of MUL or DIV to the end of the step.
fn run_row_of_two<L: Ledger>(machine: &mut Machine, steps: &mut Steps<L>, name: TwoName)
    requires is_at { IsAt machine.old (row_entry (Some (Two name))) }
    requires family { is_muldiv (Some (Two name)) ≡ true }
    requires ready { row.IsReady (view machine.old) }
    ensures { Exits machine.old machine.new steps.old steps.new (row.row (Two name) (view machine.old)) }
{
    match name {
        TwoName::MUL => run_product(machine, steps),
        TwoName::DIV => run_quotient(machine, steps),
        _ => unreachable!(),
    }
}

/// The same, by the operation that was found.
fn run_row<L: Ledger>(machine: &mut Machine, steps: &mut Steps<L>, operation: GplOperation)
    requires is_at { IsAt machine.old (row_entry (Some operation)) }
    requires family { is_muldiv (Some operation) ≡ true }
    requires ready { row.IsReady (view machine.old) }
    ensures { Exits machine.old machine.new steps.old steps.new (row.row operation (view machine.old)) }
{
    match operation {
        GplOperation::Two(name) => run_row_of_two(machine, steps, name),
        _ => unreachable!(),
    }
}

/// Runs MUL and DIV from their dispatch to the end of the step.
pub fn run_muldiv<L: Ledger>(machine: &mut Machine, steps: &mut Steps<L>) -> Turn
    requires { AtDispatch is_muldiv machine.old }
    ensures { Turned (state_at_dispatch (view machine.old))
        machine.old machine.new (from_dispatch steps.old steps.new) result }
{
    let Some(operation) = start_row(machine, steps) else {
        return Turn::Stopped(Reason::Cell);
    };
    run_row(machine, steps, operation);
    Turn::Stepped
}
