//! The comparisons and the tests, from their dispatch to the end of the step.

ghost use Rattle.std.specs.Prelude.{◌≡◌, Some, true};
ghost use Rattle.sim_rows.specs.Prelude.{AtDispatch, AtEntry, Exits, operation_entry};
ghost use Rattle.sim_rows.specs.Prelude.{operation_in_view, Plain, row_entry, RunsRow, IsAt, state_at_dispatch};
ghost use Rattle.sim_rows.specs.Prelude.{from_dispatch, Turned, view};
ghost use Rattle.sim_compare.specs.Family.{comparison, is_compare, is_comparison, is_test, test};

use crate::condition::end_comparison;
use crate::pieces::{
    compare_equal, compare_greater, compare_greater_or_equal, compare_higher,
    compare_higher_or_equal, compare_ones, compare_with_zero, test_carry, test_greater,
    test_higher, test_overflow,
};
use sim_rows::gpl::{GplOperation, OneName, PlainOp, TwoName};
use sim_rows::processor::{Machine, Steps};
use sim_rows::{Reason, Turn, current_operation, start_row};
use std::sync::ledger::Ledger;

/// Runs the piece of a comparison.
fn compare_operands<L: Ledger>(machine: &mut Machine, steps: &mut Steps<L>, operation: GplOperation)
    requires is_at { IsAt machine.old (row_entry (Some operation)) }
    requires comparison { is_comparison (Some operation) ≡ true }
    ensures { Exits machine.old machine.new steps.old steps.new (comparison operation (view machine.old)) }
{
    match operation {
        GplOperation::Two(TwoName::CH) => compare_higher(machine, steps),
        GplOperation::Two(TwoName::CHE) => compare_higher_or_equal(machine, steps),
        GplOperation::Two(TwoName::CGT) => compare_greater(machine, steps),
        GplOperation::Two(TwoName::CGE) => compare_greater_or_equal(machine, steps),
        GplOperation::Two(TwoName::CEQ) => compare_equal(machine, steps),
        GplOperation::Two(TwoName::CLOG) => compare_ones(machine, steps),
        GplOperation::One(OneName::CZ) => compare_with_zero(machine, steps),
        _ => unreachable!(),
    }
}

/// Runs a comparison from its row to the end of the step.
fn run_comparison<L: Ledger>(machine: &mut Machine, steps: &mut Steps<L>, operation: GplOperation)
    requires { AtEntry is_comparison operation machine.old }
    ensures { RunsRow operation 6 machine.old machine.new steps.old steps.new }
{
    compare_operands(machine, steps, operation);
    end_comparison(machine, steps);
}

/// Runs the piece of a test.
fn test_status<L: Ledger>(machine: &mut Machine, steps: &mut Steps<L>, name: PlainOp)
    requires is_at { IsAt machine.old (operation_entry (Some (Plain name))) }
    requires test { is_test (Some (Plain name)) ≡ true }
    ensures { Exits machine.old machine.new steps.old steps.new (test (Some (Plain name)) (view machine.old)) }
{
    match name {
        PlainOp::H => test_higher(machine, steps),
        PlainOp::GT => test_greater(machine, steps),
        PlainOp::CARRY => test_carry(machine, steps),
        PlainOp::OVF => test_overflow(machine, steps),
        PlainOp::EXIT | PlainOp::RTN | PlainOp::RTNC => unreachable!(),
    }
}

/// Runs a test from its dispatch to the end of the step.
fn run_test<L: Ledger>(machine: &mut Machine, steps: &mut Steps<L>, name: PlainOp) -> Turn
    requires at { AtDispatch is_test machine.old }
    requires operation { operation_in_view (view machine.old) ≡ Some (Plain name) }
    ensures { Turned (state_at_dispatch (view machine.old))
        machine.old machine.new (from_dispatch steps.old steps.new) result }
{
    test_status(machine, steps, name);
    end_comparison(machine, steps);
    Turn::Stepped
}

/// Runs a comparison from its dispatch to the end of the step.
fn run_compare_row<L: Ledger>(machine: &mut Machine, steps: &mut Steps<L>) -> Turn
    requires { AtDispatch is_comparison machine.old }
    ensures { Turned (state_at_dispatch (view machine.old))
        machine.old machine.new (from_dispatch steps.old steps.new) result }
{
    let Some(operation) = start_row(machine, steps) else {
        return Turn::Stopped(Reason::Cell);
    };
    run_comparison(machine, steps, operation);
    Turn::Stepped
}

/// Runs a comparison or a test from its dispatch to the end of the step.
pub fn run_compare<L: Ledger>(machine: &mut Machine, steps: &mut Steps<L>) -> Turn
    requires { AtDispatch is_compare machine.old }
    ensures { Turned (state_at_dispatch (view machine.old))
        machine.old machine.new (from_dispatch steps.old steps.new) result }
{
    match current_operation(machine) {
        Some(GplOperation::Plain(name)) => run_test(machine, steps, name),
        Some(GplOperation::One(_)) => run_compare_row(machine, steps),
        Some(GplOperation::Two(_)) => run_compare_row(machine, steps),
        Some(
            GplOperation::Byte(_)
            | GplOperation::Jump(_)
            | GplOperation::Branch(_)
            | GplOperation::Move(_),
        )
        | None => unreachable!(),
    }
}
