//! A shift, from its dispatch to the end of the step.

ghost use Rattle.std.specs.Prelude.{◌<◌, ◌≡◌};
ghost use Rattle.sim_rows.specs.Prelude.{AtDispatch, AtEntry, Exits, IsVisible, PortsAreIdle};
ghost use Rattle.sim_rows.specs.Prelude.{from_dispatch, RunsRow, IsAt, state_at_dispatch, Turned, Two, view};
ghost use Rattle.sim_shift.specs.Pieces.{asking, shifts};
ghost use Rattle.sim_shift.specs.Family as family;
ghost use Rattle.sim_rows.specs.sim_view.Bounds.{bound_of_shift_row};

use crate::pieces::{
    request_arithmetic_count, request_left_count, request_right_count, request_turn_count,
    shift_arithmetic, shift_left, shift_right, take_count, turn_right,
};
use sim_rows::gpl::{GplOperation, TwoName};
use sim_rows::instructions::ShiftOp;
use sim_rows::processor::{Machine, Steps};
use sim_rows::{Reason, Turn, finish_row, start_row};
use std::sync::ledger::Ledger;

/// The processor's shift that runs an operation.
fn shift_of(operation: GplOperation) -> ShiftOp
    ensures { result ≡ family.shift_of operation }
{
    match operation {
        GplOperation::Two(TwoName::SRA) => ShiftOp::SRA,
        GplOperation::Two(TwoName::SLL) => ShiftOp::SLA,
        GplOperation::Two(TwoName::SRL) => ShiftOp::SRL,
        _ => ShiftOp::SRC,
    }
}

/// The first piece of a shift, which asks for its count.
fn request_count<L: Ledger>(machine: &mut Machine, steps: &mut Steps<L>, op: ShiftOp)
    requires { IsAt machine.old (family.count_entry op) }
    ensures { Exits machine.old machine.new steps.old steps.new (asking (family.shift_entry op) (view machine.old)) }
{
    match op {
        ShiftOp::SRA => request_arithmetic_count(machine, steps),
        ShiftOp::SLA => request_left_count(machine, steps),
        ShiftOp::SRL => request_right_count(machine, steps),
        ShiftOp::SRC => request_turn_count(machine, steps),
    }
}

/// The last piece of a shift, which shifts its value.
fn shift_value<L: Ledger>(machine: &mut Machine, steps: &mut Steps<L>, op: ShiftOp)
    requires is_at { IsAt machine.old (family.shift_entry op) }
    requires some { 0 < (view machine.old).r.r0 }
    requires few { (view machine.old).r.r0 < 16 }
    ensures { Exits machine.old machine.new steps.old steps.new (shifts op (view machine.old)) }
{
    match op {
        ShiftOp::SRA => shift_arithmetic(machine, steps),
        ShiftOp::SLA => shift_left(machine, steps),
        ShiftOp::SRL => shift_right(machine, steps),
        ShiftOp::SRC => turn_right(machine, steps),
    }
}

/// Runs a shift by its name, from its row to the end of the step.
fn run_named<L: Ledger>(machine: &mut Machine, steps: &mut Steps<L>, op: ShiftOp)
    requires is_at { IsAt machine.old (family.count_entry op) }
    requires idle { PortsAreIdle machine.old.cpu.memory }
    requires space { (view machine.old).r.r8 < 2 }
    requires visible { let r = (view machine.old).r in IsVisible r.r8 r.r7 r.r3 }
    ensures { RunsRow (Two (family.name_of op)) bound_of_shift_row machine.old machine.new steps.old steps.new }
{
    request_count(machine, steps, op);
    if !take_count(machine, steps) {
        finish_row(machine, steps);
        return;
    }
    shift_value(machine, steps, op);
    finish_row(machine, steps);
}

/// Runs a shift from its row to the end of the step.
fn run_row<L: Ledger>(machine: &mut Machine, steps: &mut Steps<L>, operation: GplOperation)
    requires { AtEntry family.is_shift operation machine.old }
    ensures { RunsRow operation bound_of_shift_row machine.old machine.new steps.old steps.new }
{
    run_named(machine, steps, shift_of(operation));
}

/// Runs a shift from its dispatch to the end of the step.
pub fn run_shift<L: Ledger>(machine: &mut Machine, steps: &mut Steps<L>) -> Turn
    requires { AtDispatch family.is_shift machine.old }
    ensures { Turned (state_at_dispatch (view machine.old))
        machine.old machine.new (from_dispatch steps.old steps.new) result }
{
    let Some(operation) = start_row(machine, steps) else {
        return Turn::Stopped(Reason::Cell);
    };
    run_row(machine, steps, operation);
    Turn::Stepped
}
