//! EX from its dispatch to the end of the step, and all operations of the family.

ghost use Rattle.std.specs.Prelude.{◌<◌};
ghost use Rattle.sim_rows.specs.Prelude.{AtDispatch, AtEntry, EX, IsVisible, RunsRow};
ghost use Rattle.sim_rows.specs.Prelude.{from_dispatch, state_at_dispatch, Turned, Two, view};
ghost use Rattle.sim_misc.specs.Family.{is_exchange, is_misc};
ghost use Rattle.sim_rows.specs.sim_view.Bounds.{bound_of_exchange_row};

use crate::border::run_border;
use crate::pieces::{keep_destination, turn_to_source};
use crate::random::run_random;
use crate::screen::run_fill;
use sim_rows::gpl::{ByteOp, GplOperation};
use sim_rows::processor::{Machine, Steps};
use sim_rows::subroutines::run_store;
use sim_rows::{Reason, Turn, current_operation, finish_row, start_row};
use std::sync::ledger::Ledger;

/// Runs EX from its row to the end of the step: the value of the source is stored, then the old one of the destination.
fn run_exchange<L: Ledger>(machine: &mut Machine, steps: &mut Steps<L>)
    requires entry { AtEntry is_exchange (Two EX) machine.old }
    requires source_space { (view machine.old).r.r5 < 2 }
    requires source_visible { let r = (view machine.old).r in IsVisible r.r5 r.r2 r.r3 }
    ensures { RunsRow (Two EX) bound_of_exchange_row machine.old machine.new steps.old steps.new }
{
    keep_destination(machine, steps);
    run_store(machine, steps);
    turn_to_source(machine, steps);
    finish_row(machine, steps);
}

/// Runs EX from its dispatch to the end of the step.
fn run_exchange_row<L: Ledger>(machine: &mut Machine, steps: &mut Steps<L>) -> Turn
    requires { AtDispatch is_exchange machine.old }
    ensures { let s = state_at_dispatch (view machine.old) in
        Turned s machine.old machine.new (from_dispatch steps.old steps.new) result }
{
    let Some(_) = start_row(machine, steps) else {
        return Turn::Stopped(Reason::Cell);
    };
    run_exchange(machine, steps);
    Turn::Stepped
}

/// Runs EX, RAND, BACK or ALL from its dispatch to the end of the step.
pub fn run_misc<L: Ledger>(machine: &mut Machine, steps: &mut Steps<L>) -> Turn
    requires { AtDispatch is_misc machine.old }
    ensures { let s = state_at_dispatch (view machine.old) in
        Turned s machine.old machine.new (from_dispatch steps.old steps.new) result }
{
    match current_operation(machine) {
        Some(GplOperation::Byte(ByteOp::RAND)) => run_random(machine, steps),
        Some(GplOperation::Byte(ByteOp::BACK)) => run_border(machine, steps),
        Some(GplOperation::Byte(ByteOp::ALL)) => run_fill(machine, steps),
        Some(GplOperation::Two(_)) => run_exchange_row(machine, steps),
        Some(
            GplOperation::Plain(_)
            | GplOperation::Jump(_)
            | GplOperation::Branch(_)
            | GplOperation::One(_)
            | GplOperation::Move(_),
        )
        | None => unreachable!(),
    }
}
