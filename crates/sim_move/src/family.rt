//! MOVE from its dispatch to the end of the step.

ghost use Rattle.std.specs.Prelude.{◌≡◌, true};
ghost use Rattle.sim_rows.specs.Prelude.{AtDispatch, Dispatched, from_dispatch, operation_in_view, IsAt};
ghost use Rattle.sim_rows.specs.Prelude.{state_at_dispatch, Turned, view};
ghost use Rattle.sim_move.specs.Family.{is_move};
ghost use Rattle.sim_move.specs.Moves.{FindsCopy};
ghost use Rattle.sim_rows.specs.native_interp.declared.addresses.TheConstants as address;

use crate::copy_bytes;
use crate::length::find_length;
use crate::reason::reason_of;
use crate::source::{index_source, turn_to_source};
use crate::target::find_places;
use sim_rows::labels::{GSTOP, MOVEL, MOVES};
use sim_rows::processor::{Machine, Steps};
use sim_rows::{Turn, register};
use std::sync::ledger::Ledger;

/// Finds the length, the target and the source of MOVE, or stops by the reason of the first that is not there.
fn decode_move<L: Ledger>(machine: &mut Machine, steps: &mut Steps<L>)
    requires is_at { IsAt machine.old address.GOMOVE }
    requires dispatched { let v = view machine.old in Dispatched (state_at_dispatch v) v }
    requires family { is_move (operation_in_view (view machine.old)) ≡ true }
    ensures { let s = state_at_dispatch (view machine.old) in FindsCopy s machine.old machine.new steps.old steps.new }
{
    find_length(machine, steps);
    if machine.pc() != MOVEL {
        return;
    }
    find_places(machine, steps);
    if machine.pc() != MOVES {
        return;
    }
    index_source(machine, steps);
    if machine.pc() == GSTOP {
        return;
    }
    turn_to_source(machine, steps);
}

/// Runs MOVE from its dispatch to the end of the step. It stops by reason 2 where a cell of its operands
/// or of the index is not visible, by reason 4 where it is longer than 16,384 bytes, and by reason 5
/// where a register is not there.
pub fn run_move<L: Ledger>(machine: &mut Machine, steps: &mut Steps<L>) -> Turn
    requires { AtDispatch is_move machine.old }
    ensures { let s = state_at_dispatch (view machine.old) in
        Turned s machine.old machine.new (from_dispatch steps.old steps.new) result }
{
    decode_move(machine, steps);
    if machine.pc() == GSTOP {
        let Some(reason) = reason_of(register(machine, 0)) else {
            unreachable!();
        };
        return Turn::Stopped(reason);
    }
    copy_bytes(machine, steps);
    Turn::Stepped
}
