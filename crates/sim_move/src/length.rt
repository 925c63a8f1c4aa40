//! The length of MOVE.

ghost use Rattle.std.specs.Prelude.{◌≡◌};
ghost use Rattle.sim_rows.specs.Prelude.{Dispatched, Exits, IsAt, state_at_dispatch, view};
ghost use Rattle.sim_rows.specs.sim_operands.Routines.{CanLoad};
ghost use Rattle.sim_rows.specs.native_interp.declared.addresses.TheConstants as address;
ghost use Rattle.sim_move.specs.Rows.{IsReady};
ghost use Rattle.sim_move.specs.Rows as row;

use crate::pieces::{load_length, request_length};
use sim_rows::labels::{ADDR, MOVEN};
use sim_rows::processor::{Machine, Steps};
use sim_rows::subroutines::{address_routine, load_routine};
use std::sync::ledger::Ledger;

/// Loads the length of MOVE, which follows in GROM or is at a place that was found.
fn load_count<L: Ledger>(machine: &mut Machine, steps: &mut Steps<L>)
    requires is_at { IsAt machine.old address.MOVEN }
    requires visible { CanLoad (view machine.old) }
    ensures { Exits machine.old machine.new steps.old steps.new (row.load_count (view machine.old)) }
{
    load_length(machine, steps);
    load_routine(machine, steps);
}

/// Finds the place of the length and loads it, or stops by reason 2.
fn load_placed<L: Ledger>(machine: &mut Machine, steps: &mut Steps<L>)
    requires is_at { IsAt machine.old address.ADDR }
    requires ready { IsReady (view machine.old) }
    requires word { (view machine.old).r.r3 ≡ 2 }
    ensures { Exits machine.old machine.new steps.old steps.new (row.load_placed (view machine.old)) }
{
    address_routine(machine, steps);
    if machine.pc() == MOVEN {
        load_count(machine, steps);
    }
}

/// Finds the length of MOVE, at an operand or in the bytes that follow, or stops by reason 2.
pub(crate) fn find_length<L: Ledger>(machine: &mut Machine, steps: &mut Steps<L>)
    requires is_at { IsAt machine.old address.GOMOVE }
    requires dispatched { let v = view machine.old in Dispatched (state_at_dispatch v) v }
    ensures { Exits machine.old machine.new steps.old steps.new (row.find_length (view machine.old)) }
{
    request_length(machine, steps);
    if machine.pc() == ADDR {
        load_placed(machine, steps);
    } else {
        load_count(machine, steps);
    }
}
