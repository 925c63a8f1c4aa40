//! The target of MOVE, and the source where it is in memory.

ghost use Rattle.sim_rows.specs.Prelude.{Exits, IsAt, view};
ghost use Rattle.sim_rows.specs.native_interp.declared.addresses.TheConstants as address;
ghost use Rattle.sim_move.specs.Rows as row;

use crate::pieces::{check_registers, keep_length, keep_target};
use sim_rows::labels::{ADDR, MOVED, MOVER};
use sim_rows::processor::{Machine, Steps};
use sim_rows::subroutines::address_routine;
use std::sync::ledger::Ledger;

/// Keeps the target, and finds the source where that is in memory too, or stops by reason 2.
fn find_source<L: Ledger>(machine: &mut Machine, steps: &mut Steps<L>)
    requires { IsAt machine.old address.MOVED }
    ensures { Exits machine.old machine.new steps.old steps.new (row.find_source (view machine.old)) }
{
    keep_target(machine, steps);
    if machine.pc() == ADDR {
        address_routine(machine, steps);
    }
}

/// Finds a target in memory and goes on to the source, or stops by reason 2.
fn find_in_memory<L: Ledger>(machine: &mut Machine, steps: &mut Steps<L>)
    requires { IsAt machine.old address.ADDR }
    ensures { Exits machine.old machine.new steps.old steps.new (row.find_in_memory (view machine.old)) }
{
    address_routine(machine, steps);
    if machine.pc() == MOVED {
        find_source(machine, steps);
    }
}

/// Keeps the length of MOVE and finds the target, a place in memory or registers of the video processor, and the
/// source, unless that is in GROM. It stops by reason 4 where the length is above its limit, by reason 5 where a
/// register is not there, and by reason 2 where a cell is not visible.
pub(crate) fn find_places<L: Ledger>(machine: &mut Machine, steps: &mut Steps<L>)
    requires { IsAt machine.old address.MOVEL }
    ensures { Exits machine.old machine.new steps.old steps.new (row.find_places (view machine.old)) }
{
    keep_length(machine, steps);
    if machine.pc() == MOVER {
        check_registers(machine, steps);
    } else if machine.pc() == ADDR {
        find_in_memory(machine, steps);
    }
}
