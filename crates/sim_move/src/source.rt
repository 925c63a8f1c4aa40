//! A source in GROM.

ghost use Rattle.sim_rows.specs.Prelude.{Exits, IsAt, view};
ghost use Rattle.sim_rows.specs.native_interp.declared.addresses.TheConstants as address;
ghost use Rattle.sim_move.specs.Rows as row;

use crate::pieces::{request_index, request_next, request_source, seek_source, turn_to_grom};
use sim_rows::processor::{Machine, Steps};
use sim_rows::subroutines::{check_index, seek_address, stream_value};
use sim_rows::where_next;
use std::sync::ledger::Ledger;

/// Reads the address of a source in GROM and adds its index, or stops by reason 2.
pub(crate) fn index_source<L: Ledger>(machine: &mut Machine, steps: &mut Steps<L>)
    requires { IsAt machine.old address.MOVES }
    ensures { Exits machine.old machine.new steps.old steps.new (row.index_source (view machine.old)) }
{
    request_source(machine, steps);
    stream_value(machine, steps);
    request_index(machine, steps);
    check_index(machine, steps);
}

/// Keeps the next address and sets GROM to the address of the source.
pub(crate) fn turn_to_source<L: Ledger>(machine: &mut Machine, steps: &mut Steps<L>)
    requires { IsAt machine.old address.MOVEX }
    ensures { Exits machine.old machine.new steps.old steps.new (row.turn_to_source (view machine.old)) }
{
    request_next(machine, steps);
    where_next(machine, steps);
    seek_source(machine, steps);
    seek_address(machine, steps);
    turn_to_grom(machine, steps);
}
