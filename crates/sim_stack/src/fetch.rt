//! FETCH: the byte at the return address is stored, and that address goes on.

ghost use Rattle.std.specs.Prelude.{◌≡◌};
ghost use Rattle.sim_rows.specs.Prelude.{Exits, IsVisible, IsAt, view};
ghost use Rattle.sim_rows.specs.sim_operands.Routines.{CanStore};
ghost use Rattle.sim_rows.specs.native_interp.declared.addresses.TheConstants as address;
ghost use Rattle.sim_stack.specs.Rows as row;

use crate::pieces::{
    keep_byte, keep_next, keep_place, keep_stacked_next, request_byte, request_stacked,
    seek_stacked, store_fetched, store_stacked,
};
use sim_jumps::resume_row_routine;
use sim_rows::labels::{FETCH, GSTOP, WHERE};
use sim_rows::processor::{Machine, Steps};
use sim_rows::subroutines::{fetch_byte, load_routine, seek_address, store_routine};
use sim_rows::where_next;
use std::sync::ledger::Ledger;

/// Keeps the next address, where GROM goes on.
fn set_aside<L: Ledger>(machine: &mut Machine, steps: &mut Steps<L>)
    requires is_at { IsAt machine.old address.WHERE }
    requires link { (view machine.old).r.r11 ≡ address.FETCHN }
    ensures { Exits machine.old machine.new steps.old steps.new (row.set_aside (view machine.old)) }
{
    where_next(machine, steps);
    keep_next(machine, steps);
    seek_address(machine, steps);
}

/// Loads the address on the stack.
fn load_stacked<L: Ledger>(machine: &mut Machine, steps: &mut Steps<L>)
    requires is_at { IsAt machine.old address.FETCHP }
    requires visible { IsVisible 0 (view machine.old).r.r2 2 }
    ensures { Exits machine.old machine.new steps.old steps.new (row.load_stacked (view machine.old)) }
{
    request_stacked(machine, steps);
    load_routine(machine, steps);
}

/// Reads the byte of GROM at that address.
fn fetch_stacked<L: Ledger>(machine: &mut Machine, steps: &mut Steps<L>)
    requires { IsAt machine.old address.FETCHA }
    ensures { Exits machine.old machine.new steps.old steps.new (row.fetch_stacked (view machine.old)) }
{
    seek_stacked(machine, steps);
    seek_address(machine, steps);
    request_byte(machine, steps);
    fetch_byte(machine, steps);
    keep_byte(machine, steps);
}

/// Finds the address after the byte, to be stored.
fn locate_stacked<L: Ledger>(machine: &mut Machine, steps: &mut Steps<L>)
    requires is_at { IsAt machine.old address.WHERE }
    requires link { (view machine.old).r.r11 ≡ address.FETCHB }
    ensures { Exits machine.old machine.new steps.old steps.new (row.locate_stacked (view machine.old)) }
{
    where_next(machine, steps);
    keep_stacked_next(machine, steps);
    seek_address(machine, steps);
}

/// Stores the address and the byte, and goes on after the instruction.
fn end_fetch<L: Ledger>(machine: &mut Machine, steps: &mut Steps<L>)
    requires is_at { IsAt machine.old address.FETCHS }
    requires visible { row.CanStoreBoth (view machine.old) }
    ensures { Exits machine.old machine.new steps.old steps.new (row.end_fetch (view machine.old)) }
{
    store_stacked(machine, steps);
    store_routine(machine, steps);
    store_fetched(machine, steps);
    store_routine(machine, steps);
    resume_row_routine(machine, steps);
}

/// Runs FETCH from its row to the end of the step.
pub fn run_fetched<L: Ledger>(machine: &mut Machine, steps: &mut Steps<L>)
    requires is_at { IsAt machine.old address.FETCHV }
    requires byte { (view machine.old).r.r3 ≡ 1 }
    requires visible { CanStore (view machine.old) }
    ensures { Exits machine.old machine.new steps.old steps.new (row.fetched (view machine.old)) }
{
    keep_place(machine, steps);
    if machine.pc() == GSTOP {
        return;
    }
    set_aside(machine, steps);
    load_stacked(machine, steps);
    fetch_stacked(machine, steps);
    locate_stacked(machine, steps);
    end_fetch(machine, steps);
}
