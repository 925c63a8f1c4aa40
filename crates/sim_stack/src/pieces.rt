//! The pieces of CALL, RTN, RTNC, PUSH and FETCH.

ghost use Rattle.std.specs.Prelude.{◌≤◌};
ghost use Rattle.sim_rows.specs.Prelude.{Exits, IsAt, view};
ghost use Rattle.sim_rows.specs.native_interp.declared.addresses.TheConstants as address;
ghost use Rattle.sim_stack.specs.Pieces as piece;

use sim_rows::labels::{CALLN, CALLS, FETCH, GOTO, LOAD, SEEK, SHOW, STO, STORE, TAKE, WHERE};
use sim_rows::processor::{Machine, Steps};
use sim_rows::run_piece;
use std::sync::ledger::Ledger;

/// The piece of CALL that reads the address that follows and grows the stack's pointer, or stops by reason 3.
pub fn read_call_target<L: Ledger>(machine: &mut Machine, steps: &mut Steps<L>)
    requires { IsAt machine.old address.GOCALL }
    ensures { Exits machine.old machine.new steps.old steps.new (piece.read_call_target (view machine.old)) }
{
    run_piece(machine, steps, &[CALLN]);
}

/// The piece of CALL that finds the next address.
pub fn find_next<L: Ledger>(machine: &mut Machine, steps: &mut Steps<L>)
    requires { IsAt machine.old address.CALLN }
    ensures { Exits machine.old machine.new steps.old steps.new (piece.find_next (view machine.old)) }
{
    run_piece(machine, steps, &[CALLS]);
}

/// The piece of CALL that stores the pointer and the next address, and goes on at the one that is called.
pub fn store_next<L: Ledger>(machine: &mut Machine, steps: &mut Steps<L>)
    requires is_at { IsAt machine.old address.CALLS }
    requires visible { (view machine.old).r.r7 ≤ 0xC0 }
    ensures { Exits machine.old machine.new steps.old steps.new (piece.store_next (view machine.old)) }
{
    run_piece(machine, steps, &[SHOW]);
}

/// The piece of FETCH that keeps the operand's place and asks WHERE for the next address, or stops by reason 3.
pub fn keep_place<L: Ledger>(machine: &mut Machine, steps: &mut Steps<L>)
    requires { IsAt machine.old address.FETCHV }
    ensures { Exits machine.old machine.new steps.old steps.new (piece.keep_place (view machine.old)) }
{
    run_piece(machine, steps, &[WHERE]);
}

/// The piece of FETCH that keeps the next address and asks SEEK for it.
pub fn keep_next<L: Ledger>(machine: &mut Machine, steps: &mut Steps<L>)
    requires { IsAt machine.old address.FETCHN }
    ensures { Exits machine.old machine.new steps.old steps.new (piece.keep_next (view machine.old)) }
{
    run_piece(machine, steps, &[SEEK]);
}

/// The piece of FETCH that asks LOAD for the word on the stack.
pub fn request_stacked<L: Ledger>(machine: &mut Machine, steps: &mut Steps<L>)
    requires { IsAt machine.old address.FETCHP }
    ensures { Exits machine.old machine.new steps.old steps.new (piece.request_stacked (view machine.old)) }
{
    run_piece(machine, steps, &[LOAD]);
}

/// The piece of FETCH that asks SEEK for the address on the stack.
pub fn seek_stacked<L: Ledger>(machine: &mut Machine, steps: &mut Steps<L>)
    requires { IsAt machine.old address.FETCHA }
    ensures { Exits machine.old machine.new steps.old steps.new (piece.seek_stacked (view machine.old)) }
{
    run_piece(machine, steps, &[SEEK]);
}

/// The piece of FETCH that asks for the byte there.
pub fn request_byte<L: Ledger>(machine: &mut Machine, steps: &mut Steps<L>)
    requires { IsAt machine.old address.FETCHR }
    ensures { Exits machine.old machine.new steps.old steps.new (piece.request_byte (view machine.old)) }
{
    run_piece(machine, steps, &[FETCH]);
}

/// The piece of FETCH that keeps the byte and asks WHERE for the address after it.
pub fn keep_byte<L: Ledger>(machine: &mut Machine, steps: &mut Steps<L>)
    requires { IsAt machine.old address.FETCHK }
    ensures { Exits machine.old machine.new steps.old steps.new (piece.keep_byte (view machine.old)) }
{
    run_piece(machine, steps, &[WHERE]);
}

/// The piece of FETCH that keeps that address and asks SEEK for it.
pub fn keep_stacked_next<L: Ledger>(machine: &mut Machine, steps: &mut Steps<L>)
    requires { IsAt machine.old address.FETCHB }
    ensures { Exits machine.old machine.new steps.old steps.new (piece.keep_stacked_next (view machine.old)) }
{
    run_piece(machine, steps, &[SEEK]);
}

/// The piece of FETCH that asks STORE for that address.
pub fn store_stacked<L: Ledger>(machine: &mut Machine, steps: &mut Steps<L>)
    requires { IsAt machine.old address.FETCHS }
    ensures { Exits machine.old machine.new steps.old steps.new (piece.store_stacked (view machine.old)) }
{
    run_piece(machine, steps, &[STORE]);
}

/// The piece of FETCH that asks STORE for the byte.
pub fn store_fetched<L: Ledger>(machine: &mut Machine, steps: &mut Steps<L>)
    requires { IsAt machine.old address.FETCHD }
    ensures { Exits machine.old machine.new steps.old steps.new (piece.store_fetched (view machine.old)) }
{
    run_piece(machine, steps, &[STORE]);
}

/// The piece of PUSH that stores the pointer and turns to the top of the stack, or stops by reason 3.
pub fn push_pointer<L: Ledger>(machine: &mut Machine, steps: &mut Steps<L>)
    requires { IsAt machine.old address.PUSHV }
    ensures { Exits machine.old machine.new steps.old steps.new (piece.push_pointer (view machine.old)) }
{
    run_piece(machine, steps, &[STO]);
}

/// The piece of RTN that takes the word off the stack, or stops by reason 3. RTN goes on at TAKE, and RTNC at GOTO.
pub fn take_return<L: Ledger>(machine: &mut Machine, steps: &mut Steps<L>)
    requires { IsAt machine.old address.GORTN }
    ensures { Exits machine.old machine.new steps.old steps.new (piece.take_return (view machine.old)) }
{
    run_piece(machine, steps, &[TAKE, GOTO]);
}
