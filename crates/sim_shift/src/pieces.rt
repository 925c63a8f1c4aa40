//! The pieces of the shifts.

ghost use Rattle.std.specs.Prelude.{◌<◌, ◌≡◌, eqb, not};
ghost use Rattle.sim_rows.specs.Prelude.{Exits, IsAt, view};
ghost use Rattle.sim_rows.specs.native_interp.declared.addresses.TheConstants as address;
ghost use Rattle.sim_shift.specs.Pieces as piece;

use sim_rows::labels::{COUNT, STO};
use sim_rows::processor::{Machine, Steps};
use sim_rows::run_piece;
use std::sync::ledger::Ledger;

/// The piece of SRA that asks for its count.
pub fn request_arithmetic_count<L: Ledger>(machine: &mut Machine, steps: &mut Steps<L>)
    requires { IsAt machine.old address.SRAV }
    ensures { Exits machine.old machine.new steps.old steps.new (piece.request_arithmetic_count (view machine.old)) }
{
    run_piece(machine, steps, &[COUNT]);
}

/// The piece of SLL that asks for its count.
pub fn request_left_count<L: Ledger>(machine: &mut Machine, steps: &mut Steps<L>)
    requires { IsAt machine.old address.SLLV }
    ensures { Exits machine.old machine.new steps.old steps.new (piece.request_left_count (view machine.old)) }
{
    run_piece(machine, steps, &[COUNT]);
}

/// The piece of SRL that asks for its count.
pub fn request_right_count<L: Ledger>(machine: &mut Machine, steps: &mut Steps<L>)
    requires { IsAt machine.old address.SRLV }
    ensures { Exits machine.old machine.new steps.old steps.new (piece.request_right_count (view machine.old)) }
{
    run_piece(machine, steps, &[COUNT]);
}

/// The piece of SRC that asks for its count.
pub fn request_turn_count<L: Ledger>(machine: &mut Machine, steps: &mut Steps<L>)
    requires { IsAt machine.old address.SRCV }
    ensures { Exits machine.old machine.new steps.old steps.new (piece.request_turn_count (view machine.old)) }
{
    run_piece(machine, steps, &[COUNT]);
}

/// The piece that finds the count of a shift, the low four bits of the source. Is there one? If it is 0 the machine
/// goes to STO, and else the piece returns.
pub fn take_count<L: Ledger>(machine: &mut Machine, steps: &mut Steps<L>) -> bool
    requires { IsAt machine.old address.COUNT }
    ensures exits { Exits machine.old machine.new steps.old steps.new (piece.take_count (view machine.old)) }
    ensures some { result ≡ not (eqb (piece.take_count (view machine.old)).to address.STO) }
{
    run_piece(machine, steps, &[STO]);
    machine.pc() != STO
}

/// The piece of SRA that shifts the value by the count.
pub fn shift_arithmetic<L: Ledger>(machine: &mut Machine, steps: &mut Steps<L>)
    requires is_at { IsAt machine.old address.SRAB }
    requires some { 0 < (view machine.old).r.r0 }
    requires few { (view machine.old).r.r0 < 16 }
    ensures { Exits machine.old machine.new steps.old steps.new (piece.shift_arithmetic (view machine.old)) }
{
    run_piece(machine, steps, &[STO]);
}

/// The piece of SLL that shifts the value by the count.
pub fn shift_left<L: Ledger>(machine: &mut Machine, steps: &mut Steps<L>)
    requires is_at { IsAt machine.old address.SLLB }
    requires some { 0 < (view machine.old).r.r0 }
    requires few { (view machine.old).r.r0 < 16 }
    ensures { Exits machine.old machine.new steps.old steps.new (piece.shift_left (view machine.old)) }
{
    run_piece(machine, steps, &[STO]);
}

/// The piece of SRL that shifts the value by the count.
pub fn shift_right<L: Ledger>(machine: &mut Machine, steps: &mut Steps<L>)
    requires is_at { IsAt machine.old address.SRLB }
    requires some { 0 < (view machine.old).r.r0 }
    requires few { (view machine.old).r.r0 < 16 }
    ensures { Exits machine.old machine.new steps.old steps.new (piece.shift_right (view machine.old)) }
{
    run_piece(machine, steps, &[STO]);
}

/// The piece of SRC that turns the value by the count.
pub fn turn_right<L: Ledger>(machine: &mut Machine, steps: &mut Steps<L>)
    requires is_at { IsAt machine.old address.SRCB }
    requires some { 0 < (view machine.old).r.r0 }
    requires few { (view machine.old).r.r0 < 16 }
    ensures { Exits machine.old machine.new steps.old steps.new (piece.turn_right (view machine.old)) }
{
    run_piece(machine, steps, &[STO]);
}
