//! The pieces of MOVE, up to its copy.

ghost use Rattle.sim_rows.specs.Prelude.{Exits, IsAt, view};
ghost use Rattle.sim_rows.specs.native_interp.declared.addresses.TheConstants as address;
ghost use Rattle.sim_move.specs.Pieces as piece;

use sim_rows::labels::{ADDR, INDEX, LOAD, MOVEB, MOVEN, MOVER, MOVES, SEEK, STREAM, WHERE};
use sim_rows::processor::{Machine, Steps};
use sim_rows::run_piece;
use std::sync::ledger::Ledger;

/// The piece of MOVE that asks ADDR for the operand that holds the length, where the code byte is even.
pub fn request_length<L: Ledger>(machine: &mut Machine, steps: &mut Steps<L>)
    requires { IsAt machine.old address.GOMOVE }
    ensures { Exits machine.old machine.new steps.old steps.new (piece.request_length (view machine.old)) }
{
    run_piece(machine, steps, &[ADDR, MOVEN]);
}

/// The piece of MOVE that asks LOAD for the length.
pub fn load_length<L: Ledger>(machine: &mut Machine, steps: &mut Steps<L>)
    requires { IsAt machine.old address.MOVEN }
    ensures { Exits machine.old machine.new steps.old steps.new (piece.load_length (view machine.old)) }
{
    run_piece(machine, steps, &[LOAD]);
}

/// The piece of MOVE that keeps the length and asks ADDR for the target, unless that is registers, or stops by reason
/// 4.
pub fn keep_length<L: Ledger>(machine: &mut Machine, steps: &mut Steps<L>)
    requires { IsAt machine.old address.MOVEL }
    ensures { Exits machine.old machine.new steps.old steps.new (piece.keep_length (view machine.old)) }
{
    run_piece(machine, steps, &[ADDR, MOVER]);
}

/// The piece of MOVE that keeps the target and asks ADDR for the source, unless that is in GROM.
pub fn keep_target<L: Ledger>(machine: &mut Machine, steps: &mut Steps<L>)
    requires { IsAt machine.old address.MOVED }
    ensures { Exits machine.old machine.new steps.old steps.new (piece.keep_target (view machine.old)) }
{
    run_piece(machine, steps, &[ADDR, MOVES]);
}

/// The piece of MOVE that takes registers as the target, or stops by reason 5.
pub fn check_registers<L: Ledger>(machine: &mut Machine, steps: &mut Steps<L>)
    requires { IsAt machine.old address.MOVER }
    ensures { Exits machine.old machine.new steps.old steps.new (piece.check_registers (view machine.old)) }
{
    run_piece(machine, steps, &[MOVES]);
}

/// The piece of MOVE that asks STREAM for the address of a source in GROM.
pub fn request_source<L: Ledger>(machine: &mut Machine, steps: &mut Steps<L>)
    requires { IsAt machine.old address.MOVES }
    ensures { Exits machine.old machine.new steps.old steps.new (piece.request_source (view machine.old)) }
{
    run_piece(machine, steps, &[STREAM]);
}

/// The piece of MOVE that asks INDEX for that address with its index.
pub fn request_index<L: Ledger>(machine: &mut Machine, steps: &mut Steps<L>)
    requires { IsAt machine.old address.MOVEA }
    ensures { Exits machine.old machine.new steps.old steps.new (piece.request_index (view machine.old)) }
{
    run_piece(machine, steps, &[INDEX]);
}

/// The piece of MOVE that asks WHERE for the next address.
pub fn request_next<L: Ledger>(machine: &mut Machine, steps: &mut Steps<L>)
    requires { IsAt machine.old address.MOVEX }
    ensures { Exits machine.old machine.new steps.old steps.new (piece.request_next (view machine.old)) }
{
    run_piece(machine, steps, &[WHERE]);
}

/// The piece of MOVE that keeps the next address and asks SEEK for the address of the source.
pub fn seek_source<L: Ledger>(machine: &mut Machine, steps: &mut Steps<L>)
    requires { IsAt machine.old address.MOVEW }
    ensures { Exits machine.old machine.new steps.old steps.new (piece.seek_source (view machine.old)) }
{
    run_piece(machine, steps, &[SEEK]);
}

/// The piece of MOVE that turns to the bytes there.
pub fn turn_to_grom<L: Ledger>(machine: &mut Machine, steps: &mut Steps<L>)
    requires { IsAt machine.old address.MOVEK }
    ensures { Exits machine.old machine.new steps.old steps.new (piece.turn_to_grom (view machine.old)) }
{
    run_piece(machine, steps, &[MOVEB]);
}
