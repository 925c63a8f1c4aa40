//! The pieces of EX, RAND, BACK and ALL.

ghost use Rattle.sim_rows.specs.Prelude.{Exits, IsAt, view};
ghost use Rattle.sim_rows.specs.native_interp.declared.addresses.TheConstants as address;
ghost use Rattle.sim_misc.specs.Pieces as piece;

use sim_rows::labels::{FILL, RANDL, STO, STORE};
use sim_rows::processor::{Machine, Steps};
use sim_rows::run_piece;
use std::sync::ledger::Ledger;

/// The piece of BACK: the byte goes to the video processor's register of the border's colour.
pub fn set_border<L: Ledger>(machine: &mut Machine, steps: &mut Steps<L>)
    requires { IsAt machine.old address.GOBACK }
    ensures { Exits machine.old machine.new steps.old steps.new (piece.set_border (view machine.old)) }
{
    run_piece(machine, steps, &[]);
}

/// The piece of EX that keeps the old value of the destination and asks STORE for the value of the source.
pub fn keep_destination<L: Ledger>(machine: &mut Machine, steps: &mut Steps<L>)
    requires { IsAt machine.old address.EXV }
    ensures { Exits machine.old machine.new steps.old steps.new (piece.keep_destination (view machine.old)) }
{
    run_piece(machine, steps, &[STORE]);
}

/// The piece of EX that turns to the place of the source, for the value that was kept.
pub fn turn_to_source<L: Ledger>(machine: &mut Machine, steps: &mut Steps<L>)
    requires { IsAt machine.old address.EXB }
    ensures { Exits machine.old machine.new steps.old steps.new (piece.turn_to_source (view machine.old)) }
{
    run_piece(machine, steps, &[STO]);
}

/// The piece of RAND that makes the next seed and stores it.
pub fn draw_seed<L: Ledger>(machine: &mut Machine, steps: &mut Steps<L>)
    requires { IsAt machine.old address.GORAND }
    ensures { Exits machine.old machine.new steps.old steps.new (piece.draw_seed (view machine.old)) }
{
    run_piece(machine, steps, &[RANDL]);
}

/// The piece of RAND that draws a number up to the limit.
pub fn draw_number<L: Ledger>(machine: &mut Machine, steps: &mut Steps<L>)
    requires { IsAt machine.old address.RANDL }
    ensures { Exits machine.old machine.new steps.old steps.new (piece.draw_number (view machine.old)) }
{
    run_piece(machine, steps, &[]);
}

/// The piece of ALL that reads the byte and sets the video processor to the beginning of the screen.
pub fn begin_fill<L: Ledger>(machine: &mut Machine, steps: &mut Steps<L>)
    requires { IsAt machine.old address.GOALL }
    ensures { Exits machine.old machine.new steps.old steps.new (piece.begin_fill (view machine.old)) }
{
    run_piece(machine, steps, &[FILL]);
}

/// The piece of ALL that stores the byte once; the last one ends the step.
pub fn fill_byte<L: Ledger>(machine: &mut Machine, steps: &mut Steps<L>)
    requires { IsAt machine.old address.FILL }
    ensures { Exits machine.old machine.new steps.old steps.new (piece.fill_byte (view machine.old)) }
{
    run_piece(machine, steps, &[FILL]);
}
