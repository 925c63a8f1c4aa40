//! The end of a row.

ghost use Rattle.std.specs.Prelude.{◌<◌};
ghost use Rattle.sim_rows.specs.Prelude.{EndsRow, Exits, IsVisible, PortsAreIdle, IsAt, StoresResult, view};
ghost use Rattle.sim_view.specs.native_interp.declared.addresses.TheConstants as address;
ghost use Rattle.sim_operands.specs.Routines.{CanStore};
ghost use Rattle.sim_rows.specs.Pieces as piece;
ghost use Rattle.sim_rows.specs.Routines as routine;

use sim_operands::store_routine;
use sim_view::labels::STORE;
use sim_view::processor::{Machine, Steps};
use sim_view::{register, run_piece};
use std::sync::ledger::Ledger;

/// The piece that asks STORE for the result of a row.
pub fn store_result<L: Ledger>(machine: &mut Machine, steps: &mut Steps<L>)
    requires { IsAt machine.old address.STO }
    ensures { Exits machine.old machine.new steps.old steps.new (piece.store_result (view machine.old)) }
{
    run_piece(machine, steps, &[STORE]);
}

/// The piece of SHOW: the step ends, or STORE is asked for the character on the screen.
pub fn show<L: Ledger>(machine: &mut Machine, steps: &mut Steps<L>)
    requires { IsAt machine.old address.SHOW }
    ensures { Exits machine.old machine.new steps.old steps.new (piece.show (view machine.old)) }
{
    run_piece(machine, steps, &[STORE]);
}

/// SHOW, whole: the end of a row.
pub fn end_row_routine<L: Ledger>(machine: &mut Machine, steps: &mut Steps<L>)
    requires { IsAt machine.old address.SHOW }
    ensures { Exits machine.old machine.new steps.old steps.new (routine.end_row (view machine.old)) }
{
    if register(machine, 13) == 0 {
        show(machine, steps);
        return;
    }
    show(machine, steps);
    store_routine(machine, steps);
}

/// STO, whole: a result is stored, and its row ends.
pub fn finish_row_routine<L: Ledger>(machine: &mut Machine, steps: &mut Steps<L>)
    requires is_at { IsAt machine.old address.STO }
    requires visible { CanStore (view machine.old) }
    ensures { Exits machine.old machine.new steps.old steps.new (routine.finish_row (view machine.old)) }
{
    store_result(machine, steps);
    store_routine(machine, steps);
    end_row_routine(machine, steps);
}

/// Ends a row whose results are stored: the character goes to the screen if a byte was stored at its cell.
pub fn end_row<L: Ledger>(machine: &mut Machine, steps: &mut Steps<L>)
    requires is_at { IsAt machine.old address.SHOW }
    requires idle { PortsAreIdle machine.old.cpu.memory }
    ensures { EndsRow machine.old machine.new steps.old steps.new }
{
    end_row_routine(machine, steps);
}

/// Stores the result of a row, which is in register 9, and ends the row.
pub fn finish_row<L: Ledger>(machine: &mut Machine, steps: &mut Steps<L>)
    requires is_at { IsAt machine.old address.STO }
    requires idle { PortsAreIdle machine.old.cpu.memory }
    requires space { (view machine.old).r.r8 < 2 }
    requires visible { let r = (view machine.old).r in IsVisible r.r8 r.r7 r.r3 }
    ensures { StoresResult machine.old machine.new steps.old steps.new }
{
    finish_row_routine(machine, steps);
}
