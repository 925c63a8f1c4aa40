//! STORE: a value.

ghost use Rattle.std.specs.Prelude.{◌<◌, ◌≡◌};
ghost use Rattle.sim_view.specs.Prelude.{Exits, PortsAreIdle, IsAt, view};
ghost use Rattle.sim_view.specs.native_interp.declared.addresses.TheConstants as address;
ghost use Rattle.sim_operands.specs.Values.{IsVisible};
ghost use Rattle.sim_operands.specs.Routines.{CanStore};
ghost use Rattle.sim_operands.specs.Subroutines.{StoresRegister, StoresValue};
ghost use Rattle.sim_operands.specs.Pieces as piece;
ghost use Rattle.sim_operands.specs.Routines as routine;

use sim_view::labels::{SDATA, SREG};
use sim_view::processor::{Machine, Steps};
use sim_view::{register, run_piece};
use std::sync::ledger::Ledger;

/// The piece of STORE that stores in cells, or sets the video processor to the address, or goes on at SREG.
pub fn store_value<L: Ledger>(machine: &mut Machine, steps: &mut Steps<L>)
    requires is_at { IsAt machine.old address.STORE }
    requires visible { let r = (view machine.old).r in IsVisible r.r8 r.r7 r.r3 }
    ensures { Exits machine.old machine.new steps.old steps.new (piece.store (view machine.old)) }
{
    run_piece(machine, steps, &[SDATA, SREG]);
}

/// The piece of STORE that stores in video memory.
pub fn store_video<L: Ledger>(machine: &mut Machine, steps: &mut Steps<L>)
    requires { IsAt machine.old address.SDATA }
    ensures { Exits machine.old machine.new steps.old steps.new (piece.store_video (view machine.old)) }
{
    run_piece(machine, steps, &[]);
}

/// The piece of STORE that sets a register of the video processor.
pub fn store_register<L: Ledger>(machine: &mut Machine, steps: &mut Steps<L>)
    requires { IsAt machine.old address.SREG }
    ensures { Exits machine.old machine.new steps.old steps.new (piece.store_register (view machine.old)) }
{
    run_piece(machine, steps, &[]);
}

/// STORE, whole. It does what its pieces do, and keeps all but register 4, the mark in register 13, the cells and the
/// video processor; it returns to the address in register 11.
pub fn store_routine<L: Ledger>(machine: &mut Machine, steps: &mut Steps<L>)
    requires is_at { IsAt machine.old address.STORE }
    requires visible { CanStore (view machine.old) }
    ensures { Exits machine.old machine.new steps.old steps.new (routine.store (view machine.old)) }
{
    let space = register(machine, 8);
    store_value(machine, steps);
    if space == 1 {
        store_video(machine, steps);
    } else if space > 1 {
        store_register(machine, steps);
    }
}

/// Runs STORE: the value in register 9, of the width in register 3, is stored at the place in registers 7 and 8, its
/// high byte first. Where register 8 is above 1 its high byte goes to the register of the video processor whose number
/// is in register 7. It takes at most 15 instructions, marks a store at the character's cell in register 13, may change
/// register 4 and the address of the video processor too, and returns to the address in register 11.
pub fn run_store<L: Ledger>(machine: &mut Machine, steps: &mut Steps<L>)
    requires is_at { IsAt machine.old address.STORE }
    requires idle { PortsAreIdle machine.old.cpu.memory }
    requires visible { let r = (view machine.old).r in IsVisible r.r8 r.r7 r.r3 }
    ensures value { (view machine.old).r.r8 < 2 → StoresValue machine.old machine.new steps.old steps.new }
    ensures register { 1 < (view machine.old).r.r8 → (view machine.old).r.r7 < 8
        → StoresRegister machine.old machine.new steps.old steps.new }
{
    store_routine(machine, steps);
}
