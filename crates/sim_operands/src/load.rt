//! LOAD: a value.

ghost use Rattle.std.specs.Prelude.{◌<◌, ◌≡◌};
ghost use Rattle.sim_view.specs.Prelude.{Exits, IsFetched, PortsAreIdle, IsAt, view};
ghost use Rattle.sim_view.specs.native_interp.declared.addresses.TheConstants as address;
ghost use Rattle.sim_operands.specs.Values.{IsVisible};
ghost use Rattle.sim_operands.specs.Routines.{CanLoad};
ghost use Rattle.sim_operands.specs.Subroutines.{LoadsStream, LoadsValue};
ghost use Rattle.sim_operands.specs.Pieces as piece;
ghost use Rattle.sim_operands.specs.Routines as routine;

use sim_view::labels::{LDATA, STREAM};
use sim_view::processor::{Machine, Steps};
use sim_view::{register, run_piece};
use std::sync::ledger::Ledger;

/// The piece of LOAD that reads cells, or sets the video processor to the address, or goes on at STREAM.
pub fn load_value<L: Ledger>(machine: &mut Machine, steps: &mut Steps<L>)
    requires is_at { IsAt machine.old address.LOAD }
    requires visible { let r = (view machine.old).r in IsVisible r.r5 r.r2 r.r3 }
    ensures { Exits machine.old machine.new steps.old steps.new (piece.load (view machine.old)) }
{
    run_piece(machine, steps, &[LDATA, STREAM]);
}

/// The piece of LOAD that reads video memory.
pub fn load_video<L: Ledger>(machine: &mut Machine, steps: &mut Steps<L>)
    requires { IsAt machine.old address.LDATA }
    ensures { Exits machine.old machine.new steps.old steps.new (piece.load_video (view machine.old)) }
{
    run_piece(machine, steps, &[]);
}

/// The piece of LOAD that reads the bytes that follow in GROM.
pub fn stream_value<L: Ledger>(machine: &mut Machine, steps: &mut Steps<L>)
    requires { IsAt machine.old address.STREAM }
    ensures { Exits machine.old machine.new steps.old steps.new (piece.stream (view machine.old)) }
{
    run_piece(machine, steps, &[]);
}

/// LOAD, whole. It does what its pieces do, and keeps all but registers 4 and 6, the video processor and the GROMs; it
/// returns to the address in register 11.
pub fn load_routine<L: Ledger>(machine: &mut Machine, steps: &mut Steps<L>)
    requires is_at { IsAt machine.old address.LOAD }
    requires visible { CanLoad (view machine.old) }
    ensures { Exits machine.old machine.new steps.old steps.new (routine.load (view machine.old)) }
{
    let space = register(machine, 5);
    load_value(machine, steps);
    if space == 1 {
        load_video(machine, steps);
    } else if space > 1 {
        stream_value(machine, steps);
    }
}

/// Runs LOAD: the value at the place in registers 2 and 5, of the width in register 3, comes into
/// register 6. Where register 5 is above 1 it is the value that follows in GROM, which goes on after it.
/// It takes at most 15 instructions, changes register 4 and the address of the video processor too, and
/// returns to the address in register 11.
pub fn run_load<L: Ledger>(machine: &mut Machine, steps: &mut Steps<L>)
    requires is_at { IsAt machine.old address.LOAD }
    requires idle { PortsAreIdle machine.old.cpu.memory }
    requires visible { let r = (view machine.old).r in IsVisible r.r5 r.r2 r.r3 }
    ensures value { (view machine.old).r.r5 < 2 → LoadsValue machine.old machine.new steps.old steps.new }
    ensures stream { 1 < (view machine.old).r.r5 → IsFetched machine.old.cpu.memory.grom
        → LoadsStream machine.old machine.new steps.old steps.new }
{
    load_routine(machine, steps);
}
