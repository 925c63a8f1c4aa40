//! The pieces of MOVE's copy.

ghost use Rattle.sim_rows.specs.Prelude.{Exits, IsAt, view};
ghost use Rattle.sim_rows.specs.native_interp.declared.addresses.TheConstants as address;
ghost use Rattle.sim_move.specs.Bytes.{MayGo};
ghost use Rattle.sim_move.specs.CopyPieces.{
  CellsToCells,
  CellsToVideo,
  GromToCells,
  GromToVideo,
  VideoToCells,
  VideoToVideo,
};
ghost use Rattle.sim_move.specs.CopyPieces as piece;

use sim_rows::labels::{
    COPY, COPYCC, COPYCV, COPYE, COPYGC, COPYGV, COPYVC, COPYVV, LOAD, RESUME, SETR, SETW, SHOW,
    STORE,
};
use sim_rows::processor::{Machine, Steps};
use sim_rows::run_piece;
use std::sync::ledger::Ledger;

/// The piece of MOVE that begins the copy.
pub fn begin_copy<L: Ledger>(machine: &mut Machine, steps: &mut Steps<L>)
    requires { IsAt machine.old address.MOVEB }
    ensures { Exits machine.old machine.new steps.old steps.new (piece.begin_copy (view machine.old)) }
{
    run_piece(machine, steps, &[COPYE, COPY, SETR, SETW, COPYCC, COPYGC]);
}

/// The piece of MOVE that sets the video processor to the source.
pub fn set_source<L: Ledger>(machine: &mut Machine, steps: &mut Steps<L>)
    requires { IsAt machine.old address.SETR }
    ensures { Exits machine.old machine.new steps.old steps.new (piece.set_source (view machine.old)) }
{
    run_piece(machine, steps, &[COPYVC]);
}

/// The piece of MOVE that sets the video processor to the target.
pub fn set_target<L: Ledger>(machine: &mut Machine, steps: &mut Steps<L>)
    requires { IsAt machine.old address.SETW }
    ensures { Exits machine.old machine.new steps.old steps.new (piece.set_target (view machine.old)) }
{
    run_piece(machine, steps, &[COPYVV, COPYCV, COPYGV]);
}

/// The piece of the copy that copies a byte from the cells to the cells.
pub fn copy_cell<L: Ledger>(machine: &mut Machine, steps: &mut Steps<L>)
    requires is_at { IsAt machine.old address.COPYCC }
    requires may_go { MayGo CellsToCells (view machine.old) }
    ensures { Exits machine.old machine.new steps.old steps.new (piece.copy_on CellsToCells (view machine.old)) }
{
    run_piece(machine, steps, &[COPYCC, COPYE]);
}

/// The piece of the copy that copies a byte from video memory to the cells.
pub fn copy_video<L: Ledger>(machine: &mut Machine, steps: &mut Steps<L>)
    requires is_at { IsAt machine.old address.COPYVC }
    requires may_go { MayGo VideoToCells (view machine.old) }
    ensures { Exits machine.old machine.new steps.old steps.new (piece.copy_on VideoToCells (view machine.old)) }
{
    run_piece(machine, steps, &[COPYVC, COPYE]);
}

/// The piece of the copy that copies a byte from GROM to the cells.
pub fn copy_grom<L: Ledger>(machine: &mut Machine, steps: &mut Steps<L>)
    requires is_at { IsAt machine.old address.COPYGC }
    requires may_go { MayGo GromToCells (view machine.old) }
    ensures { Exits machine.old machine.new steps.old steps.new (piece.copy_on GromToCells (view machine.old)) }
{
    run_piece(machine, steps, &[COPYGC, COPYE]);
}

/// The piece of the copy that copies a byte from the cells to video memory.
pub fn copy_cell_to_video<L: Ledger>(machine: &mut Machine, steps: &mut Steps<L>)
    requires is_at { IsAt machine.old address.COPYCV }
    requires may_go { MayGo CellsToVideo (view machine.old) }
    ensures { Exits machine.old machine.new steps.old steps.new (piece.copy_on CellsToVideo (view machine.old)) }
{
    run_piece(machine, steps, &[COPYCV, COPYE]);
}

/// The piece of the copy that copies a byte from GROM to video memory.
pub fn copy_grom_to_video<L: Ledger>(machine: &mut Machine, steps: &mut Steps<L>)
    requires { IsAt machine.old address.COPYGV }
    ensures { Exits machine.old machine.new steps.old steps.new (piece.copy_on GromToVideo (view machine.old)) }
{
    run_piece(machine, steps, &[COPYGV, COPYE]);
}

/// The piece of the copy that copies a byte from video memory to video memory.
pub fn copy_in_video<L: Ledger>(machine: &mut Machine, steps: &mut Steps<L>)
    requires { IsAt machine.old address.COPYVV }
    ensures { Exits machine.old machine.new steps.old steps.new (piece.copy_on VideoToVideo (view machine.old)) }
{
    run_piece(machine, steps, &[COPYVV, COPYE]);
}

/// The piece of the copy that asks LOAD for the next byte.
pub fn next_byte<L: Ledger>(machine: &mut Machine, steps: &mut Steps<L>)
    requires { IsAt machine.old address.COPY }
    ensures { Exits machine.old machine.new steps.old steps.new (piece.next_byte (view machine.old)) }
{
    run_piece(machine, steps, &[LOAD]);
}

/// The piece of the copy that asks STORE for the byte.
pub fn store_byte<L: Ledger>(machine: &mut Machine, steps: &mut Steps<L>)
    requires { IsAt machine.old address.COPYS }
    ensures { Exits machine.old machine.new steps.old steps.new (piece.store_byte (view machine.old)) }
{
    run_piece(machine, steps, &[STORE]);
}

/// The piece of the copy that goes on to the next byte.
pub fn count_byte<L: Ledger>(machine: &mut Machine, steps: &mut Steps<L>)
    requires { IsAt machine.old address.COPYN }
    ensures { Exits machine.old machine.new steps.old steps.new (piece.count_byte (view machine.old)) }
{
    run_piece(machine, steps, &[COPY, COPYE]);
}

/// The piece of the copy that ends it.
pub fn leave_copy<L: Ledger>(machine: &mut Machine, steps: &mut Steps<L>)
    requires { IsAt machine.old address.COPYE }
    ensures { Exits machine.old machine.new steps.old steps.new (piece.leave_copy (view machine.old)) }
{
    run_piece(machine, steps, &[SHOW, RESUME]);
}
