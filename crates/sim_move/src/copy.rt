//! The copy, from its beginning to the end of the step.

ghost use Rattle.std.specs.Prelude.{◌<◌, ◌≡◌};
ghost use Rattle.sim_rows.specs.Prelude.{Exits, IsAt, view};
ghost use Rattle.sim_move.specs.Bytes.{AtCopy, ByRoutines, CopiesByte, CopiesRest, EndsCopy};
ghost use Rattle.sim_move.specs.Copying.{CopiesBytes, MayCopy};
ghost use Rattle.sim_move.specs.CopyPieces as piece;
ghost use Rattle.sim_rows.specs.native_interp.declared.addresses.TheConstants as address;

use crate::copy_pieces::{
    begin_copy, copy_cell, copy_cell_to_video, copy_grom, copy_grom_to_video, copy_in_video,
    copy_video, count_byte, leave_copy, next_byte, set_source, set_target, store_byte,
};
use sim_jumps::resume_row;
use sim_rows::labels::{COPYCC, COPYCV, COPYGC, COPYGV, COPYVC, COPYVV, SETR, SETW, SHOW};
use sim_rows::processor::{Machine, Steps};
use sim_rows::subroutines::{run_load, run_store};
use sim_rows::{end_row, register};
use std::sync::ledger::Ledger;

/// Begins the copy: where video memory is read or written, its port is set or made ready.
fn start_copy<L: Ledger>(machine: &mut Machine, steps: &mut Steps<L>)
    requires { IsAt machine.old address.MOVEB }
    ensures { Exits machine.old machine.new steps.old steps.new (piece.start_copy (view machine.old)) }
{
    begin_copy(machine, steps);
    let place = machine.pc();
    if place == SETR {
        set_source(machine, steps);
    } else if place == SETW {
        set_target(machine, steps);
    }
}

/// Copies a byte of those that are left.
fn copy_byte<L: Ledger>(machine: &mut Machine, steps: &mut Steps<L>)
    requires at { AtCopy machine.old }
    requires left { 0 < (view machine.old).r.r12 }
    ensures { CopiesByte machine.old machine.new steps.old steps.new }
{
    let place = machine.pc();
    if place == COPYCC {
        copy_cell(machine, steps);
    } else if place == COPYVC {
        copy_video(machine, steps);
    } else if place == COPYGC {
        copy_grom(machine, steps);
    } else if place == COPYCV {
        copy_cell_to_video(machine, steps);
    } else if place == COPYGV {
        copy_grom_to_video(machine, steps);
    } else if place == COPYVV {
        copy_in_video(machine, steps);
    } else {
        copy_by_routines(machine, steps);
    }
}

/// Copies a byte of those that are left to a register of the video processor, by LOAD and STORE.
fn copy_by_routines<L: Ledger>(machine: &mut Machine, steps: &mut Steps<L>)
    requires is_at { IsAt machine.old address.COPY }
    requires at { AtCopy machine.old }
    requires left { ByRoutines (view machine.old) }
    ensures { CopiesByte machine.old machine.new steps.old steps.new }
{
    next_byte(machine, steps);
    run_load(machine, steps);
    store_byte(machine, steps);
    run_store(machine, steps);
    count_byte(machine, steps);
}

/// Copies the bytes that are left.
fn copy_rest<L: Ledger>(machine: &mut Machine, steps: &mut Steps<L>)
    requires { AtCopy machine.old }
    ensures at { AtCopy machine.new }
    ensures none_left { (view machine.new).r.r12 ≡ 0 }
    ensures copies { CopiesRest machine.old machine.new steps.old steps.new }
{
    let bytes = register(machine, 12);
    for _ in 0..bytes {
        copy_byte(machine, steps);
    }
}

/// Ends a copy of which no byte is left.
fn end_copy<L: Ledger>(machine: &mut Machine, steps: &mut Steps<L>)
    requires at { AtCopy machine.old }
    requires none_left { (view machine.old).r.r12 ≡ 0 }
    ensures { EndsCopy machine.old machine.new steps.old steps.new }
{
    leave_copy(machine, steps);
    if machine.pc() == SHOW {
        end_row(machine, steps);
    } else {
        resume_row(machine, steps);
    }
}

/// Runs the copy of MOVE to the end of the step. Register 12 has the number of bytes, registers 2 and 5 the source, and
/// registers 7 and 8 the target; 2 in register 5 says that the source is in GROM, and 2 in register 8 that the target
/// is among the registers of the video processor. It takes at most 31 instructions a byte, and 41 more.
pub fn copy_bytes<L: Ledger>(machine: &mut Machine, steps: &mut Steps<L>)
    requires { MayCopy machine.old }
    ensures { CopiesBytes machine.old machine.new steps.old steps.new }
{
    start_copy(machine, steps);
    copy_rest(machine, steps);
    end_copy(machine, steps);
}
