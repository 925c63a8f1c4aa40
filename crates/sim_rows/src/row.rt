//! The operands of a row.

ghost use Rattle.std.specs.Prelude.{◌+◌, ◌<◌, ◌≡◌, ◌≤◌};
ghost use Rattle.sim_rows.specs.Prelude.{after_code, return_of_destination, Asking, AtDispatch, destination_bytes, Exits};
ghost use Rattle.sim_rows.specs.Prelude.{first_of, HasStarted, is_row, IsFetched, IsVisible, LoadsDestination};
ghost use Rattle.sim_rows.specs.Prelude.{LoadsOperands, LoadsSource, operands_of, operation_in, PortsAreIdle};
ghost use Rattle.sim_rows.specs.Prelude.{ReachesWithin, IsAt, state_at_dispatch, view};
ghost use Rattle.sim_view.specs.native_interp.declared.addresses.TheConstants as address;
ghost use Rattle.sim_rows.specs.Pieces as piece;

use gpl_forms::{GplOperation, operation_at};
use sim_operands::{run_address, run_load, stream_value};
use sim_view::labels::{ADDR, GO, GSTOP, LOAD, OPSTWO, STREAM, STROW, WIDE};
use sim_view::processor::{Machine, Steps};
use sim_view::{register, run_piece};
use std::sync::ledger::Ledger;

/// The piece of a row that asks ADDR for the place of the first operand.
pub fn request_first<L: Ledger>(machine: &mut Machine, steps: &mut Steps<L>)
    requires { IsAt machine.old address.ROW }
    ensures { Exits machine.old machine.new steps.old steps.new (piece.request_first (view machine.old)) }
{
    run_piece(machine, steps, &[ADDR]);
}

/// The same piece of ST.
pub fn request_stored<L: Ledger>(machine: &mut Machine, steps: &mut Steps<L>)
    requires { IsAt machine.old address.STROW }
    ensures { Exits machine.old machine.new steps.old steps.new (piece.request_stored (view machine.old)) }
{
    run_piece(machine, steps, &[ADDR]);
}

/// The same piece of MUL and DIV, whose destination has twice the width.
/// Register 3 has twice the width while the destination is looked for, and the width after.
pub fn request_wide<L: Ledger>(machine: &mut Machine, steps: &mut Steps<L>)
    requires { IsAt machine.old address.WIDE }
    ensures { Exits machine.old machine.new steps.old steps.new (piece.request_wide (view machine.old)) }
{
    run_piece(machine, steps, &[ADDR]);
}

/// The piece of a row that keeps the place as the destination and asks LOAD for its value.
pub fn load_first<L: Ledger>(machine: &mut Machine, steps: &mut Steps<L>)
    requires { IsAt machine.old address.OPSDST }
    ensures { Exits machine.old machine.new steps.old steps.new (piece.load_first (view machine.old)) }
{
    run_piece(machine, steps, &[LOAD]);
}

/// The same piece of MUL and DIV.
pub fn load_wide<L: Ledger>(machine: &mut Machine, steps: &mut Steps<L>)
    requires { IsAt machine.old address.WIDDST }
    ensures { Exits machine.old machine.new steps.old steps.new (piece.load_wide (view machine.old)) }
{
    run_piece(machine, steps, &[LOAD]);
}

/// The piece of ST that keeps the place as the destination.
pub fn keep_stored<L: Ledger>(machine: &mut Machine, steps: &mut Steps<L>)
    requires { IsAt machine.old address.STDST }
    ensures { Exits machine.old machine.new steps.old steps.new (piece.keep_stored (view machine.old)) }
{
    run_piece(machine, steps, &[OPSTWO]);
}

/// The piece of a row that keeps the value, and gives 1 as the source of a row of one operand.
pub fn keep_first<L: Ledger>(machine: &mut Machine, steps: &mut Steps<L>)
    requires { IsAt machine.old address.OPSVAL }
    ensures { Exits machine.old machine.new steps.old steps.new (piece.keep_first (view machine.old)) }
{
    run_piece(machine, steps, &[GO, OPSTWO]);
}

/// The piece of MUL and DIV that keeps the value, and finds the width of the source.
pub fn keep_wide<L: Ledger>(machine: &mut Machine, steps: &mut Steps<L>)
    requires { IsAt machine.old address.WIDVAL }
    ensures { Exits machine.old machine.new steps.old steps.new (piece.keep_wide (view machine.old)) }
{
    run_piece(machine, steps, &[OPSTWO]);
}

/// The piece of a row that asks STREAM for an immediate source, or ADDR for the source's place.
pub fn request_second<L: Ledger>(machine: &mut Machine, steps: &mut Steps<L>)
    requires { IsAt machine.old address.OPSTWO }
    ensures { Exits machine.old machine.new steps.old steps.new (piece.request_second (view machine.old)) }
{
    run_piece(machine, steps, &[STREAM, ADDR]);
}

/// The piece of a row that asks LOAD for the value of the second operand.
pub fn load_second<L: Ledger>(machine: &mut Machine, steps: &mut Steps<L>)
    requires { IsAt machine.old address.OPVAL }
    ensures { Exits machine.old machine.new steps.old steps.new (piece.load_second (view machine.old)) }
{
    run_piece(machine, steps, &[LOAD]);
}

/// The piece of a row that goes where the second table leads.
pub fn go_to_row<L: Ledger>(machine: &mut Machine, steps: &mut Steps<L>)
    requires is_at { IsAt machine.old address.GO }
    requires low { 0x80 ≤ (view machine.old).r.r0 }
    requires high { (view machine.old).r.r0 < 0xEC }
    ensures { Exits machine.old machine.new steps.old steps.new (piece.go_to_row (view machine.old)) }
{
    run_piece(machine, steps, &[]);
}

/// Asks ADDR for the place of the destination, with its number of bytes.
fn request_destination<L: Ledger>(machine: &mut Machine, steps: &mut Steps<L>)
    requires { AtDispatch is_row machine.old }
    ensures { let s = state_at_dispatch (view machine.old) in
        ReachesWithin 6 machine.old machine.new steps.old steps.new address.ADDR
        (Asking s (destination_bytes s) (after_code s) (return_of_destination (operation_in s))) }
{
    if machine.pc() == WIDE {
        request_wide(machine, steps);
    } else if machine.pc() == STROW {
        request_stored(machine, steps);
    } else {
        request_first(machine, steps);
    }
}

/// Finds the destination of a row, and loads its value but for ST; a row of one operand has 1 for the source. Is the
/// destination visible? If not, the machine stops by reason 2.
fn load_destination<L: Ledger>(machine: &mut Machine, steps: &mut Steps<L>) -> bool
    requires { AtDispatch is_row machine.old }
    ensures { let s = state_at_dispatch (view machine.old) in
        LoadsDestination s machine.old machine.new steps.old steps.new result (first_of s) }
{
    let entry = machine.pc();
    request_destination(machine, steps);
    run_address(machine, steps);
    if machine.pc() == GSTOP {
        return false;
    }
    if entry == STROW {
        keep_stored(machine, steps);
        return true;
    }
    if entry == WIDE {
        load_wide(machine, steps);
        run_load(machine, steps);
        keep_wide(machine, steps);
        return true;
    }
    load_first(machine, steps);
    run_load(machine, steps);
    keep_first(machine, steps);
    true
}

/// Loads the source of a row of two operands, which is immediate or at a place. Is it visible? If not, the machine
/// stops by reason 2.
fn load_source<L: Ledger>(machine: &mut Machine, steps: &mut Steps<L>) -> bool
    requires is_at { IsAt machine.old address.OPSTWO }
    requires idle { PortsAreIdle machine.old.cpu.memory }
    requires fetched { IsFetched machine.old.cpu.memory.grom }
    requires some { 0 < (view machine.old).r.r3 }
    requires few { (view machine.old).r.r3 ≤ 2 }
    ensures { LoadsSource machine.old machine.new steps.old steps.new result }
{
    machine.holds_bounds();
    request_second(machine, steps);
    if machine.pc() == STREAM {
        stream_value(machine, steps);
        return true;
    }
    run_address(machine, steps);
    if machine.pc() == GSTOP {
        return false;
    }
    load_second(machine, steps);
    run_load(machine, steps);
    true
}

/// Finds both operands of a row and loads what it reads of them. Are they visible? If not, the machine stops by reason
/// 2.
fn load_operands<L: Ledger>(machine: &mut Machine, steps: &mut Steps<L>) -> bool
    requires { AtDispatch is_row machine.old }
    ensures { let s = state_at_dispatch (view machine.old) in
        LoadsOperands s machine.old machine.new steps.old steps.new result (operands_of s) }
{
    if !load_destination(machine, steps) {
        return false;
    }
    if machine.pc() == OPSTWO {
        return load_source(machine, steps);
    }
    true
}

/// Begins a row at its dispatch: both operands are found, what the row reads of them is loaded, and the machine is at
/// the entry of the row. The answer is the operation, and None where an operand is not visible: the machine then stops
/// by reason 2.
pub fn start_row<L: Ledger>(machine: &mut Machine, steps: &mut Steps<L>) -> Option<GplOperation>
    requires { AtDispatch is_row machine.old }
    ensures { HasStarted (state_at_dispatch (view machine.old)) machine.old machine.new steps.old steps.new result }
{
    let code = register(machine, 0) as u8;
    if !load_operands(machine, steps) {
        return None;
    }
    go_to_row(machine, steps);
    operation_at(code)
}
