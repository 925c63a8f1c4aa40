//! A step up to its dispatch.

ghost use Rattle.std.specs.Prelude.{◌+◌, ◌≡◌, slice_index};
ghost use Rattle.sim_rows.specs.Prelude.{ReachesWithin, Dispatched, Exits, IsMatching, bound_to_dispatch, operation_at};
ghost use Rattle.sim_rows.specs.Prelude.{operation_entry, operation_in_view, shown_by, IsAt, state_at_dispatch, view};
ghost use Rattle.sim_view.specs.native_interp.declared.addresses.TheConstants as address;
ghost use Rattle.sim_rows.specs.Pieces as piece;

use gpl_forms::{GplOperation, operation_at};
use sim_view::processor::{Machine, Steps};
use sim_view::{register, run_piece};
use std::sync::ledger::Ledger;

/// The piece of WHERE: the address of the next GROM byte.
pub fn where_next<L: Ledger>(machine: &mut Machine, steps: &mut Steps<L>)
    requires { IsAt machine.old address.WHERE }
    ensures { Exits machine.old machine.new steps.old steps.new (piece.where_next (view machine.old)) }
{
    run_piece(machine, steps, &[]);
}

/// The piece of a step that finds its code byte and goes where the first table leads.
pub fn dispatch<L: Ledger>(machine: &mut Machine, steps: &mut Steps<L>)
    requires { IsAt machine.old address.GSTEP }
    ensures { Exits machine.old machine.new steps.old steps.new (piece.dispatch (view machine.old)) }
{
    run_piece(machine, steps, &[]);
}

/// From the beginning of a step to its dispatch: registers 0 and 1 hold the code byte and its address, GROM has gone on
/// by one, and the machine is where the first table leads. It takes at most 16 instructions.
pub fn begin_step<L: Ledger>(machine: &mut Machine, steps: &mut Steps<L>)
    requires { IsMatching machine.old }
    ensures { let s = shown_by machine.old.cpu.memory in
        ReachesWithin bound_to_dispatch machine.old machine.new steps.old steps.new
        (operation_entry (operation_at (slice_index s.image s.pc))) (Dispatched s) }
{
    machine.holds_bounds();
    dispatch(machine, steps);
}

/// The operation of the step that is dispatched, by the code byte in register 0.
pub fn current_operation(machine: &Machine) -> Option<GplOperation>
    requires wp { machine.now.cpu.wp ≡ address.WORKSPACE }
    requires dispatched { let v = view machine.now in Dispatched (state_at_dispatch v) v }
    ensures { result ≡ operation_in_view (view machine.now) }
{
    machine.holds_bounds();
    operation_at(register(machine, 0) as u8)
}
