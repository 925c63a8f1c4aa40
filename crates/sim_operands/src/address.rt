//! ADDR: the place of an operand.

ghost use Rattle.std.specs.Prelude.{◌≡◌, ◌≤◌, eqb};
ghost use Rattle.sim_view.specs.Prelude.{Exits, IsFetched, PortsAreIdle, IsAt, view};
ghost use Rattle.sim_view.specs.native_interp.declared.addresses.TheConstants as address;
ghost use Rattle.sim_operands.specs.Subroutines.{FindsOperand};
ghost use Rattle.sim_operands.specs.Pieces as piece;
ghost use Rattle.sim_operands.specs.Routines as routine;

use sim_view::labels::{APTR, ASHORT, ASPACE, INDEX};
use sim_view::processor::{Machine, Steps};
use sim_view::run_piece;
use std::sync::ledger::Ledger;

/// The piece of ADDR that reads the first byte of an operand and its address. Is the address in one byte?
pub fn read_address<L: Ledger>(machine: &mut Machine, steps: &mut Steps<L>) -> bool
    requires { IsAt machine.old address.ADDR }
    ensures exits { Exits machine.old machine.new steps.old steps.new (piece.address (view machine.old)) }
    ensures short { result ≡ eqb (piece.address (view machine.old)).to address.ASHORT }
{
    run_piece(machine, steps, &[APTR, ASHORT]);
    machine.pc() == ASHORT
}

/// The piece of ADDR after an address in one byte: a range of more than four bytes is checked. It returns, or the
/// machine stops by reason 2.
pub fn check_short<L: Ledger>(machine: &mut Machine, steps: &mut Steps<L>)
    requires { IsAt machine.old address.ASHORT }
    ensures { Exits machine.old machine.new steps.old steps.new (piece.short_range (view machine.old)) }
{
    run_piece(machine, steps, &[]);
}

/// The piece of ADDR that reads the pointer of an indirect operand. Does it go on? If not,
/// the machine stops by reason 2.
pub fn read_pointer<L: Ledger>(machine: &mut Machine, steps: &mut Steps<L>) -> bool
    requires { IsAt machine.old address.APTR }
    ensures exits { Exits machine.old machine.new steps.old steps.new (piece.pointer (view machine.old)) }
    ensures went { result ≡ eqb (piece.pointer (view machine.old)).to address.INDEX }
{
    run_piece(machine, steps, &[INDEX]);
    machine.pc() == INDEX
}

/// The piece of ADDR that adds the index. Does it go on? If not, the machine stops by reason 2.
pub fn add_index<L: Ledger>(machine: &mut Machine, steps: &mut Steps<L>) -> bool
    requires { IsAt machine.old address.INDEX }
    ensures exits { Exits machine.old machine.new steps.old steps.new (piece.index (view machine.old)) }
    ensures went { result ≡ eqb (piece.index (view machine.old)).to address.ASPACE }
{
    run_piece(machine, steps, &[ASPACE]);
    machine.pc() == ASPACE
}

/// The piece of ADDR that finds the space and checks the range. It returns, or the machine stops by reason 2.
pub fn check_range<L: Ledger>(machine: &mut Machine, steps: &mut Steps<L>)
    requires { IsAt machine.old address.ASPACE }
    ensures { Exits machine.old machine.new steps.old steps.new (piece.range (view machine.old)) }
{
    run_piece(machine, steps, &[]);
}

/// ADDR from its index on: adds the index, finds the space and checks the range, or stops by reason 2.
pub fn check_index<L: Ledger>(machine: &mut Machine, steps: &mut Steps<L>)
    requires { IsAt machine.old address.INDEX }
    ensures { Exits machine.old machine.new steps.old steps.new (routine.check_index (view machine.old)) }
{
    if add_index(machine, steps) {
        check_range(machine, steps);
    }
}

/// Reads the pointer of an operand whose address is longer than one byte, and goes on to its index, or stops by
/// reason 2.
fn follow_pointer<L: Ledger>(machine: &mut Machine, steps: &mut Steps<L>)
    requires { IsAt machine.old address.APTR }
    ensures { Exits machine.old machine.new steps.old steps.new (routine.follow_pointer (view machine.old)) }
{
    if read_pointer(machine, steps) {
        check_index(machine, steps);
    }
}

/// ADDR, whole. It does what its pieces do: it finds the place of an operand, or stops by reason 2.
pub fn address_routine<L: Ledger>(machine: &mut Machine, steps: &mut Steps<L>)
    requires { IsAt machine.old address.ADDR }
    ensures { Exits machine.old machine.new steps.old steps.new (routine.find_operand (view machine.old)) }
{
    if read_address(machine, steps) {
        check_short(machine, steps);
    } else {
        follow_pointer(machine, steps);
    }
}

/// Runs ADDR: finds the place of the operand that follows in GROM, for as many bytes as register 3 says, in registers 2
/// and 5, or stops by reason 2. It takes at most 38 instructions, changes registers 4 and 6 too, leaves GROM after the
/// operand where there is a place, and returns to the address in register 11, or goes to GSTOP.
pub fn run_address<L: Ledger>(machine: &mut Machine, steps: &mut Steps<L>)
    requires is_at { IsAt machine.old address.ADDR }
    requires idle { PortsAreIdle machine.old.cpu.memory }
    requires fetched { IsFetched machine.old.cpu.memory.grom }
    requires bytes { (view machine.old).r.r3 ≤ 16384 }
    ensures { FindsOperand machine.old machine.new steps.old steps.new }
{
    address_routine(machine, steps);
}
