//! The pieces of sums and logic.

ghost use Rattle.sim_rows.specs.Prelude.{Exits, IsAt, view};
ghost use Rattle.sim_rows.specs.native_interp.declared.addresses.TheConstants as address;
ghost use Rattle.sim_alu.specs.Pieces as piece;

use sim_rows::labels::{SHOW, STO, STORE};
use sim_rows::processor::{Machine, Steps};
use sim_rows::run_piece;
use std::sync::ledger::Ledger;

/// The piece of ST: its result is the value of the source.
pub fn take_source<L: Ledger>(machine: &mut Machine, steps: &mut Steps<L>)
    requires { IsAt machine.old address.STV }
    ensures { Exits machine.old machine.new steps.old steps.new (piece.take_source (view machine.old)) }
{
    run_piece(machine, steps, &[STO]);
}

/// The piece of AND: the ones that both values have stay.
pub fn keep_common_ones<L: Ledger>(machine: &mut Machine, steps: &mut Steps<L>)
    requires { IsAt machine.old address.ANDV }
    ensures { Exits machine.old machine.new steps.old steps.new (piece.keep_common_ones (view machine.old)) }
{
    run_piece(machine, steps, &[STO]);
}

/// The piece of OR: the ones of the source are set.
pub fn set_ones<L: Ledger>(machine: &mut Machine, steps: &mut Steps<L>)
    requires { IsAt machine.old address.ORV }
    ensures { Exits machine.old machine.new steps.old steps.new (piece.set_ones (view machine.old)) }
{
    run_piece(machine, steps, &[STO]);
}

/// The piece of XOR: the ones that one value alone has.
pub fn exclude_ones<L: Ledger>(machine: &mut Machine, steps: &mut Steps<L>)
    requires { IsAt machine.old address.XORV }
    ensures { Exits machine.old machine.new steps.old steps.new (piece.exclude_ones (view machine.old)) }
{
    run_piece(machine, steps, &[STO]);
}

/// The piece of INV: every bit is inverted.
pub fn invert<L: Ledger>(machine: &mut Machine, steps: &mut Steps<L>)
    requires { IsAt machine.old address.INVV }
    ensures { Exits machine.old machine.new steps.old steps.new (piece.invert (view machine.old)) }
{
    run_piece(machine, steps, &[STO]);
}

/// The piece of CLR: the result is 0.
pub fn clear<L: Ledger>(machine: &mut Machine, steps: &mut Steps<L>)
    requires { IsAt machine.old address.CLRV }
    ensures { Exits machine.old machine.new steps.old steps.new (piece.clear (view machine.old)) }
{
    run_piece(machine, steps, &[STO]);
}

/// The piece of INCT: the source is doubled and added; the status is kept, and STORE is asked for the sum.
pub fn add_twice<L: Ledger>(machine: &mut Machine, steps: &mut Steps<L>)
    requires { IsAt machine.old address.INCTV }
    ensures { Exits machine.old machine.new steps.old steps.new (piece.add_twice (view machine.old)) }
{
    run_piece(machine, steps, &[STORE]);
}

/// The piece of ADD and INC: the source is added; the status is kept, and STORE is asked for the sum.
pub fn add_source<L: Ledger>(machine: &mut Machine, steps: &mut Steps<L>)
    requires { IsAt machine.old address.ADDV }
    ensures { Exits machine.old machine.new steps.old steps.new (piece.add_source (view machine.old)) }
{
    run_piece(machine, steps, &[STORE]);
}

/// The piece of DECT: the source is doubled and subtracted; the status is kept, and STORE is asked for the difference.
pub fn subtract_twice<L: Ledger>(machine: &mut Machine, steps: &mut Steps<L>)
    requires { IsAt machine.old address.DECTV }
    ensures { Exits machine.old machine.new steps.old steps.new (piece.subtract_twice (view machine.old)) }
{
    run_piece(machine, steps, &[STORE]);
}

/// The piece of SUB and DEC: the source is subtracted; the status is kept, and STORE is asked for the difference.
pub fn subtract_source<L: Ledger>(machine: &mut Machine, steps: &mut Steps<L>)
    requires { IsAt machine.old address.SUBV }
    ensures { Exits machine.old machine.new steps.old steps.new (piece.subtract_source (view machine.old)) }
{
    run_piece(machine, steps, &[STORE]);
}

/// The piece of ABS: the absolute value; the status is kept, and STORE is asked for it.
pub fn make_absolute<L: Ledger>(machine: &mut Machine, steps: &mut Steps<L>)
    requires { IsAt machine.old address.ABSV }
    ensures { Exits machine.old machine.new steps.old steps.new (piece.make_absolute (view machine.old)) }
{
    run_piece(machine, steps, &[STORE]);
}

/// The piece of NEG: the negative; the status is kept, and STORE is asked for it.
pub fn negate<L: Ledger>(machine: &mut Machine, steps: &mut Steps<L>)
    requires { IsAt machine.old address.NEGV }
    ensures { Exits machine.old machine.new steps.old steps.new (piece.negate (view machine.old)) }
{
    run_piece(machine, steps, &[STORE]);
}

/// The piece that stores the kept status.
pub fn store_status<L: Ledger>(machine: &mut Machine, steps: &mut Steps<L>)
    requires { IsAt machine.old address.STATB }
    ensures { Exits machine.old machine.new steps.old steps.new (piece.store_status (view machine.old)) }
{
    run_piece(machine, steps, &[SHOW]);
}
