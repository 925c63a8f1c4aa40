//! The pieces of MUL and DIV.

ghost use Rattle.std.specs.Prelude.{◌<◌, ◌≤◌};
ghost use Rattle.sim_rows.specs.Prelude.{Exits, IsAt, view};
ghost use Rattle.sim_rows.specs.native_interp.declared.addresses.TheConstants as address;
ghost use Rattle.sim_muldiv.specs.Pieces as piece;

use sim_rows::labels::{DIVBY, DIVS, DIVW, LOAD, OVER, SHOW, STO, STORE};
use sim_rows::processor::{Machine, Steps};
use sim_rows::run_piece;
use std::sync::ledger::Ledger;

/// The piece of MUL: the product of bytes is the result of the row; the product of words is stored in two parts, and
/// STORE is asked for the first of them.
pub fn multiply<L: Ledger>(machine: &mut Machine, steps: &mut Steps<L>)
    requires { IsAt machine.old address.MULV }
    ensures { Exits machine.old machine.new steps.old steps.new (piece.multiply (view machine.old)) }
{
    run_piece(machine, steps, &[STO, STORE]);
}

/// The piece of MUL that has the low word of the product stored after the high one.
pub fn low_product<L: Ledger>(machine: &mut Machine, steps: &mut Steps<L>)
    requires { IsAt machine.old address.MULB }
    ensures { Exits machine.old machine.new steps.old steps.new (piece.low_product (view machine.old)) }
{
    run_piece(machine, steps, &[STO]);
}

/// The piece of DIV that finds whether the quotient fits, and the width.
pub fn compare_divisor<L: Ledger>(machine: &mut Machine, steps: &mut Steps<L>)
    requires { IsAt machine.old address.DIVV }
    ensures { Exits machine.old machine.new steps.old steps.new (piece.compare_divisor (view machine.old)) }
{
    run_piece(machine, steps, &[OVER, DIVBY, DIVW]);
}

/// The piece of DIV that divides by a byte, one of whose bits is set.
pub fn divide_bytes<L: Ledger>(machine: &mut Machine, steps: &mut Steps<L>)
    requires is_at { IsAt machine.old address.DIVBY }
    requires fits { 256 ≤ (view machine.old).r.r6 }
    ensures { Exits machine.old machine.new steps.old steps.new (piece.divide_bytes (view machine.old)) }
{
    run_piece(machine, steps, &[DIVS]);
}

/// The piece of DIV that asks LOAD for the second word of the destination.
pub fn load_low_word<L: Ledger>(machine: &mut Machine, steps: &mut Steps<L>)
    requires { IsAt machine.old address.DIVW }
    ensures { Exits machine.old machine.new steps.old steps.new (piece.load_low_word (view machine.old)) }
{
    run_piece(machine, steps, &[LOAD]);
}

/// The piece of DIV that divides by a word above the first word of the dividend, and asks STORE for the quotient.
pub fn divide_words<L: Ledger>(machine: &mut Machine, steps: &mut Steps<L>)
    requires is_at { IsAt machine.old address.DIVL }
    requires fits { let r = (view machine.old).r in r.r9 < r.r12 }
    ensures { Exits machine.old machine.new steps.old steps.new (piece.divide_words (view machine.old)) }
{
    run_piece(machine, steps, &[STORE]);
}

/// The piece of DIV that has the remainder stored after the quotient.
pub fn take_remainder<L: Ledger>(machine: &mut Machine, steps: &mut Steps<L>)
    requires { IsAt machine.old address.DIVQ }
    ensures { Exits machine.old machine.new steps.old steps.new (piece.take_remainder (view machine.old)) }
{
    run_piece(machine, steps, &[DIVS]);
}

/// The piece of DIV that asks STORE for the last word.
pub fn store_last<L: Ledger>(machine: &mut Machine, steps: &mut Steps<L>)
    requires { IsAt machine.old address.DIVS }
    ensures { Exits machine.old machine.new steps.old steps.new (piece.store_last (view machine.old)) }
{
    run_piece(machine, steps, &[STORE]);
}

/// The piece of DIV that clears the overflow.
pub fn clear_overflow<L: Ledger>(machine: &mut Machine, steps: &mut Steps<L>)
    requires { IsAt machine.old address.DIVE }
    ensures { Exits machine.old machine.new steps.old steps.new (piece.clear_overflow (view machine.old)) }
{
    run_piece(machine, steps, &[SHOW]);
}

/// The piece of DIV that sets the overflow, where the quotient does not fit.
pub fn set_overflow<L: Ledger>(machine: &mut Machine, steps: &mut Steps<L>)
    requires { IsAt machine.old address.OVER }
    ensures { Exits machine.old machine.new steps.old steps.new (piece.set_overflow (view machine.old)) }
{
    run_piece(machine, steps, &[]);
}
