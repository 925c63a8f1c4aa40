//! MUL: the product of numbers without sign.

ghost use Rattle.std.specs.Prelude.{◌==◌, IsFalse, IsTrue};
ghost use Rattle.sim_rows.specs.Prelude.{Exits, IsAt, view};
ghost use Rattle.sim_rows.specs.native_interp.declared.addresses.TheConstants as address;
ghost use Rattle.sim_muldiv.specs.Rows as row;

use crate::pieces::{low_product, multiply};
use sim_rows::processor::{Machine, Steps};
use sim_rows::subroutines::store_routine;
use sim_rows::{finish_row_routine, register};
use std::sync::ledger::Ledger;

/// Runs MUL of bytes from its row to the end of the step.
fn run_byte_product<L: Ledger>(machine: &mut Machine, steps: &mut Steps<L>)
    requires is_at { IsAt machine.old address.MULV }
    requires visible { row.AreVisible (view machine.old) }
    requires byte { IsTrue ((view machine.old).r.r3 == 1) }
    ensures { Exits machine.old machine.new steps.old steps.new (row.byte_product (view machine.old)) }
{
    multiply(machine, steps);
    finish_row_routine(machine, steps);
}

/// Runs MUL of words from its row to the end of the step.
fn run_word_product<L: Ledger>(machine: &mut Machine, steps: &mut Steps<L>)
    requires is_at { IsAt machine.old address.MULV }
    requires visible { row.AreVisible (view machine.old) }
    requires word { IsFalse ((view machine.old).r.r3 == 1) }
    ensures { Exits machine.old machine.new steps.old steps.new (row.word_product (view machine.old)) }
{
    multiply(machine, steps);
    store_routine(machine, steps);
    low_product(machine, steps);
    finish_row_routine(machine, steps);
}

/// Runs MUL from its row to the end of the step.
pub fn run_product<L: Ledger>(machine: &mut Machine, steps: &mut Steps<L>)
    requires is_at { IsAt machine.old address.MULV }
    requires visible { row.AreVisible (view machine.old) }
    ensures { Exits machine.old machine.new steps.old steps.new (row.product (view machine.old)) }
{
    if register(machine, 3) == 1 {
        run_byte_product(machine, steps);
    } else {
        run_word_product(machine, steps);
    }
}
