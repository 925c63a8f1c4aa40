//! DIV: the quotient and the remainder of numbers without sign.

ghost use Rattle.std.specs.Prelude.{◌<◌, ◌==◌, ◌≡◌, ◌≤◌, IsFalse, IsTrue};
ghost use Rattle.sim_rows.specs.Prelude.{Exits, IsAt, view};
ghost use Rattle.sim_rows.specs.native_interp.declared.addresses.TheConstants as address;
ghost use Rattle.sim_rows.specs.sim_operands.Routines.{CanStore};
ghost use Rattle.sim_muldiv.specs.Rows as row;

use crate::pieces::{
    clear_overflow, compare_divisor, divide_bytes, divide_words, load_low_word, set_overflow,
    store_last, take_remainder,
};
use sim_rows::end_row_routine;
use sim_rows::labels::{DIVBY, DIVS, DIVW, OVER, STORE};
use sim_rows::processor::{Machine, Steps};
use sim_rows::subroutines::{load_routine, store_routine};
use std::sync::ledger::Ledger;

/// Stores the last word of a division and ends its row.
fn end_division<L: Ledger>(machine: &mut Machine, steps: &mut Steps<L>)
    requires is_at { IsAt machine.old address.DIVS }
    requires visible { CanStore (view machine.old) }
    ensures { Exits machine.old machine.new steps.old steps.new (row.end_division (view machine.old)) }
{
    store_last(machine, steps);
    store_routine(machine, steps);
    clear_overflow(machine, steps);
    end_row_routine(machine, steps);
}

/// Runs DIV of bytes, whose quotient fits, to the end of the step.
fn run_byte_quotient<L: Ledger>(machine: &mut Machine, steps: &mut Steps<L>)
    requires is_at { IsAt machine.old address.DIVBY }
    requires visible { row.AreVisible (view machine.old) }
    requires byte { IsTrue ((view machine.old).r.r3 == 1) }
    requires fits { 256 ≤ (view machine.old).r.r6 }
    ensures { Exits machine.old machine.new steps.old steps.new (row.byte_quotient (view machine.old)) }
{
    divide_bytes(machine, steps);
    end_division(machine, steps);
}

/// Loads the second word of the dividend and divides.
fn load_and_divide<L: Ledger>(machine: &mut Machine, steps: &mut Steps<L>)
    requires is_at { IsAt machine.old address.DIVW }
    requires visible { row.AreVisible (view machine.old) }
    requires word { IsFalse ((view machine.old).r.r3 == 1) }
    requires fits { let r = (view machine.old).r in r.r9 < r.r6 }
    ensures { Exits machine.old machine.new steps.old steps.new (row.load_and_divide (view machine.old)) }
{
    load_low_word(machine, steps);
    load_routine(machine, steps);
    divide_words(machine, steps);
}

/// Stores a quotient, and the remainder after it, and ends the row.
fn store_quotient<L: Ledger>(machine: &mut Machine, steps: &mut Steps<L>)
    requires is_at { IsAt machine.old address.STORE }
    requires link { (view machine.old).r.r11 ≡ address.DIVQ }
    requires visible { row.AreVisible (view machine.old) }
    requires word { IsFalse ((view machine.old).r.r3 == 1) }
    ensures { Exits machine.old machine.new steps.old steps.new (row.store_quotient (view machine.old)) }
{
    store_routine(machine, steps);
    take_remainder(machine, steps);
    end_division(machine, steps);
}

/// Runs DIV of words, whose quotient fits, to the end of the step.
fn run_word_quotient<L: Ledger>(machine: &mut Machine, steps: &mut Steps<L>)
    requires is_at { IsAt machine.old address.DIVW }
    requires visible { row.AreVisible (view machine.old) }
    requires word { IsFalse ((view machine.old).r.r3 == 1) }
    requires fits { let r = (view machine.old).r in r.r9 < r.r6 }
    ensures { Exits machine.old machine.new steps.old steps.new (row.word_quotient (view machine.old)) }
{
    load_and_divide(machine, steps);
    store_quotient(machine, steps);
}

/// Runs DIV from its row to the end of the step.
pub fn run_quotient<L: Ledger>(machine: &mut Machine, steps: &mut Steps<L>)
    requires is_at { IsAt machine.old address.DIVV }
    requires ready { row.IsReady (view machine.old) }
    ensures { Exits machine.old machine.new steps.old steps.new (row.quotient (view machine.old)) }
{
    compare_divisor(machine, steps);
    if machine.pc() == OVER {
        set_overflow(machine, steps);
    } else if machine.pc() == DIVBY {
        run_byte_quotient(machine, steps);
    } else {
        run_word_quotient(machine, steps);
    }
}
