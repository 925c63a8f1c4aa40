//! The family of these rows.

ghost use Rattle.std.specs.Prelude.{◌<◌, ◌≡◌, Some};
ghost use Rattle.sim_rows.specs.Prelude.{AtDispatch, AtEntry, Exits, IsVisible, One, PortsAreIdle};
ghost use Rattle.sim_rows.specs.Prelude.{from_dispatch, row_entry, RunsRow, IsAt, state_at_dispatch, Turned, Two};
ghost use Rattle.sim_rows.specs.Prelude.{view};
ghost use Rattle.sim_alu.specs.Family.{is_alu, result_piece};
ghost use Rattle.sim_alu.specs.Tails.{StoresWithStatus};
ghost use Rattle.sim_rows.specs.native_interp.declared.addresses.TheConstants as address;
ghost use Rattle.sim_rows.specs.sim_view.Bounds.{bound_of_alu_row};

use crate::pieces::{
    add_source, add_twice, clear, exclude_ones, invert, keep_common_ones, make_absolute, negate,
    set_ones, store_status, subtract_source, subtract_twice, take_source,
};
use sim_rows::gpl::{GplOperation, OneName, TwoName};
use sim_rows::labels::STO;
use sim_rows::processor::{Machine, Steps};
use sim_rows::subroutines::run_store;
use sim_rows::{Reason, Turn, end_row, finish_row, start_row};
use std::sync::ledger::Ledger;

/// Makes the result of a row. Other rows are left where they stand.
fn make_result<L: Ledger>(machine: &mut Machine, steps: &mut Steps<L>, operation: GplOperation)
    requires { IsAt machine.old (row_entry (Some operation)) }
    ensures { Exits machine.old machine.new steps.old steps.new (result_piece operation (view machine.old)) }
{
    match operation {
        GplOperation::One(name) => make_result_of_one(machine, steps, name),
        GplOperation::Two(name) => make_result_of_two(machine, steps, name),
        GplOperation::Plain(_)
        | GplOperation::Byte(_)
        | GplOperation::Jump(_)
        | GplOperation::Branch(_)
        | GplOperation::Move(_) => {}
    }
}

/// Makes the result of one operand.
fn make_result_of_one<L: Ledger>(machine: &mut Machine, steps: &mut Steps<L>, name: OneName)
    requires { IsAt machine.old (row_entry (Some (One name))) }
    ensures { Exits machine.old machine.new steps.old steps.new (result_piece (One name) (view machine.old)) }
{
    match name {
        OneName::ABS => make_absolute(machine, steps),
        OneName::NEG => negate(machine, steps),
        OneName::INV => invert(machine, steps),
        OneName::CLR => clear(machine, steps),
        OneName::INC => add_source(machine, steps),
        OneName::DEC => subtract_source(machine, steps),
        OneName::INCT => add_twice(machine, steps),
        OneName::DECT => subtract_twice(machine, steps),
        OneName::CASE | OneName::CZ | OneName::FETCH | OneName::PUSH => {}
    }
}

/// Makes the result of two operands.
fn make_result_of_two<L: Ledger>(machine: &mut Machine, steps: &mut Steps<L>, name: TwoName)
    requires { IsAt machine.old (row_entry (Some (Two name))) }
    ensures { Exits machine.old machine.new steps.old steps.new (result_piece (Two name) (view machine.old)) }
{
    match name {
        TwoName::ADD => add_source(machine, steps),
        TwoName::SUB => subtract_source(machine, steps),
        TwoName::AND => keep_common_ones(machine, steps),
        TwoName::OR => set_ones(machine, steps),
        TwoName::XOR => exclude_ones(machine, steps),
        TwoName::ST => take_source(machine, steps),
        TwoName::MUL | TwoName::DIV | TwoName::EX => {}
        TwoName::CH | TwoName::CHE | TwoName::CGT | TwoName::CGE | TwoName::CEQ | TwoName::CLOG =>
            {}
        TwoName::SRA | TwoName::SLL | TwoName::SRL | TwoName::SRC => {}
    }
}

/// Stores the result of a row, which is in register 9, and then the status that register 12 keeps, and ends the row.
fn finish_with_status<L: Ledger>(machine: &mut Machine, steps: &mut Steps<L>)
    requires is_at { IsAt machine.old address.STORE }
    requires idle { PortsAreIdle machine.old.cpu.memory }
    requires space { (view machine.old).r.r8 < 2 }
    requires visible { let r = (view machine.old).r in IsVisible r.r8 r.r7 r.r3 }
    requires link { (view machine.old).r.r11 ≡ address.STATB }
    ensures { StoresWithStatus machine.old machine.new steps.old steps.new }
{
    run_store(machine, steps);
    store_status(machine, steps);
    end_row(machine, steps);
}

/// Runs the row of an operation of this family, from its entry to the end of the step.
fn run_row<L: Ledger>(machine: &mut Machine, steps: &mut Steps<L>, operation: GplOperation)
    requires { AtEntry is_alu operation machine.old }
    ensures { RunsRow operation bound_of_alu_row machine.old machine.new steps.old steps.new }
{
    make_result(machine, steps, operation);
    if machine.pc() == STO {
        finish_row(machine, steps);
    } else {
        finish_with_status(machine, steps);
    }
}

/// Runs ST, AND, OR, XOR, ADD, SUB, ABS, NEG, INV, CLR, INC, DEC, INCT and DECT, in both widths, from the dispatch to
/// the end of the step. [`Turn::Stopped`] says that an operand is not visible: nothing is changed then.
pub fn run_alu<L: Ledger>(machine: &mut Machine, steps: &mut Steps<L>) -> Turn
    requires { AtDispatch is_alu machine.old }
    ensures { Turned (state_at_dispatch (view machine.old))
        machine.old machine.new (from_dispatch steps.old steps.new) result }
{
    let Some(operation) = start_row(machine, steps) else {
        return Turn::Stopped(Reason::Cell);
    };
    run_row(machine, steps, operation);
    Turn::Stepped
}
