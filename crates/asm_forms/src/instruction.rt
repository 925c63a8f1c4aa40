//! An operation with its operands, as an instruction.

ghost use Rattle.std.specs.Prelude.{◌≡◌, ◌<◌};
ghost use Rattle.tms_defs.specs.Instructions.{IsPlace, HasRoom};
ghost use Rattle.instruction_defs.specs.SecondChecks as spec;
ghost use Rattle.asm_forms.specs.UpToTwo.{items_of};
ghost use Rattle.asm_forms.specs.Values.{model_of_ready, IsReady, AllReady};

use crate::ranges::EncodedOperand;
use crate::up_to_two::UpToTwo;
use tms_defs::{Instr, Operation, Place};

/// The instruction of an operation with its operands, a source before its destination and a register before a count.
pub(crate) fn instruction_of(operation: Operation, readies: &UpToTwo<EncodedOperand>) -> Instr
    requires { AllReady readies.now }
    ensures instr { result ≡ spec.instruction_of operation (items_of model_of_ready readies.now) }
    ensures room { HasRoom result }
{
    match operation {
        Operation::Two(op, byte) => Instr::Two {
            op,
            byte,
            dst: second_place(readies),
            src: first_place(readies),
        },
        Operation::Reg(op) => Instr::Reg {
            op,
            d: second_count(readies),
            src: first_place(readies),
        },
        Operation::Shift(op) => Instr::Shift {
            op,
            count: second_count(readies),
            w: first_count(readies),
        },
        Operation::One(op) => Instr::One {
            op,
            at: first_place(readies),
        },
        Operation::Jump(op) => Instr::Jump {
            op,
            disp: first_displacement(readies),
        },
        Operation::Imm(op) => Instr::Imm {
            op,
            w: first_count(readies),
        },
        Operation::Bare(op) => Instr::Bare { op },
    }
}

/// The place of the first operand.
fn first_place(readies: &UpToTwo<EncodedOperand>) -> Place
    requires { AllReady readies.now }
    ensures place { result ≡ spec.place_in (spec.first_of (items_of model_of_ready readies.now)) }
    ensures room { IsPlace result }
{
    match readies {
        UpToTwo::One(ready) | UpToTwo::Two(ready, _) => place_in(ready),
        UpToTwo::None => Place { mode: 0, reg: 0 },
    }
}

/// The place of the second operand.
fn second_place(readies: &UpToTwo<EncodedOperand>) -> Place
    requires { AllReady readies.now }
    ensures place { result ≡ spec.place_in (spec.second_of (items_of model_of_ready readies.now)) }
    ensures room { IsPlace result }
{
    match readies {
        UpToTwo::Two(_, ready) => place_in(ready),
        UpToTwo::None | UpToTwo::One(_) => Place { mode: 0, reg: 0 },
    }
}

/// The register or count of the first operand.
fn first_count(readies: &UpToTwo<EncodedOperand>) -> u8
    requires { AllReady readies.now }
    ensures count { result ≡ spec.count_in (spec.first_of (items_of model_of_ready readies.now)) }
    ensures room { result < 16 }
{
    match readies {
        UpToTwo::One(ready) | UpToTwo::Two(ready, _) => count_in(ready),
        UpToTwo::None => 0,
    }
}

/// The register or count of the second operand.
fn second_count(readies: &UpToTwo<EncodedOperand>) -> u8
    requires { AllReady readies.now }
    ensures count { result ≡ spec.count_in (spec.second_of (items_of model_of_ready readies.now)) }
    ensures room { result < 16 }
{
    match readies {
        UpToTwo::Two(_, ready) => count_in(ready),
        UpToTwo::None | UpToTwo::One(_) => 0,
    }
}

/// The displacement of the first operand.
fn first_displacement(readies: &UpToTwo<EncodedOperand>) -> i8
    ensures { result ≡ spec.displacement_in (spec.first_of (items_of model_of_ready readies.now)) }
{
    match readies {
        UpToTwo::One(EncodedOperand::Displaced(disp))
        | UpToTwo::Two(EncodedOperand::Displaced(disp), _) => *disp,
        _ => 0,
    }
}

fn place_in(ready: &EncodedOperand) -> Place
    requires { IsReady ready.now }
    ensures place { result ≡ spec.place_in (model_of_ready ready.now) }
    ensures room { IsPlace result }
{
    match ready {
        EncodedOperand::Located(place) | EncodedOperand::Addressed(place, _) => *place,
        EncodedOperand::Counted(_) | EncodedOperand::Displaced(_) | EncodedOperand::Followed(_) =>
            Place { mode: 0, reg: 0 },
    }
}

fn count_in(ready: &EncodedOperand) -> u8
    requires { IsReady ready.now }
    ensures count { result ≡ spec.count_in (model_of_ready ready.now) }
    ensures room { result < 16 }
{
    match ready {
        EncodedOperand::Counted(number) => *number,
        EncodedOperand::Located(_)
        | EncodedOperand::Addressed(..)
        | EncodedOperand::Displaced(_)
        | EncodedOperand::Followed(_) => 0,
    }
}
