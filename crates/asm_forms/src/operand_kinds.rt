//! The operands of each operation.

ghost use Rattle.std.specs.Prelude.{◌≡◌};
ghost use Rattle.instruction_defs.specs.Operands as spec;
ghost use Rattle.asm_forms.specs.UpToTwo.{kinds_in};

use crate::sizes::{has_immediate, has_value};
use crate::up_to_two::UpToTwo;
use instruction_defs::OperandKind;
use tms_defs::{JumpOp, Operation, RegOp};

/// The operands of an operation, in the order of the operand field (Editor/Assembler manual, "Assembly Language
/// Instructions").
pub(crate) fn kinds_of(operation: Operation) -> UpToTwo<OperandKind>
    ensures { kinds_in result ≡ spec.kinds_of operation }
{
    match operation {
        Operation::Two(..) => UpToTwo::Two(OperandKind::General, OperandKind::General),
        Operation::Reg(op) => reg_kinds(op),
        Operation::Shift(_) => UpToTwo::Two(OperandKind::Register, OperandKind::Count),
        Operation::One(_) => UpToTwo::One(OperandKind::General),
        Operation::Jump(op) => jump_kinds(op),
        Operation::Imm(op) if has_immediate(op) => UpToTwo::Two(
            OperandKind::Register,
            OperandKind::Immediate,
        ),
        Operation::Imm(_) => UpToTwo::One(OperandKind::Register),
        Operation::Bare(op) if has_value(op) => UpToTwo::One(OperandKind::Immediate),
        Operation::Bare(_) => UpToTwo::None,
    }
}

fn reg_kinds(op: RegOp) -> UpToTwo<OperandKind>
    ensures { kinds_in result ≡ spec.reg_kinds op }
{
    match op {
        RegOp::XOP | RegOp::LDCR | RegOp::STCR => UpToTwo::Two(
            OperandKind::General,
            OperandKind::Count,
        ),
        RegOp::COC | RegOp::CZC | RegOp::XOR | RegOp::MPY | RegOp::DIV => {
            UpToTwo::Two(OperandKind::General, OperandKind::Register)
        }
    }
}

fn jump_kinds(op: JumpOp) -> UpToTwo<OperandKind>
    ensures { kinds_in result ≡ spec.jump_kinds op }
{
    match op {
        JumpOp::SBO | JumpOp::SBZ | JumpOp::TB => UpToTwo::One(OperandKind::Displacement),
        _ => UpToTwo::One(OperandKind::Target),
    }
}
