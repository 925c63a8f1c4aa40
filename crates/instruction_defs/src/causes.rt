//! Why an instruction line is refused.

use expression_defs::ExprError;

/// Why an instruction line is refused, or a directive by the same rule.
#[derive(Clone, Copy, Debug, PartialEq, Eq)]
pub enum FormError {
    /// The operation field names no operation.
    UnknownOperation,
    /// There are more operands, or fewer, than the operation takes.
    OperandCount,
    /// An operand is empty or has a form that its place does not allow, or its value is out of range.
    BadOperand,
    /// A jump's target is not from -128 to 127 whole words after the next instruction.
    JumpTooFar,
    /// An expression is refused. It never carries `ExprError::Memory`.
    Expr(ExprError),
    /// Memory ran out.
    Memory,
}
