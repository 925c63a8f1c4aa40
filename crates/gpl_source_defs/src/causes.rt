//! Why a line of a GPL source is refused.

use expression_defs::ExprError;
use source_defs::TextError;

/// Why a line of a GPL source is refused. No inner error is its `Memory`.
#[derive(Clone, Copy, Debug, PartialEq, Eq)]
pub enum GplCause {
    /// The operation field names no operation.
    UnknownOperation,
    /// There are more operands, or fewer, than the operation takes.
    OperandCount,
    /// An operand is empty or has a form that its place does not allow, or its value is out of range.
    BadOperand,
    /// The target of BR or BS lies in another GROM than the line.
    OtherGrom,
    /// The line leads past the last byte of its GROM.
    GromFull,
    /// The label stands for something already.
    DuplicateLabel,
    /// An expression is refused.
    Expr(ExprError),
    /// The line is too long, or its label is no name.
    Text(TextError),
    /// A byte that was placed before.
    Overlap,
    /// EQU without a label; a GROM that is no multiple of >2000; an offset past the last byte of a GROM.
    BadDirective,
}
