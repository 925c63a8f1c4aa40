//! Why a line is refused.

use thiserror::Error;

/// Why a line has no fields.
#[derive(Error, Debug, Clone, Copy, PartialEq, Eq)]
pub enum TextError {
    /// The line has more than 256 bytes.
    #[error("line too long")]
    LineTooLong,
    /// Column 1 holds neither a blank nor an asterisk, and what is there up to the first blank is no name.
    #[error("bad label")]
    BadLabel,
}

/// Why the operands of a field are refused.
#[derive(Clone, Copy, Debug, PartialEq, Eq)]
pub enum OperandError {
    /// There are more operands, or fewer, than the operation takes.
    Count,
    /// An operand is empty, or of a form that its place does not allow.
    Form,
}
