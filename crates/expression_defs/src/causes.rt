//! Why an expression has no value.

/// Why an expression has no value.
#[derive(Clone, Copy, Debug, PartialEq, Eq)]
pub enum ExprError {
    /// A place where no token can be read, a token out of its place, or a term that is missing.
    BadToken,
    /// A name that stands for nothing.
    UnknownName,
    /// Values that are joined in a way that their kinds do not allow, or a value whose kind its place does not allow.
    BadRelocation,
    /// A decimal number above 65,535, or more than four hexadecimal digits.
    TooLarge,
    /// A division by zero.
    DivideByZero,
    /// Memory ran out.
    Memory,
}
