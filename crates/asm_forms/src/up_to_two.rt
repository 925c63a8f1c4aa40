//! As many operands as an operation has.

/// What belongs to the operands of a line, of which no operation takes more than two.
#[derive(Clone, Copy)]
pub enum UpToTwo<T> {
    /// There is no operand.
    None,
    /// There is one.
    One(T),
    /// There are two, the first on the left.
    Two(T, T),
}
