//! What an operand may be.

/// What an operand of an operation may be.
#[derive(Clone, Copy, Debug, PartialEq, Eq)]
pub enum OperandKind {
    /// An operand in any addressing mode.
    General,
    /// A register.
    Register,
    /// A number from 0 to 15: a count of places or of bits, or the number of an extended operation.
    Count,
    /// A word that follows the instruction.
    Immediate,
    /// The target of a jump.
    Target,
    /// The displacement of a bit, from -128 to 127.
    Displacement,
}
