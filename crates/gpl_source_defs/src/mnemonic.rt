//! What an operation field names.

use gpl_defs::{ByteOp, GoOp, OneName, PlainOp, TwoName};

/// An instruction by its name.
#[derive(Clone, Copy, Debug, PartialEq, Eq)]
pub enum Mnemonic {
    /// An operation without operands.
    Plain(PlainOp),
    /// An operation with a byte.
    Byte(ByteOp),
    /// An operation with an address.
    Jump(GoOp),
    /// BR, or BS with `true`.
    Branch(bool),
    /// An operation with one operand in memory, which is a word with `true`.
    One(OneName, bool),
    /// An operation with two operands, which are words with `true`.
    Two(TwoName, bool),
    /// MOVE.
    Move,
}
