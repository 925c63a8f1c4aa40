//! The bits of GPL's status. GPL Programmer's Guide, on the status byte.

/// H: the result is higher than 0, as a number without sign.
pub const HIGHER_BIT: u8 = 0x80;

/// GT: the result is greater than 0, as a number with sign.
pub const GREATER_BIT: u8 = 0x40;

/// COND: the condition, by which programs branch.
pub const CONDITION_BIT: u8 = 0x20;

/// CARRY: the processor's C of the operation, as the carry of a sum or no borrow of a difference.
pub const CARRY_BIT: u8 = 0x10;

/// OVF: the result did not fit, by its sign.
pub const OVERFLOW_BIT: u8 = 0x08;
