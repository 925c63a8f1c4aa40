//! What an expression may be worth.

use crate::name::Name;

/// The value of an expression or a name.
#[derive(Clone, Copy, Debug, PartialEq, Eq)]
pub enum Value {
    /// A number.
    Absolute(u16),
    /// A place in relocatable code.
    Relocatable(u16),
    /// A name whose value the linker knows.
    External(Name),
}
