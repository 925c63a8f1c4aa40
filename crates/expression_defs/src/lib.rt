//! What expressions and names mean in the source of any assembler, and where lines are placed: the type that
//! definitions and code share. The definitions are in `specs/`.
#![tactic(auto)]

mod causes;

pub use crate::causes::ExprError;
