//! GPL, the language of the console's GROM: its instructions and their bytes, and the image of a GROM.
#![tactic(auto)]

mod instruction;
mod operations;
mod scratchpad;

pub use instruction::{
    ByteOp, GoOp, GplInstr, GplOperand, GplOperation, GplRead, GplSource, MoveKind, MoveLength,
    MoveSource, MoveTarget, OneName, PlainOp, Space, TwoName,
};
pub use operations::OPERATIONS;
pub use scratchpad::SCRATCHPAD;
