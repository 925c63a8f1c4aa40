//! GPL in bytes: instructions and their spelling, and the image of a GROM.
#![tactic(auto)]

mod image;
mod laws;
mod operations;
mod read;
mod size;
mod valid;
mod write;

pub use gpl_defs::{
    ByteOp, GoOp, GplInstr, GplOperand, GplOperation, GplRead, GplSource, MoveKind, MoveLength,
    MoveSource, MoveTarget, OneName, PlainOp, Space, TwoName,
};
pub use image::GromImage;
pub use laws::bytes_mean_one_instruction;
pub use operations::{name_of, operation_at};
pub use read::{holds_bytes_at, is_shortest, read_instr};
pub use size::{size_between, size_of};
pub use valid::{has_immediate, is_valid};
pub use write::write_instr;
