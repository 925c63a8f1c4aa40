//! The processor's arithmetic, and its instruction words.
#![tactic(auto)]

mod bytes;
mod decoding;
mod encoding;
mod multiply;
mod shift;
mod words;

pub use bytes::{abs8, add8, compare8, neg8, odd8, sub8};
pub use decoding::decode;
pub use encoding::encode;
pub use multiply::{div16, mul16};
pub use shift::shift16;
pub use tms_defs::{
    BareOp, Flags, ImmOp, Instr, JumpOp, OneOp, Operation, Out8, Out16, Place, RegOp, ShiftOp,
    TwoOp,
};
pub use words::{abs16, add16, compare16, neg16, sub16};
