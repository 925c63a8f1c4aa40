//! The definitions of the TMS9900: words, flags and status, instructions, operands, and the step over any memory.
#![tactic(auto)]

mod flags;
mod instruction;
mod port_stop;
mod status;
mod step_end;

pub use flags::{Flags, Out8, Out16};
pub use instruction::{
    BareOp, ImmOp, Instr, JumpOp, OneOp, Operation, Place, RegOp, ShiftOp, TwoOp,
};
pub use port_stop::PortStop;
pub use status::Status;
pub use step_end::StepEnd;
