//! The machine as the interpreter's author sees it: its registers, cells and ports, and runs of the pieces of the
//! interpreter.
#![tactic(auto)]

mod ready;
mod registers;
mod run;

pub use ready::is_ready;
pub use registers::register;
pub use run::{PIECE, run_piece};

// what a piece speaks of
pub use gpl_step_defs::Reason;
pub use interp_defs::Turn;
pub use native_interp as labels;
pub use tms_defs as instructions;
pub use tms_step as processor;
