//! Where GROM goes on at the end of a step that does not go on after its instruction: a jump, a branch that
//! is taken, and the end of a row that read elsewhere in GROM. Each is built of pieces: stretches of at most
//! 16 instructions without a loop.
#![tactic(auto)]

mod ending;
mod pieces;

pub use ending::{jump, resume_row, resume_row_routine, take_jump};
pub use pieces::{go_to, resume, take_branch};
