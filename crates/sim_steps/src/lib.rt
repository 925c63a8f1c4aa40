//! One step of GPL by the interpreter's machine code: boot, and a turn from the beginning of a step to its end. Each is
//! built of pieces: stretches of at most 16 instructions without a loop.
#![tactic(auto)]

mod family;
mod laws;
mod program;
mod start;
mod turn;

pub use family::{Family, family_of};
pub use laws::machines_start;
pub use program::run_turns;
pub use sim_alu::run_alu;
pub use sim_compare::run_compare;
pub use sim_flow::run_flow;
pub use sim_misc::run_misc;
pub use sim_move::run_move;
pub use sim_muldiv::run_muldiv;
pub use sim_rows::{Reason, Turn};
pub use sim_shift::run_shift;
pub use sim_stack::run_stack;
pub use start::{boot, start_program, stop_code};
pub use turn::gpl_turn;
