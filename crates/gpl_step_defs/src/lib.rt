//! The step of GPL: its state, what each instruction does to it, why it stops, and runs of steps. The definitions stand
//! in `specs/`.
#![tactic(auto)]

mod cells;
mod laws;
mod limits;
mod reason;
mod status_bits;

pub use cells::{
    CHARACTER, COLUMN, RANDOM, RETURN_STACK, ROW, SEED, STATUS, VALUE_STACK, VISIBLE_CELLS,
};
pub use laws::{runs_are_steps, steps_keep_states};
pub use limits::{BORDER_REGISTER, MOST_MOVED, SCREEN_BYTES, SCREEN_WIDTH, VIDEO_REGISTERS};
pub use reason::Reason;
pub use status_bits::{CARRY_BIT, CONDITION_BIT, GREATER_BIT, HIGHER_BIT, OVERFLOW_BIT};
