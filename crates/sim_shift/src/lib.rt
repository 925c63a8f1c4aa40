//! The shifts, run on the machine: SRA, SLL, SRL and SRC of bytes and of words.
#![tactic(auto)]

mod family;
mod pieces;

pub use family::run_shift;
pub use pieces::{
    request_arithmetic_count, request_left_count, request_right_count, request_turn_count,
    shift_arithmetic, shift_left, shift_right, take_count, turn_right,
};
