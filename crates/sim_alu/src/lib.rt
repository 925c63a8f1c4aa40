//! The rows of ST, of the operations bit by bit, of sums and differences, of the absolute value and
//! the negative, run on the machine.
#![tactic(auto)]

mod family;
mod pieces;

pub use family::run_alu;
pub use pieces::{
    add_source, add_twice, clear, exclude_ones, invert, keep_common_ones, make_absolute, negate,
    set_ones, store_status, subtract_source, subtract_twice, take_source,
};
