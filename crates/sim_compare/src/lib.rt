//! The comparisons of GPL and the tests of its status, run on the machine: CH, CHE, CGT, CGE, CEQ, CLOG, CZ, H, GT,
//! CARRY and OVF. Each is built of pieces: stretches of at most 16 instructions without a loop.
#![tactic(auto)]

mod condition;
mod family;
mod pieces;

pub use condition::end_comparison;
pub use family::run_compare;
pub use pieces::{
    clear_condition, compare_equal, compare_greater, compare_greater_or_equal, compare_higher,
    compare_higher_or_equal, compare_ones, compare_with_zero, set_condition, test_carry,
    test_greater, test_higher, test_overflow,
};
