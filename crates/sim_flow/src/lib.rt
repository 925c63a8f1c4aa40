//! The instructions that go on elsewhere, run on the machine: B, BR, BS, CASE, and EXIT, which leaves the interpreter.
//! Each is built of pieces: stretches of at most 16 instructions without a loop.
#![tactic(auto)]

mod family;
mod pieces;

pub use family::run_flow;
pub use pieces::{
    find_branch, go_to_branch, leave, read_branch_target, read_target, request_table, test_branch,
};
