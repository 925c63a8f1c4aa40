//! The instructions that use the stacks, run on the machine: CALL, RTN and RTNC, FETCH and PUSH. Each is built of
//! pieces: stretches of at most 16 instructions without a loop.
#![tactic(auto)]

mod call;
mod family;
mod fetch;
mod pieces;
mod push;
mod returns;

pub use family::run_stack;
pub use pieces::{
    find_next, keep_byte, keep_next, keep_place, keep_stacked_next, push_pointer, read_call_target,
    request_byte, request_stacked, seek_stacked, store_fetched, store_next, store_stacked,
    take_return,
};
