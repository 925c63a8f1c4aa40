//! MOVE, run on the machine: the length, the target and the source, each with its checks, and then the copy.
#![tactic(auto)]

mod copy;
mod copy_pieces;
mod family;
mod length;
mod pieces;
mod reason;
mod source;
mod target;

pub use copy::copy_bytes;
pub use copy_pieces::{
    begin_copy, copy_cell, copy_cell_to_video, copy_grom, copy_grom_to_video, copy_in_video,
    copy_video, count_byte, leave_copy, next_byte, set_source, set_target, store_byte,
};
pub use family::run_move;
pub use pieces::{
    check_registers, keep_length, keep_target, load_length, request_index, request_length,
    request_next, request_source, seek_source, turn_to_grom,
};
