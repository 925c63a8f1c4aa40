//! The rows of the interpreter: the instructions of GPL on one and two operands. A step up to its dispatch, the
//! operands, and the end of a row; what is between is one row's own. All is built of pieces: stretches of at most
//! 16 instructions without a loop.
#![tactic(auto)]

mod row;
mod step;
mod tail;

pub use row::{
    go_to_row, keep_first, keep_stored, keep_wide, load_first, load_second, load_wide,
    request_first, request_second, request_stored, request_wide, start_row,
};
pub use step::{begin_step, current_operation, dispatch, where_next};
pub use tail::{end_row, end_row_routine, finish_row, finish_row_routine, show, store_result};

// what a family speaks of
pub use gpl_forms as gpl;
pub use sim_operands as subroutines;
pub use sim_view::{Reason, Turn, instructions, labels, processor, register, run_piece};
