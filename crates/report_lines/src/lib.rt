//! The lines that reports are made of, how lines are written one by one, and the text of a source that is
//! refused. Nothing takes memory.
#![tactic(auto)]

mod faults;
mod line;
mod lines;
mod rows;

pub use faults::{asm_line, gpl_line, refusal_line};
pub use line::{Line, append, append_count, append_right, append_spaced, append_word, line_of};
pub use lines::{InLines, put_items, put_lines};
pub use rows::put_rows;
