//! The listing of linked memory, and the fault lines of object text and of linking. Nothing here takes memory.
#![tactic(auto)]

mod faults;
mod listing;
mod names;
mod rows;

pub use faults::{link_line, tag_line};
pub use listing::put_memory;
