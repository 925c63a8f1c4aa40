//! The rows of the source's lines, part by part.

mod copy;
mod flow;
mod operations;
mod routines;
mod tables;

pub use copy::COPY_ROWS;
pub use flow::FLOW_ROWS;
pub use operations::OPERATION_ROWS;
pub use routines::ROUTINE_ROWS;
pub use tables::TABLE_ROWS;

/// The number of a line's location, how many words the line places, and these words with 0 after them.
pub type Row = (u16, u8, [u16; 3]);
