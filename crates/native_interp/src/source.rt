//! The interpreter's source, line by line: its assembler source is the lines of the five
//! constants, one after the other.
//!
//! Each line stands without its line feed. The first statement is AORG >2000, the only origin, and the last line is END
//! with GBOOT. No line has more than 64 characters or three words, an expression has one operator at most, and EQU
//! names numbers alone. There is no REF, DEF, RORG, DORG, BSS, BES, EVEN, BYTE or TEXT.
//!
//! The lines are in five constants, since the check of a function that names a constant takes 3 to 4 MiB for each of
//! its lines. A line that is changed to another meaning is not refused here, where the law is about the form of lines,
//! but in `line_table`.

mod copy;
mod flow;
mod operations;
mod routines;
mod tables;

pub use copy::COPY_LINES;
pub use flow::FLOW_LINES;
pub use operations::OPERATION_LINES;
pub use routines::ROUTINE_LINES;
pub use tables::TABLE_LINES;
