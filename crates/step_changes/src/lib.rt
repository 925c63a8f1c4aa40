//! All changes between two lists of bytes, appended to a line, and the registers of a video processor as such a list.
//! Nothing takes memory but [`LongLine::new`].
#![tactic(auto)]

mod line;
mod registers;
mod scan;
mod text;

pub use line::{LONGEST, LongLine, append_part};
pub use registers::video_registers;
pub use scan::{next_difference, stretch};
pub use text::append_repeated;
