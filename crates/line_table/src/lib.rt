//! A row for each line of the interpreter's source, with its place and its words, and one for each of its names; and
//! the law that the source gives the words that are shipped. The rows are data, and no call takes memory.
#![tactic(auto)]

mod laws;
mod line_row;
mod names;
mod rows;
mod table;

pub use laws::source_gives_words;
pub use line_row::{LineRow, NameRow};
pub use table::{name_count, name_row, row, row_count};
