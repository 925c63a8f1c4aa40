//! A line as a listing needs it.

use crate::file_name::FileName;
use asm_core::TakenLine;

/// A line that the first checks accept, as a listing needs it.
#[derive(Drop)]
pub struct KeptLine {
    /// The file that it is in, or `None` for the source itself.
    pub file: Option<FileName>,
    /// The number of the line there, from 1.
    pub line: u32,
    /// Its place, and the names that it defines.
    pub taken: TakenLine,
    /// The line, without its line feed.
    pub text: Vec<u8>,
}
