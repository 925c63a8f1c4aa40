//! Files by name: where they are read from, and a source that copies files.
#![tactic(auto)]

mod assemble;
mod copied_lines;
mod copy_error;
mod copy_line;
mod copying;
mod directory;
mod error;
mod file_name;
mod keep_line;
mod kept_line;
mod listed;
mod memory;
mod named_file;
mod own_lines;
mod place;
mod run;
mod runs;
mod shelf;

pub use crate::assemble::copy_assemble;
pub use crate::copy_error::{CopyCause, CopyError};
pub use crate::directory::DirShelf;
pub use crate::error::{FileError, OpenError};
pub use crate::file_name::{FileName, same_file};
pub use crate::kept_line::KeptLine;
pub use crate::listed::{ListedEnding, ListedSource, copy_listed};
pub use crate::memory::MemShelf;
pub use crate::named_file::read_named;
pub use crate::shelf::Shelf;
