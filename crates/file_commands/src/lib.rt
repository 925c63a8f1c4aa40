//! What `asm` and `link` make of files by name: reports that are not yet written.
#![tactic(auto)]

mod asm;
mod causes;
mod file_text;
mod link;
mod modules;
mod reading;

pub use crate::asm::asm_files;
pub use crate::causes::{command_error, file_tag_line, missing_line};
pub use crate::link::link_files;
