//! What the lines of an assembler source place: the bytes and words of its two parts.
#![tactic(auto)]

mod image;
mod memory;
mod placed_words;

pub use crate::image::{Image, spot_at};
pub use crate::memory::Table;
pub use crate::placed_words::pieces;
