//! The listing of an assembler source with the files that it copies: each line with its place and what it places, and
//! the names.
#![tactic(auto)]

mod lines;
mod listing;
mod names;
mod rows;
mod shown;
mod text;

pub use crate::listing::{AsmListing, list_source};
