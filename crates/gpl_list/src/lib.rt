//! The listing of a GPL source: each line with its address and its bytes, and the names.
#![tactic(auto)]

mod listing;
mod read;
mod rows;
mod second_pass;
mod text;
mod write;

pub use crate::listing::{GplListing, Refused, list_source};
