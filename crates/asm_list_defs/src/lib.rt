//! The listing of an assembler source with the files that it copies: its lines with their places and what they place,
//! and its names. The definitions are in `specs/`.
#![tactic(auto)]

mod laws;

pub use crate::laws::listings_show_modules;
