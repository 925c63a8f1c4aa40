//! Files by name, and the lines of a source with the lines of the files that it copies. The definitions are in
//! `specs/`.
#![tactic(auto)]

mod limits;

pub use limits::LARGEST_INPUT;
