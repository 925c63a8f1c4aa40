//! The interpreter as it is built from its source: linked memory with the words that are shipped, and the machine that
//! this memory is loaded into. The definitions and the law are in `specs/`.
#![tactic(auto)]

mod laws;

pub use crate::laws::loaded_interpreters_boot;
