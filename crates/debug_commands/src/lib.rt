//! `ti_debug`: its commands, over an input, a shelf of files and two outputs.
#![tactic(auto)]

mod gcounts;
mod glist;
mod grun;
mod gsteps;
mod list;
mod processor_steps;
mod running;
mod shown;
mod streams;
mod words;

pub use crate::running::debug;
pub use crate::streams::{debug_over, debug_through};
pub use processor_steps::steps;
