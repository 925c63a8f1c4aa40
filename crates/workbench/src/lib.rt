//! The program: its commands over an input, a shelf of files and two outputs.
#![tactic(auto)]

mod asm;
mod command;
mod names;
mod over_files;
mod running;
mod streams;
mod usage;
mod watch;

pub use crate::running::bench_with;
pub use crate::streams::{bench_over, bench_through};
