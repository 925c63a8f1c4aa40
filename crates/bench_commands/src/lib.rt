//! The commands of the program, over any input and outputs.
#![tactic(auto)]

mod commands;
mod input;
mod object_input;
mod prepared;
mod running;
mod steady;
mod trace;

pub use crate::commands::exec::start_input;
pub use crate::commands::program::{LoadedProgram, load_program};
pub use crate::commands::run::run;
pub use crate::commands::trace::start_trace;
pub use crate::running::{bench, run_command};
pub use crate::steady::bench_steady;
pub use crate::trace::Trace;
