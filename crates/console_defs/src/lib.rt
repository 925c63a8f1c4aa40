//! The definitions of the console: video processor, GROM, memory map, the machine and its runs.
#![tactic(auto)]

mod run_end;

pub use run_end::RunEnd;
