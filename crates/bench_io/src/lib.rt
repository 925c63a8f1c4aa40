//! The outside of the workbench: where bytes come from and where they go, with counted faults.
#![tactic(auto)]

mod failed;
mod memory;
mod sink;
mod source;
mod std_io;
mod steady;
mod whole;
mod written;

pub use failed::Failed;
pub use memory::{MemSink, MemSource, copy_front};
pub use sink::Sink;
pub use source::Source;
pub use std_io::{StdSink, StdSource};
pub use steady::{SteadySink, SteadySource};
pub use whole::{ReadError, read_all};
pub use written::put_chunk;
