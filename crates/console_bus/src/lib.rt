//! The memory of the console: scratchpad, expansion memory, ROM, and the ports of the video processor and the GROMs.
#![tactic(auto)]

mod bus;
mod expansion;

pub use bus::{Bus, is_port};
pub use expansion::Expansion;
pub use tms_defs::PortStop;
