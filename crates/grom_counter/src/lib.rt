//! The GROMs of the console: their bytes and the address counter that they share.
#![tactic(auto)]

mod grom;

pub use grom::Grom;
pub use memory_basics::next_in_grom;
