//! Lists of bytes, and the addresses of GROM beside an address.
#![tactic(auto)]

mod bytes;
mod neighbours;

pub use bytes::{holds_bytes, zeros};
pub use neighbours::{next_in_grom, previous_in_grom};
