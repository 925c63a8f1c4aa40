//! What is watched of a GPL program, and the first step of a run that changes it. The definitions are in `specs/`.
#![tactic(auto)]

mod found;
mod item;
mod laws;

pub use found::Found;
pub use item::Item;
pub use laws::{hits_are_first, ranges_hold_by_their_bytes};
