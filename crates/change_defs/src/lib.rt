//! What a step changes, all of it: the changes between two lists of bytes, what a list becomes by them, and how they
//! are written. The definitions are in `specs/`.
#![tactic(auto)]

mod laws;
mod part;

pub use laws::{changes_lead, run_changes_lead};
pub use part::Part;
