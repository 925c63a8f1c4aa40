//! The first step of a GPL program that changes a watched place, or that leads to a watched address.
#![tactic(auto)]

mod range;
mod run;
mod watch;
mod watched;

pub use gpl_defs::Space;
pub use range::is_item;
pub use watch::Watch;
pub use watch_defs::{Found, Item};
