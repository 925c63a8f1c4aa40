//! What a command answers, a report or why there is none, made and not yet written; and how it is written. The lines of
//! a trace are written before, each once its step is made.
#![tactic(auto)]

mod command_error;
mod execution;
mod faults;
mod hit;
mod listing;
mod listing_lines;
mod outcome;
mod report;
mod watched;

pub use crate::command_error::{CommandError, end_with_line};
pub use crate::execution::{end_status, put_execution};
pub use crate::listing::Listing;
pub use crate::outcome::finish;
pub use crate::report::Report;
pub use crate::watched::Watched;
