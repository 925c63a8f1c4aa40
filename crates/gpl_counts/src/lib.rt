//! How many instructions of the processor the steps of a GPL program take: the lines that show it, the report, and its
//! laws. The definitions are in `specs/`.
#![tactic(auto)]

mod laws;
mod limits;

pub use laws::{counts_are_bounded, counts_are_instructions, one_report_of_counts};
pub use limits::MOST_SHOWN_STEPS;
