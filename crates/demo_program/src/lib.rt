//! The GPL program of `demo`: its source, which is made from a number, and the summary of its run.
#![tactic(auto)]

mod block;
mod summary;
mod text;

pub use summary::{put_summary, summarize};
pub use text::demo_text;
