//! What an instruction changes of the console's machine, all of it, and how it is written. The definitions are in
//! `specs/`.
#![tactic(auto)]

mod area;
mod latches;
mod laws;

pub use area::Area;
pub use latches::Latches;
pub use laws::{changes_give_memory, one_steps_report, steps_fronts_begin_reports};
