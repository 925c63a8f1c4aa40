//! What a machine looks like, line by line, to any sink, and the lines of a GPL program: the lines of its steps, of its
//! end and of its state. Nothing takes memory but [`Seen::new`] and [`AllChanges::new`].
#![tactic(auto)]

mod all_changes;
mod counts;
mod first_changes;
mod line;
mod parts;
mod program;
mod seen;
mod state;
mod step_line;
mod steps;
mod workspace;

pub use all_changes::AllChanges;
pub use counts::Counts;
pub use first_changes::FirstChanges;
pub use line::trace_line;
pub use parts::dump;
pub use program::{program_status, put_state, put_stop};
pub use seen::{Seen, changes};
pub use state::{state_line, stop_line};
pub use step_line::StepLine;
pub use steps::play;
