//! A run of the machine, each of its instructions with a line of all that it changed. Nothing takes memory but
//! [`Seen::new`].
#![tactic(auto)]

mod area;
mod changes;
mod expansion;
mod front;
mod latches;
mod reach;
mod run;
mod seen;
mod workspace;

pub use expansion::put_expansion;
pub use run::show_run;
pub use seen::Seen;
