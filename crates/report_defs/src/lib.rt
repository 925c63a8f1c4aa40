//! What the program reports: its commands and statuses, fault lines and reports. The definitions are in `specs/`.
#![tactic(auto)]

mod command;
mod fault;
mod limits;
mod status;
mod summary;

pub use command::{COMMANDS, Command, CommandName};
pub use fault::Fault;
pub use limits::{MOST_BLOCKS, MOST_INSTRUCTIONS, MOST_STEPS};
pub use shelf_defs::LARGEST_INPUT;
pub use status::Status;
pub use summary::Summary;
