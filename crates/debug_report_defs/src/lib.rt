//! What `ti_debug` reports: its commands, and their reports. The definitions are in `specs/`.
#![tactic(auto)]

mod command;
mod laws;

pub use command::{COMMANDS, DebugCommand, DebugName};
pub use laws::{
    debug_fronts_begin_reports, grun_reports_as_run, lines_give_states, machine_lines_give_states,
    one_debug_report, siblings_report_alike,
};
