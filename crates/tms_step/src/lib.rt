//! The processor: one step, and runs of steps.
#![tactic(auto)]

mod bare;
mod context_switch;
mod cpu;
mod imm;
mod jump;
mod machine;
mod one;
mod operand;
mod reg;
mod result;
mod run;
mod shift;
mod status;
mod step;
mod steps;
mod stored;
mod two;
mod writes;

pub use console_bus::Expansion;
pub use console_defs::RunEnd;
pub use machine::Machine;
pub use steps::Steps;
pub use tms_defs::StepEnd;
