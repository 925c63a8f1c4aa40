//! The video processor of the console, as far as the processor's four ports reach it.
#![tactic(auto)]

mod vdp;

pub use vdp::Vdp;
