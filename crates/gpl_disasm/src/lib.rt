//! The listing of GROM as a GPL source. Nothing here takes memory.
#![tactic(auto)]

mod laws;
mod line;
mod listing;
mod operands;
mod text;

pub use laws::{listings_are_short, listings_come_back};
pub use line::list_line;
pub use listing::disassemble;
pub use text::{instr_text, push_standing};
