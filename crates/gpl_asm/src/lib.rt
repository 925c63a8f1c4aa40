//! The assembler of GPL sources: the image that a source stands for.
#![tactic(auto)]

mod calls;
mod error;
mod finish;
mod keep;
mod lines;
mod pending;
mod place;
mod source;
mod take;
mod taken;

pub use crate::error::{GplError, refusal_at};
pub use crate::finish::{GplProgram, line_outcome};
pub use crate::lines::GplLines;
pub use crate::place::put;
pub use crate::source::gpl_assemble;
pub use crate::taken::TakenLine;
pub use gpl_source_defs::GplCause;
