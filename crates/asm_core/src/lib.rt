//! The assembler: the module that a source stands for.
#![tactic(auto)]

mod calls;
mod contents;
mod define;
mod emit;
mod error;
mod finish;
mod finished;
mod first_pass;
mod keep;
mod laws;
mod lines;
mod pending;
mod references;
mod returned;
mod second_pass;
mod source;
mod take;
mod taken;

pub use crate::error::AsmError;
pub use crate::finished::Finished;
pub use crate::laws::modules_have_texts;
pub use crate::lines::AsmLines;
pub use crate::source::assemble;
pub use crate::taken::TakenLine;
pub use asm_defs::AsmCause;
