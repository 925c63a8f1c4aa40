//! What a builder ends with.

use crate::error::AsmError;
use asm_text::Symbols;
use object_tags::Module;

/// What a builder ends with.
#[derive(Drop)]
pub struct Finished {
    /// The module of the lines, or the first line that the second checks refuse.
    pub module: Result<Module, AsmError>,
    /// What each name of the lines stands for, and those that stand for something from the start.
    pub names: Symbols,
}
