//! What was taken so far of a source with the files that it copies.

use crate::kept_line::KeptLine;
use crate::run::Run;
use asm_core::AsmLines;
use std::alloc::Global;

/// What was taken so far of a source with the files that it copies.
#[derive(Drop)]
pub(crate) struct Copying {
    pub(crate) alloc: Global,
    pub(crate) builder: AsmLines,
    // The places of the lines that the builder has taken, by runs of lines of one file.
    pub(crate) runs: Vec<Run>,
    // The lines themselves, where they are kept for a listing.
    pub(crate) kept: Option<Vec<KeptLine>>,
    // How many COPY lines were met.
    pub(crate) copies: u32,
}
