//! That the bytes of the rows of a GPL listing are in each state of a run, that a step that begins at the row of an
//! instruction shows what its line is assembled to, that the listing of an assembler source has a row for each line and
//! each name, and what `trace 2` reports of one source. The laws are in `proofs/`.
#![tactic(auto)]

ghost use Rattle.row_laws.specs.OneTrace.{OneSourceIsTraced};

/// The report of `trace 2` on a source of three lines is two lines of steps, the line of the last state, and a dump.
#[tactic(auto, using(crate::proofs::ThreeLines::one_source_is_traced))]
pub fn one_source_is_traced()
    ensures { OneSourceIsTraced }
{}
