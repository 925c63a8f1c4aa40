//! Cases of the interpreter's words, worked out by hand: their table, and runs of them on a machine piece by piece. Runs
//! of whole programs are in `tests/rows`. The crate holds tests alone, so that the crates below it are proved once.
#![tactic(auto)]

#[cfg(test)]
mod machines;
#[cfg(test)]
mod pieces;
#[cfg(test)]
mod subroutines;
#[cfg(test)]
mod table;
