//! The lines of a listing as lines of a source: their fields, their operands and the numbers in them. Laws alone, which
//! are in `proofs/`.
#![tactic(auto)]
