//! What all definitions share: counts that are kept in 64 bits, comparisons and sums of lists of bytes, and the
//! addresses of GROM, of which each GROM has 8 KiB. The definitions are in `specs/`.
#![tactic(auto)]

mod size;

pub use size::GROM_SIZE;
