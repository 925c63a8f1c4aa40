//! Lines that wait for the second pass.
//!
//! A line that is refused waits too, and so do the lines after it: which is refused first is known when all are placed
//! in their order.

use gpl_lines::Outcome;
use gpl_source_defs::{GplCause, Location};

/// A line that waits for the second pass: it has an outcome, or the second checks refuse it.
#[derive(Drop)]
pub(crate) struct Pending {
    /// The number of the line, from 1.
    pub(crate) number: u32,
    /// Its place.
    pub(crate) at: Location,
    /// What is left of it.
    pub(crate) rest: Rest,
}

/// What is left of a line.
#[derive(Drop)]
pub(crate) enum Rest {
    /// Its outcome, whatever names are still to come.
    Resolved(Outcome),
    /// Why it is refused, whatever names are still to come.
    Refused(GplCause),
    /// Its text, of which a value is still open.
    Unresolved(Vec<u8>),
}
