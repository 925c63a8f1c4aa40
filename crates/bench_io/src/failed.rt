//! A request that was refused.

/// A request to the outside that was refused. The count of faults of what refused it has risen.
#[derive(Clone, Copy, Debug, PartialEq, Eq)]
pub struct Failed;
