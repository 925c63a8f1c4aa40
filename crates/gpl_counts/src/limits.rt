//! How many steps `ti_debug` makes.

/// The most steps of GPL that `grun`, `gsteps` and `gcounts` make.
pub const MOST_SHOWN_STEPS: u32 = 10_000_000;
