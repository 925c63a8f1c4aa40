//! How a turn of the interpreter ends.

use gpl_step_defs::Reason;

/// What the interpreter's machine code made of one step of GPL.
#[derive(Clone, Copy, Debug, PartialEq, Eq)]
pub enum Turn {
    /// The step was made.
    Stepped,
    /// The step stops for a reason, and the program goes no further.
    Stopped(Reason),
}
