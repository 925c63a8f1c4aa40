//! What `demo` reports of its program.

use gpl_step_defs::Reason;

/// The summary of a GPL program that was made from a number and run.
#[derive(Clone, Copy, Debug, PartialEq, Eq)]
pub struct Summary {
    /// The number that the program was made from.
    pub number: u32,
    /// How many bytes the image has.
    pub image: u64,
    /// How many steps were done.
    pub steps: u32,
    /// The sum of the visible cells after these steps.
    pub pad: u64,
    /// The sum of the video memory's bytes after these steps.
    pub vdp: u64,
    /// Why the program ended, or `None` where it has made the most steps.
    pub ended: Option<Reason>,
    /// How many instructions the machine has executed.
    pub count: u64,
}
