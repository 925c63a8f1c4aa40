//! What is found in a run.

/// How far a run whose items are watched has gone, and what ended it.
#[derive(Clone, Copy, Debug, PartialEq, Eq)]
pub enum Found {
    /// The first step at which an item holds.
    Hit {
        /// The number of the step, from 1.
        step: u32,
        /// The address of its instruction.
        from: u16,
        /// The number of the item, from 1: of several that hold, the first.
        item: u8,
        /// The lowest address of the range at which the step changed the byte, and the byte that is there now. `None`
        /// where the item is an address.
        change: Option<(u16, u8)>,
    },
    /// There is no such step.
    None,
}
