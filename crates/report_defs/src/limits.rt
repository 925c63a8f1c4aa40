//! How much the programs read and execute.

/// The most instructions that `exec` and `steps` execute.
pub const MOST_INSTRUCTIONS: u32 = 10_000_000;

/// The most steps that the interpreter makes for a command.
pub const MOST_STEPS: u32 = 100_000;

/// The most blocks of the program that `demo` makes.
pub const MOST_BLOCKS: u32 = 500;
