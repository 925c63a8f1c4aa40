//! The cells of the scratchpad that GPL sees, by their offsets from >8300.

/// How many cells GPL sees. The interpreter keeps its own words in those after them.
pub const VISIBLE_CELLS: u8 = 0xC2;

/// The pointer of the data stack, on which PUSH puts values: the cell that holds the offset of its last byte.
pub const VALUE_STACK: u8 = 0x72;

/// The pointer of the stack of return addresses: the cell that holds the offset of its last word.
pub const RETURN_STACK: u8 = 0x73;

/// The random number.
pub const RANDOM: u8 = 0x78;

/// The status: H, GT, COND, CARRY and OVF, from the highest bit on.
pub const STATUS: u8 = 0x7C;

/// The character that goes to the screen when it is stored.
pub const CHARACTER: u8 = 0x7D;

/// The row of the screen that it goes to.
pub const ROW: u8 = 0x7E;

/// The column of the screen that it goes to.
pub const COLUMN: u8 = 0x7F;

/// The word that the next random number is made from.
pub const SEED: u8 = 0xC0;
