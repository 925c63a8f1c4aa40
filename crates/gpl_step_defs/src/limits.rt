//! The screen, the video registers and MOVE, in numbers.

/// The bytes of the screen: the first of video memory.
pub const SCREEN_BYTES: u16 = 768;

/// The characters of a row of the screen.
pub const SCREEN_WIDTH: u8 = 32;

/// The registers of the video processor.
pub const VIDEO_REGISTERS: u8 = 8;

/// The register of the video processor that holds the border colour.
pub const BORDER_REGISTER: u8 = 7;

/// The bytes that MOVE copies at most.
pub const MOST_MOVED: u16 = 16_384;
