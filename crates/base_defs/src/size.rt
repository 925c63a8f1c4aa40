//! How large a GROM is.

/// The addresses of one GROM, 8 KiB: they begin at a multiple of this. GPL Programmer's Guide, on the GROM address
/// counter.
pub const GROM_SIZE: u16 = 0x2000;
