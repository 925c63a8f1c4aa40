//! What the ports hold beside memory.

/// What the video processor and the GROMs hold beside their memory and registers (TMS9918A data manual, "CPU
/// interface"; GPL Programmer's Guide, on the GROM ports).
#[derive(Clone, Copy, PartialEq, Eq, Debug)]
pub struct Latches {
    /// The address of the video memory at which the next byte is read or written.
    pub video_address: u16,
    /// The byte of the video memory that was fetched ahead.
    pub video_fetched: u8,
    /// The first byte of an address pair whose second byte is still to come.
    pub video_held: Option<u8>,
    /// The address counter of the GROMs.
    pub grom_counter: u16,
    /// The byte of the GROMs that was fetched ahead.
    pub grom_fetched: u8,
    /// One half of an address of the GROMs was written, and the other is to come.
    pub grom_half_written: bool,
}
