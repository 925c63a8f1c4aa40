//! Raw bytes in memory, listed as assembler source.

ghost use Rattle.std.specs.Prelude.{◌≡◌, ◌+◌, ◌≤◌, vec_len};
ghost use Rattle.bench_io.specs.Written.{Written};
ghost use Rattle.word_listings.specs.Listing as spec;

use crate::listing_lines::{origin_line, put_instructions, put_odd_byte};
use bench_io::{Failed, Sink, put_chunk};

/// Raw bytes that are in memory from an address on, and end at >FFFF or before.
#[derive(Drop)]
pub struct Listing {
    /// Where the first byte stands.
    pub at: u16,
    /// The bytes.
    pub bytes: Vec<u8>,
    ghost within: { at + vec_len bytes ≤ 65536 },
}

impl Listing {
    /// Writes the listing, line by line. No memory is taken.
    pub(crate) fn write<O: Sink>(&self, out: &mut O) -> Result<(), Failed>
        ensures { Written result (O.state out.old) (O.state out.new)
            (spec.memory_listing self.now.at self.now.bytes.items) }
    {
        let bytes = self.bytes.as_slice();
        put_chunk(out, origin_line(self.at).as_slice())?;
        put_instructions(self.at, bytes, out)?;
        put_odd_byte(bytes, out)?;
        put_chunk(out, b"       END\n")
    }
}
