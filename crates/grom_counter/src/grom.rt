//! GROMs: an image of 65,536 bytes, and the ports that lead there.

ghost use Rattle.std.specs.Prelude.{◌≡◌, ◌<◌, ℕ, ◌+◌, ◌*◌, ◌/◌, ◌%◌, length, slice_index, IfOk};
ghost use Rattle.tms_defs.specs.Bytes.{HoldsBytes};
ghost use Rattle.console_defs.specs.Grom.{IsGrom, new_grom, is_grom_idle, grom_fetched_ahead, grom_address_written};
ghost use Rattle.console_defs.specs.Grom.{grom_address_read, grom_data_read};

use memory_basics::{holds_bytes, next_in_grom};
use std::alloc::{AllocError, Global};
use std::marker::Model;

/// The eight GROMs of the console, of 8 KiB of addresses each, with their common address counter.
#[derive(Drop)]
pub struct Grom {
    image: Vec<u8>,
    counter: u16,
    fetched: u8,
    half_written: bool,
}

impl Model for Grom {
    ghost use Rattle.std.specs.Prelude.{◌≡◌, length};
    ghost use Rattle.console_defs.specs.Grom.{GromState};

    ghost Value = { GromState };

    ghost view = { λ g. record {
      image = g.image.items;
      counter = g.counter;
      fetched = g.fetched;
      half_written = g.half_written;
    } };

    ghost invariant = { λ g. length g.image.items ≡ 65536 };
}

impl Grom {
    /// GROMs that hold a copy of the image, at address 0, with 0 fetched ahead, and idle.
    pub fn new(alloc: Global, image: &[u8]) -> Result<Grom, AllocError>
        requires { length image.now ≡ 65536 }
        ensures { IfOk result (λ grom. grom ≡ new_grom image.now) }
    {
        Ok(Grom {
            image: Vec::from_slice(alloc, image)?,
            counter: 0,
            fetched: 0,
            half_written: false,
        })
    }

    /// Writes a byte to the address port (GPL Programmer's Guide, on the GROM address counter). The first byte
    /// becomes the counter's high half. The second becomes its low half; then the byte there is fetched ahead.
    #[inline]
    pub fn write_address(&mut self, byte: u8)
        ensures { self.new ≡ grom_address_written self.old byte }
    {
        let [high, low] = self.counter.to_be_bytes();
        if self.half_written {
            self.counter = u16::from_be_bytes([high, byte]);
            self.half_written = false;
            self.fetch_ahead();
        } else {
            self.counter = u16::from_be_bytes([byte, low]);
            self.half_written = true;
        }
    }

    /// Reads a byte from the address port (GPL Programmer's Guide, on the GROM address counter): the counter's high
    /// half, over which its low half is then copied. Two reads give the counter, one past the byte to come.
    #[inline]
    pub fn read_address(&mut self) -> u8
        ensures { (result, self.new) ≡ grom_address_read self.old }
    {
        let [high, low] = self.counter.to_be_bytes();
        self.counter = u16::from_be_bytes([low, low]);
        self.half_written = false;
        high
    }

    /// Reads a byte from the data port (GPL Programmer's Guide, on the GROM address counter): the byte that was
    /// fetched ahead. The byte at the counter is then fetched, and the counter goes on in the same GROM.
    #[inline]
    pub fn read_data(&mut self) -> u8
        ensures { (result, self.new) ≡ grom_data_read self.old }
    {
        let byte = self.fetched;
        self.half_written = false;
        self.fetch_ahead();
        byte
    }

    /// The 65,536 bytes of the GROMs.
    pub fn image(&self) -> &[u8]
        ensures image { result.now ≡ self.now.image }
        ensures size { length result.now ≡ 65536 }
    {
        &self.image
    }

    /// The byte of the image at an address.
    pub fn byte_at(&self, at: u16) -> u8
        ensures { result ≡ slice_index self.now.image at }
    {
        self.image[at as usize]
    }

    /// The address counter, one past the byte to come.
    pub fn counter(&self) -> u16
        ensures { result ≡ self.now.counter }
    {
        self.counter
    }

    /// The byte that was fetched ahead, which the next read gives.
    pub fn fetched(&self) -> u8
        ensures { result ≡ self.now.fetched }
    {
        self.fetched
    }

    /// No half of an address was written.
    pub fn is_idle(&self) -> bool
        ensures { result ≡ is_grom_idle self.now }
    {
        !self.half_written
    }

    /// Does nothing. Its contract says what holds of every `Grom`, for the proof of a caller.
    #[inline]
    pub fn holds_bounds(&self)
        ensures { IsGrom self.now }
    {
        let _counter = self.counter;
        let _fetched = self.fetched;
        holds_bytes(&self.image);
    }

    /// Fetches the byte at the counter ahead; the counter goes on in the same GROM.
    #[inline]
    fn fetch_ahead(&mut self)
        ensures { self.new ≡ grom_fetched_ahead self.old }
    {
        self.fetched = self.image[self.counter as usize];
        self.counter = next_in_grom(self.counter);
    }
}
