//! The image of a GROM, which grows byte by byte.

ghost use Rattle.std.specs.Prelude.{◌≡◌, ℕ, ◌+◌, ◌<◌, ◌≤◌, ◌↔◌, ◌++◌, Bool, false, true, EachIndex, IfOk, IsTrue};
ghost use Rattle.std.specs.Prelude.{IsFalse, length, take, drop, replicate, slice_index, slice_index_or};
ghost use Rattle.std.specs.FinMap.{empty, insert, contains_key};
ghost use Rattle.gpl_defs.specs.Image.{byte_at, low_of, high_of, placed, written_bytes};

use memory_basics::zeros;
use std::alloc::{AllocError, Global};
use std::marker::Model;

/// The addresses of all GROMs, from 0 to 65,535.
const SIZE: usize = 65536;

/// The bytes of a GROM image, and which of its addresses were written.
///
/// Contracts see it as the map from each written address to its byte.
#[derive(Drop)]
pub struct GromImage {
    /// The byte at each address, 0 where none was written.
    bytes: Vec<u8>,
    /// Whether each address was written.
    marks: Vec<bool>,
    low: u32,
    high: u32,
}

impl Model for GromImage {
    ghost use Rattle.std.specs.FinMap.{FinMap, code};
    ghost use Rattle.std.specs.Ordering.{nat_cmp};
    ghost use Rattle.std.specs.Prelude.{ℕ};
    ghost use Rattle.std.specs.Coded.{coded_ℕ};
    ghost use Rattle.gpl_forms.specs.Tables.{image_of, IsImage};

    ghost Value = { FinMap nat_cmp ℕ };

    ghost coded = { code coded_ℕ coded_ℕ };

    ghost view = { λ image. image_of image.bytes.items image.marks.items };

    ghost invariant = { λ image. IsImage image.bytes.items image.marks.items image.low image.high };
}

impl GromImage {
    /// An image in which nothing is written.
    pub fn new(alloc: Global) -> Result<GromImage, AllocError>
        ensures { IfOk result (λ image. image ≡ empty) }
    {
        Ok(GromImage {
            bytes: zeros(alloc, SIZE)?,
            marks: no_marks(alloc, SIZE)?,
            low: 0,
            high: 0,
        })
    }

    /// Writes `byte` at the address `at`, over what was written there before.
    pub fn put(&mut self, at: u16, byte: u8)
        ensures { self.new ≡ insert self.old at byte }
    {
        let place = usize::from(at);
        let address = u32::from(at);
        self.bytes[place] = byte;
        self.marks[place] = true;
        self.low = if self.high == 0 {
            address
        } else {
            self.low.min(address)
        };
        self.high = self.high.max(address + 1);
    }

    /// Writes `bytes` one after the other, the first at the address `at`, over what was written there before.
    pub fn put_all(&mut self, at: u16, bytes: &[u8])
        requires { at + length bytes.now ≤ 65536 }
        ensures { self.new ≡ placed self.old at bytes.now }
    {
        if bytes.is_empty() {
            return;
        }
        let address = u32::from(at);
        let place = usize::from(at);
        let end = place + bytes.len();
        write_at(&mut self.bytes, place, bytes);
        mark_at(&mut self.marks, place, bytes.len());
        self.low = if self.high == 0 {
            address
        } else {
            self.low.min(address)
        };
        self.high = self.high.max(end as u32);
    }

    /// The 65,536 bytes, each at its address, 0 where none was written.
    pub fn bytes(&self) -> &[u8]
        ensures size { length result.now ≡ 65536 }
        ensures each { EachIndex result.now (λ at. slice_index result.now at ≡ byte_at self.now at) }
    {
        &self.bytes
    }

    /// Whether a byte was written at the address `at`.
    pub fn is_written(&self, at: u16) -> bool
        ensures { result ≡ contains_key self.now at }
    {
        self.marks[usize::from(at)]
    }

    /// The lowest written address, 0 where nothing is written.
    pub fn low(&self) -> u32
        ensures value { result ≡ low_of self.now }
        ensures below { result ≤ high_of self.now }
        ensures fits { result < 65536 }
    {
        self.low
    }

    /// One past the highest written address, at most 65,536, and 0 where nothing is written.
    pub fn high(&self) -> u32
        ensures value { result ≡ high_of self.now }
        ensures within { result ≤ 65536 }
    {
        self.high
    }

    /// The bytes from the lowest to the highest written address.
    pub fn written(&self) -> &[u8]
        ensures { result.now ≡ written_bytes self.now }
    {
        &self.bytes[self.low as usize..self.high as usize]
    }
}

/// Puts `bytes` over those from a place on.
fn write_at(to: &mut [u8], place: usize, bytes: &[u8])
    requires { place + length bytes.now ≤ length to.old }
    ensures { to.new ≡ take place to.old ++ bytes.now ++ drop (place + length bytes.now) to.old }
{
    to[place..place + bytes.len()].copy_from_slice(bytes);
}

/// Marks as many places as `count` says from one on.
fn mark_at(marks: &mut [bool], place: usize, count: usize)
    requires { place + count ≤ length marks.old }
    ensures { marks.new ≡ take place marks.old ++ replicate count true ++ drop (place + count) marks.old }
{
    marks[place..place + count].fill(true);
}

/// `count` places that are not marked.
fn no_marks(alloc: Global, count: usize) -> Result<Vec<bool>, AllocError>
    ensures size { IfOk result (λ marks. length marks.items ≡ count) }
    ensures each { IfOk result (λ marks. EachIndex marks.items (λ k. IsFalse (slice_index_or marks.items k false))) }
{
    vec![in alloc; false; count]
}
