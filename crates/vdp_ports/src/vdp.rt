//! A video processor: its memory, its registers, and the ports that lead there.

ghost use Rattle.std.specs.Prelude.{◌≡◌, ◌<◌, ℕ, ◌+◌, ◌*◌, ◌/◌, ◌%◌, length, slice_index, slice_set, IfOk, IfSome};
ghost use Rattle.tms_defs.specs.Bytes.{HoldsZeros};
ghost use Rattle.console_defs.specs.Vdp.{IsVdp, IsNewVdp, is_vdp_idle, next_in_vdp, vdp_fetched_ahead, pair_kind};
ghost use Rattle.console_defs.specs.Vdp.{pair_address, pair_done};
ghost use Rattle.console_defs.specs.Vdp.{vdp_address_written, vdp_data_written, vdp_data_read, vdp_status_read};

use memory_basics::{holds_bytes, zeros};
use std::alloc::{AllocError, Global};
use std::marker::Model;

/// The bytes of the video processor's memory.
const MEMORY_SIZE: usize = 16_384;

/// A TMS9918A video processor as the processor sees it: 16,384 bytes of memory, eight registers that can only be
/// written, and four ports. It shows no picture.
#[derive(Drop)]
pub struct Vdp {
    memory: Vec<u8>,
    registers: [u8; 8],
    address: u16,
    fetched: u8,
    held: Option<u8>,
}

impl Model for Vdp {
    ghost use Rattle.std.specs.Prelude.{◌≡◌, ◌<◌, length};
    ghost use Rattle.console_defs.specs.Vdp.{VdpState};

    ghost Value = { VdpState };

    ghost view = { λ v. record {
      memory = v.memory.items;
      registers = v.registers;
      address = v.address;
      fetched = v.fetched;
      held = v.held;
    } };

    ghost invariant = { λ v. (length v.memory.items ≡ 16384) × (v.address < 16384) };
}

impl Vdp {
    /// A video processor whose memory and registers are 0, at address 0, with 0 fetched ahead, and idle.
    pub fn new(alloc: Global) -> Result<Vdp, AllocError>
        ensures { IfOk result IsNewVdp }
    {
        Ok(Vdp {
            memory: zeros(alloc, MEMORY_SIZE)?,
            registers: [0; 8],
            address: 0,
            fetched: 0,
            held: None,
        })
    }

    /// Writes a byte to the address port (TMS9918A data manual, "CPU write to VRAM", "CPU read from VRAM" and
    /// "CPU write to VDP register"). The first byte of a pair is held. The second ends the pair: by its top bits the
    /// pair sets an address to read from, sets an address to write to, or writes a register.
    pub fn write_address(&mut self, byte: u8)
        ensures { self.new ≡ vdp_address_written self.old byte }
    {
        match self.held {
            None => self.held = Some(byte),
            Some(first) => self.end_pair(first, byte),
        }
    }

    /// Writes a byte to the data port (TMS9918A data manual, "CPU write to VRAM"): it is stored at the address,
    /// which counts up and wraps at 16,384.
    #[inline]
    pub fn write_data(&mut self, byte: u8)
        ensures { self.new ≡ vdp_data_written self.old byte }
    {
        self.memory[self.address as usize] = byte;
        self.address = next_address(self.address);
        self.fetched = byte;
        self.held = None;
    }

    /// Reads a byte from the data port (TMS9918A data manual, "CPU read from VRAM"): the byte that was fetched
    /// ahead. The byte at the address is then fetched, and the address counts up and wraps at 16,384.
    #[inline]
    pub fn read_data(&mut self) -> u8
        ensures { (result, self.new) ≡ vdp_data_read self.old }
    {
        let byte = self.fetched;
        self.held = None;
        self.fetch_ahead();
        byte
    }

    /// Reads the status port (TMS9918A data manual, "CPU read from VDP status register"). The status is always 0
    /// here; the read makes the address pair idle.
    #[inline]
    pub fn read_status(&mut self) -> u8
        ensures { (result, self.new) ≡ vdp_status_read self.old }
    {
        self.held = None;
        0
    }

    /// The byte of the memory at an address.
    pub fn byte_at(&self, at: u16) -> u8
        requires { at < 16384 }
        ensures { result ≡ slice_index self.now.memory at }
    {
        self.memory[at as usize]
    }

    /// The 16,384 bytes of the memory.
    pub fn memory(&self) -> &[u8]
        ensures memory { result.now ≡ self.now.memory }
        ensures size { length result.now ≡ 16384 }
    {
        &self.memory
    }

    /// The register with a number from 0 to 7.
    pub fn register(&self, number: u8) -> u8
        requires { number < 8 }
        ensures { result ≡ slice_index self.now.registers number }
    {
        self.registers[number as usize]
    }

    /// The address that the next data access uses, below 16,384. A read gives the byte that was fetched before it.
    pub fn address(&self) -> u16
        ensures address { result ≡ self.now.address }
        ensures limit { result < 16384 }
    {
        self.address
    }

    /// The byte that was fetched ahead, which the next read gives.
    pub fn fetched(&self) -> u8
        ensures { result ≡ self.now.fetched }
    {
        self.fetched
    }

    /// The first byte of an address pair whose second byte is still to come.
    pub fn held(&self) -> Option<u8>
        ensures { result ≡ self.now.held }
    {
        self.held
    }

    /// No byte of an address pair is held.
    pub fn is_idle(&self) -> bool
        ensures { result ≡ is_vdp_idle self.now }
    {
        self.held.is_none()
    }

    /// Does nothing. Its contract says what holds of every video processor, for the proof of a caller.
    #[inline]
    pub fn holds_bounds(&self)
        ensures { IsVdp self.now }
    {
        let _fetched = self.fetched;
        holds_bytes(&self.memory);
        holds_bytes(&self.registers);
        holds_byte(self.held);
    }

    /// The second byte of an address pair.
    fn end_pair(&mut self, first: u8, second: u8)
        ensures { self.new ≡ pair_done (pair_kind second) self.old first second }
    {
        self.held = None;
        match second / 64 {
            0 => self.set_read_address(pair_address(first, second)),
            1 => self.address = pair_address(first, second),
            2 => self.registers[(second % 8) as usize] = first,
            _ => {}
        }
    }

    /// Sets an address to read from: the byte there is fetched ahead, and the address counts up.
    fn set_read_address(&mut self, address: u16)
        requires { address < 16384 }
        ensures { self.new ≡ vdp_fetched_ahead (record self.old { address = address }) }
    {
        self.address = address;
        self.fetch_ahead();
    }

    /// Fetches the byte at the address ahead; the address counts up.
    #[inline]
    fn fetch_ahead(&mut self)
        ensures { self.new ≡ vdp_fetched_ahead self.old }
    {
        self.fetched = self.memory[self.address as usize];
        self.address = next_address(self.address);
    }
}

/// The address of a pair: the first byte is its low half, and the low six bits of the second are its high half.
#[inline]
fn pair_address(first: u8, second: u8) -> u16
    ensures address { result ≡ pair_address first second }
    ensures limit { result < 16384 }
{
    u16::from_be_bytes([second % 64, first])
}

/// The address after an address; it wraps at 16,384.
#[inline]
fn next_address(address: u16) -> u16
    requires { address < 16384 }
    ensures next { result ≡ next_in_vdp address }
    ensures limit { result < 16384 }
{
    (address + 1) % 16_384
}

/// Does nothing. An optional `u8` is a byte.
#[inline]
fn holds_byte(held: Option<u8>)
    ensures { IfSome held (λ byte. byte < 256) }
{
    let _is_held = held.is_some();
}
