//! The console's memory map, as one memory that the processor reads and writes.

ghost use Rattle.std.specs.Prelude.{◌≡◌, ◌<◌, ◌≤◌, ℕ, ◌+◌, ◌-◌, ◌*◌, ◌/◌, ◌%◌, length, slice_index, slice_set, IfOk};
ghost use Rattle.std.specs.Prelude.{OnErr};
ghost use Rattle.tms_defs.specs.Words.{high, low, join, even};
ghost use Rattle.tms_defs.specs.Bytes.{HoldsBytes, HoldsZeros, word_in, with_word_in};
ghost use Rattle.tms_defs.specs.Accesses.{answer_of, written_by};
ghost use Rattle.console_defs.specs.Memory.{IsMemory, IsNewMemory, MayBePlaced, port_at, port_region, is_port_address};
ghost use Rattle.console_defs.specs.Memory.{region, port_read};
ghost use Rattle.console_defs.specs.Memory.{port_written, byte_read_in, byte_read, byte_written_in, byte_written};
ghost use Rattle.console_defs.specs.Memory.{word_read, word_written};
ghost use Rattle.console_defs.specs.Memory.{word_placed, cell_set};

use crate::expansion::Expansion;
use byteorder::{BigEndian, ByteOrder};
use grom_counter::Grom;
use memory_basics::{holds_bytes, zeros};
use std::alloc::{AllocError, Global};
use std::marker::Model;
use tms_defs::PortStop;
use vdp_ports::Vdp;

/// The bytes of the low expansion memory, at >2000.
const LOW_EXPANSION_SIZE: usize = 8_192;
/// The bytes of the high expansion memory, at >A000.
const HIGH_EXPANSION_SIZE: usize = 24_576;
/// The bytes of the console ROM, at >0000.
const ROM_SIZE: usize = 8_192;

/// The memory of the console with its eight ports (Editor/Assembler manual, on the memory of the computer).
#[derive(Drop)]
pub struct Bus {
    scratchpad: [u8; 256],
    low_expansion: Vec<u8>,
    high_expansion: Vec<u8>,
    rom: Vec<u8>,
    vdp: Vdp,
    grom: Grom,
}

impl Model for Bus {
    ghost use Rattle.std.specs.Prelude.{◌≡◌, length};
    ghost use Rattle.console_defs.specs.Memory.{Memory};

    ghost Value = { Memory };

    ghost view = { λ b. record {
      scratchpad = b.scratchpad;
      low_expansion = b.low_expansion.items;
      high_expansion = b.high_expansion.items;
      rom = b.rom.items;
      vdp = b.vdp;
      grom = b.grom;
    } };

    ghost invariant = { λ b. (length b.low_expansion.items ≡ 8192)
        × (length b.high_expansion.items ≡ 24576)
        × (length b.rom.items ≡ 8192) };
}

impl Bus {
    /// A memory of 0 everywhere over a video processor and GROMs.
    pub fn new(alloc: Global, vdp: Vdp, grom: Grom) -> Result<Bus, AllocError>
        ensures { IfOk result (λ bus. IsNewMemory bus vdp grom) }
    {
        Ok(Bus {
            scratchpad: zero_page(),
            low_expansion: zeros(alloc, LOW_EXPANSION_SIZE)?,
            high_expansion: zeros(alloc, HIGH_EXPANSION_SIZE)?,
            rom: zeros(alloc, ROM_SIZE)?,
            vdp,
            grom,
        })
    }

    /// Reads the word that holds an address: the lowest address bit is ignored (TMS9900 data manual, "Registers and
    /// memory"). Profile: a port stops it, with the port's address; nothing ever changes.
    #[inline]
    pub fn read_word(&mut self, at: u16) -> Result<u16, PortStop>
        ensures word { answer_of result ≡ word_read self.old at }
        ensures same { self.new ≡ self.old }
    {
        self.word_at(at)
    }

    /// The word that holds an address, as `read_word` gives it.
    #[inline]
    #[tactic(auto, using(console_defs::proofs::MemoryLaws::read_is_by_region))]
    pub fn word_at(&self, at: u16) -> Result<u16, PortStop>
        ensures word { answer_of result ≡ word_read self.now at }
    {
        let at = at / 2 * 2;
        if at >= 0x8000 && at < 0x8400 {
            Ok(word_in(&self.scratchpad, (at % 256) as usize))
        } else if at >= 0xA000 {
            Ok(word_in(&self.high_expansion, (at - 0xA000) as usize))
        } else if at < 0x2000 {
            Ok(word_in(&self.rom, at as usize))
        } else if at < 0x4000 {
            Ok(word_in(&self.low_expansion, (at - 0x2000) as usize))
        } else if is_port(at) {
            Err(PortStop(at))
        } else {
            Ok(0)
        }
    }

    /// The word that holds an address, as `word_at` gives it. It is for the words of instructions, which are in the
    /// expansion memory: its two parts are tested before all else, and first the one that is named. Which one that is
    /// has no effect but on the time.
    #[inline(always)]
    #[tactic(auto, using(console_defs::proofs::MemoryLaws::read_is_by_region))]
    pub fn code_at(&self, at: u16, first: Expansion) -> Result<u16, PortStop>
        ensures word { answer_of result ≡ word_read self.now at }
    {
        let even = at / 2 * 2;
        let is_low = even / 0x2000 == 1;
        if first == Expansion::Low && is_low {
            Ok(self.low_word(even))
        } else if even >= 0xA000 {
            Ok(word_in(&self.high_expansion, (even - 0xA000) as usize))
        } else if is_low {
            Ok(self.low_word(even))
        } else {
            self.word_at(at)
        }
    }

    /// The word at an even address of the low expansion memory.
    #[inline(always)]
    fn low_word(&self, at: u16) -> u16
        requires even { even at ≡ at }
        requires low { at / 8192 ≡ 1 }
        ensures { result ≡ word_in self.now.low_expansion (at - 8192) }
    {
        word_in(&self.low_expansion, (at % 0x2000) as usize)
    }

    /// Writes the word that holds an address: the lowest address bit is ignored (TMS9900 data manual, "Registers and
    /// memory"). A port stops it, with the port's address, and then nothing has changed. A write to the console ROM
    /// changes nothing.
    #[inline]
    #[tactic(auto, using(console_defs::proofs::MemoryLaws::write_is_by_region))]
    pub fn write_word(&mut self, at: u16, word: u16) -> Result<(), PortStop>
        ensures word { written_by result self.new ≡ word_written self.old at word }
        ensures stopped { OnErr result (self.new ≡ self.old) }
    {
        let at = at / 2 * 2;
        if at >= 0x8000 && at < 0x8400 {
            set_word(&mut self.scratchpad, (at % 256) as usize, word);
        } else if at >= 0xA000 {
            set_word(&mut self.high_expansion, (at - 0xA000) as usize, word);
        } else if at >= 0x2000 && at < 0x4000 {
            set_word(&mut self.low_expansion, (at - 0x2000) as usize, word);
        } else if is_port(at) {
            return Err(PortStop(at));
        }
        Ok(())
    }

    /// Reads the byte at an address; a port may change by it (Editor/Assembler manual, on the memory of the computer).
    /// Profile: a port for writing, and an address that leads nowhere, give 0.
    #[inline]
    pub fn read_byte(&mut self, at: u16) -> u8
        ensures { (result, self.new) ≡ byte_read self.old at }
    {
        if at >= 0x8000 && at < 0x8400 {
            self.scratchpad[(at % 256) as usize]
        } else if at >= 0xA000 {
            self.high_expansion[(at - 0xA000) as usize]
        } else if at < 0x2000 {
            self.rom[at as usize]
        } else if at < 0x4000 {
            self.low_expansion[(at - 0x2000) as usize]
        } else {
            self.read_port(at)
        }
    }

    /// Writes the byte at an address. A write to the console ROM changes nothing (Editor/Assembler manual, on the
    /// memory of the computer). Profile: no read comes before it, and a write to a port for reading,
    /// to the GROM's data port and to an address that leads nowhere changes nothing.
    #[inline]
    pub fn write_byte(&mut self, at: u16, byte: u8)
        ensures { self.new ≡ byte_written self.old at byte }
    {
        if at >= 0x8000 && at < 0x8400 {
            self.scratchpad[(at % 256) as usize] = byte;
        } else if at >= 0xA000 {
            self.high_expansion[(at - 0xA000) as usize] = byte;
        } else if at >= 0x2000 && at < 0x4000 {
            self.low_expansion[(at - 0x2000) as usize] = byte;
        } else {
            self.write_port(at, byte);
        }
    }

    /// Loads a word at an even address of the console ROM (below >2000) or of the expansion memory (>2000 to >3FFF,
    /// >A000 to >FFFF).
    pub fn place(&mut self, at: u16, word: u16)
        requires even { even at ≡ at }
        requires loadable { MayBePlaced at }
        ensures { self.new ≡ word_placed self.old at word }
    {
        match at {
            0x0000..=0x1FFF => set_word(&mut self.rom, at as usize, word),
            0x2000..=0x3FFF => set_word(&mut self.low_expansion, (at - 0x2000) as usize, word),
            _ => set_word(&mut self.high_expansion, (at - 0xA000) as usize, word),
        }
    }

    /// The byte of the scratchpad with a number, at >8300 plus the number.
    pub fn cell(&self, number: u8) -> u8
        ensures { result ≡ slice_index self.now.scratchpad number }
    {
        self.scratchpad[number as usize]
    }

    /// Sets the byte of the scratchpad with a number, at >8300 plus the number.
    pub fn set_cell(&mut self, number: u8, byte: u8)
        ensures { self.new ≡ cell_set self.old number byte }
    {
        self.scratchpad[number as usize] = byte;
    }

    /// The 256 bytes of the scratchpad, from >8300.
    pub fn pad(&self) -> &[u8]
        ensures pad { result.now ≡ self.now.scratchpad }
        ensures size { length result.now ≡ 256 }
    {
        &self.scratchpad
    }

    /// The 8,192 bytes of the low expansion memory, from >2000.
    pub fn low_expansion(&self) -> &[u8]
        ensures low { result.now ≡ self.now.low_expansion }
        ensures size { length result.now ≡ 8192 }
    {
        &self.low_expansion
    }

    /// The 24,576 bytes of the high expansion memory, from >A000.
    pub fn high_expansion(&self) -> &[u8]
        ensures high { result.now ≡ self.now.high_expansion }
        ensures size { length result.now ≡ 24576 }
    {
        &self.high_expansion
    }

    /// The video processor.
    pub fn vdp(&self) -> &Vdp
        ensures { result.now ≡ self.now.vdp }
    {
        &self.vdp
    }

    /// The GROMs.
    pub fn grom(&self) -> &Grom
        ensures { result.now ≡ self.now.grom }
    {
        &self.grom
    }

    /// Does nothing. Its contract says what holds of every `Bus`, for the proof of a caller.
    #[inline]
    pub fn holds_bounds(&self)
        ensures { IsMemory self.now }
    {
        holds_bytes(&self.scratchpad);
        holds_bytes(&self.low_expansion);
        holds_bytes(&self.high_expansion);
        holds_bytes(&self.rom);
        self.vdp.holds_bounds();
        self.grom.holds_bounds();
    }

    /// Reads the byte at an address among the ports, or 0 where no port stands.
    fn read_port(&mut self, at: u16) -> u8
        ensures { (result, self.new) ≡ byte_read_in (port_region (port_at at)) self.old }
    {
        match at {
            0x8800 => self.vdp.read_data(),
            0x8802 => self.vdp.read_status(),
            0x9800 => self.grom.read_data(),
            0x9802 => self.grom.read_address(),
            _ => 0,
        }
    }

    /// Writes the byte at an address among the ports.
    fn write_port(&mut self, at: u16, byte: u8)
        ensures { self.new ≡ byte_written_in (port_region (port_at at)) self.old byte }
    {
        match at {
            0x8C00 => self.vdp.write_data(byte),
            0x8C02 => self.vdp.write_address(byte),
            0x9C02 => self.grom.write_address(byte),
            _ => {}
        }
    }
}

/// One of the eight ports is at the address (Editor/Assembler manual, on VDP and GROM access).
/// Profile: each is at one address only, and none at an odd one.
#[inline]
pub fn is_port(at: u16) -> bool
    ensures { result ≡ is_port_address at }
{
    matches!(
        at,
        0x8800 | 0x8802 | 0x8C00 | 0x8C02 | 0x9800 | 0x9802 | 0x9C00 | 0x9C02
    )
}

/// The word at a place, its high byte first.
#[inline]
fn word_in(bytes: &[u8], at: usize) -> u16
    requires { at + 1 < length bytes.now }
    ensures { result ≡ word_in bytes.now at }
{
    BigEndian::read_u16(&bytes[at..])
}

/// Writes a word to a place, its high byte first.
#[inline]
fn set_word(bytes: &mut [u8], at: usize, word: u16)
    requires { at + 1 < length bytes.old }
    ensures { bytes.new ≡ with_word_in bytes.old at word }
{
    let mut pair = [0; 2];
    BigEndian::write_u16(&mut pair, word);
    bytes[at] = pair[0];
    bytes[at + 1] = pair[1];
}

/// The 256 bytes of a new scratchpad.
#[tactic(auto, using(tms_defs::proofs::ByteLaws::replicated_zeros))]
fn zero_page() -> [u8; 256]
    ensures { HoldsZeros 256 result }
{
    [0; 256]
}
