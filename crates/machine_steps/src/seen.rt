//! What was seen of a machine.

ghost use Rattle.std.specs.Prelude.{◌≡◌, IfOk};
ghost use Rattle.machine_change_defs.specs.Seen as spec;

use grom_counter::Grom;
use machine_change_defs::Latches;
use memory_basics::zeros;
use std::alloc::{AllocError, Global};
use std::marker::Model;
use step_changes::video_registers;
use tms_step::Machine;
use vdp_ports::Vdp;

/// The bytes of the low expansion memory.
const LOW_EXPANSION_SIZE: usize = 8_192;
/// The bytes of the high expansion memory.
const HIGH_EXPANSION_SIZE: usize = 24_576;
/// The bytes of the video memory.
const VIDEO_SIZE: usize = 16_384;

/// What was seen of a machine's memory: all that an instruction can change.
#[derive(Drop)]
pub struct Seen {
    pub(crate) scratchpad: [u8; 256],
    pub(crate) low_expansion: Vec<u8>,
    pub(crate) high_expansion: Vec<u8>,
    pub(crate) video: Vec<u8>,
    pub(crate) registers: [u8; 8],
    pub(crate) latches: Latches,
}

impl Model for Seen {
    ghost use Rattle.std.specs.Prelude.{◌≡◌, length};
    ghost use Rattle.machine_change_defs.specs.Seen.{SeenMemory};

    ghost Value = { SeenMemory };

    ghost view = { λ s. record {
      scratchpad = s.scratchpad;
      low_expansion = s.low_expansion.items;
      high_expansion = s.high_expansion.items;
      video = s.video.items;
      registers = s.registers;
      latches = s.latches;
    } };

    ghost invariant = { λ s. (length s.low_expansion.items ≡ 8192)
        × (length s.high_expansion.items ≡ 24576)
        × (length s.video.items ≡ 16384) };
}

impl Seen {
    /// Keeps what is seen of a machine.
    ///
    /// # Errors
    /// `AllocError` means out of memory.
    pub fn new(alloc: Global, machine: &Machine) -> Result<Seen, AllocError>
        ensures { IfOk result (λ seen. seen ≡ spec.seen_memory machine.now.cpu.memory) }
    {
        let bus = machine.bus();
        let mut scratchpad = [0; 256];
        scratchpad.copy_from_slice(bus.pad());
        let mut low_expansion = zeros(alloc, LOW_EXPANSION_SIZE)?;
        low_expansion.copy_from_slice(bus.low_expansion());
        let mut high_expansion = zeros(alloc, HIGH_EXPANSION_SIZE)?;
        high_expansion.copy_from_slice(bus.high_expansion());
        let mut video = zeros(alloc, VIDEO_SIZE)?;
        video.copy_from_slice(bus.vdp().memory());
        Ok(Seen {
            scratchpad,
            low_expansion,
            high_expansion,
            video,
            registers: video_registers(bus.vdp()),
            latches: latches_of(bus.vdp(), bus.grom()),
        })
    }
}

/// What the ports hold beside memory.
pub(crate) fn latches_of(vdp: &Vdp, grom: &Grom) -> Latches
    ensures { result ≡ record {
      video_address = vdp.now.address;
      video_fetched = vdp.now.fetched;
      video_held = vdp.now.held;
      grom_counter = grom.now.counter;
      grom_fetched = grom.now.fetched;
      grom_half_written = grom.now.half_written;
    } }
{
    Latches {
        video_address: vdp.address(),
        video_fetched: vdp.fetched(),
        video_held: vdp.held(),
        grom_counter: grom.counter(),
        grom_fetched: grom.fetched(),
        grom_half_written: !grom.is_idle(),
    }
}
