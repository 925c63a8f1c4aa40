//! Linked memory is loaded into a new machine.

ghost use Rattle.std.specs.Prelude.{◌≡◌, length, IfOk};
ghost use Rattle.std.specs.FinMap.{entries};
ghost use Rattle.console_defs.specs.Vdp.{IsNewVdp};
ghost use Rattle.console_defs.specs.Grom.{new_grom};
ghost use Rattle.load_defs.specs.Loaded.{IsLoaded, IsLoadedMachine, with_words, with_first_word};
ghost use Rattle.link_loader.specs.View.{model_of_linked};

use console_bus::Bus;
use grom_counter::Grom;
use link_loader::Linked;
use std::alloc::{AllocError, Global};
use tms_step::Machine;
use vdp_ports::Vdp;

/// A new machine whose memory holds the linked words at their addresses and the word `first` at >83E0, and is 0
/// elsewhere. Its GROMs hold a copy of the 65,536 bytes `grom`. The lowest bits of `wp` and `pc` are cleared.
pub fn load_machine(
    alloc: Global,
    linked: &Linked,
    grom: &[u8],
    wp: u16,
    pc: u16,
    first: u16,
) -> Result<Machine, AllocError>
    requires { length grom.now ≡ 65536 }
    ensures { IfOk result (λ machine. IsLoadedMachine (model_of_linked linked.now) grom.now first wp pc machine) }
{
    let bus = load_memory(alloc, linked, grom, first)?;
    Ok(Machine::new(bus, wp, pc))
}

/// A memory that holds the linked words and one more.
fn load_memory(alloc: Global, linked: &Linked, grom: &[u8], first: u16) -> Result<Bus, AllocError>
    requires { length grom.now ≡ 65536 }
    ensures { IfOk result (IsLoaded (model_of_linked linked.now) grom.now first) }
{
    let vdp = Vdp::new(alloc)?;
    let grom = Grom::new(alloc, grom)?;
    let mut bus = Bus::new(alloc, vdp, grom)?;
    set_first_word(&mut bus, first);
    place_words(&mut bus, linked);
    Ok(bus)
}

/// Puts a word at >83E0.
fn set_first_word(bus: &mut Bus, word: u16)
    ensures { bus.new ≡ with_first_word word bus.old }
{
    let [high, low] = word.to_be_bytes();
    bus.set_cell(0xE0, high);
    bus.set_cell(0xE1, low);
}

/// Puts the linked words at their addresses.
fn place_words(bus: &mut Bus, linked: &Linked)
    ensures { bus.new ≡ with_words (entries (model_of_linked linked.now).words) bus.old }
{
    for index in 0..linked.len() {
        let (at, word) = linked.pair(index);
        bus.place(at, word);
    }
}
