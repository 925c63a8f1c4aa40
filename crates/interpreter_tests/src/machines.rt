//! Machines that run the interpreter on small GPL programs.

use console_bus::Bus;
use gpl_forms::GromImage;
use grom_counter::Grom;
use native_interp::{GBOOT, INTERP, ORIGIN, WORKSPACE};
use std::alloc::{AllocError, Global};
use tms_step::Machine;
use vdp_ports::Vdp;

/// A GPL program that begins at >6000, as bytes from addresses on.
pub(crate) type Program = &'static [(u16, &'static [u8])];

/// Puts bytes from an address on.
fn put_all(image: &mut GromImage, at: u16, bytes: &[u8]) {
    let mut place = at;
    for &byte in bytes {
        image.put(place, byte);
        place = place.wrapping_add(1);
    }
}

/// GROMs that hold a program.
fn holding(alloc: Global, program: Program) -> Result<Grom, AllocError> {
    let mut image = GromImage::new(alloc)?;
    for &(at, bytes) in program {
        put_all(&mut image, at, bytes);
    }
    Grom::new(alloc, image.bytes())
}

/// The memory of a console with the interpreter's words and a program.
pub(crate) fn console(alloc: Global, program: Program) -> Result<Bus, AllocError> {
    let mut bus = Bus::new(alloc, Vdp::new(alloc)?, holding(alloc, program)?)?;
    for (i, word) in INTERP.iter().enumerate() {
        bus.place(ORIGIN + 2 * i as u16, *word);
    }
    Ok(bus)
}

/// A machine at the interpreter's boot, with a program and its entry >6000.
pub(crate) fn booting(alloc: Global, program: Program) -> Result<Machine, AllocError> {
    let mut bus = console(alloc, program)?;
    bus.set_cell(0xE0, 0x60);
    bus.set_cell(0xE1, 0x00);
    Ok(Machine::new(bus, WORKSPACE, GBOOT))
}
