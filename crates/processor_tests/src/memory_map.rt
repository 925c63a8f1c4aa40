//! The memory map, worked out by hand.

use console_bus::{Bus, PortStop, is_port};
use grom_counter::Grom;
use std::alloc::{AllocError, Global};
use std::test::Fail;
use vdp_ports::Vdp;

/// Addresses, each with the word that it holds after a word access there wrote >1234.
const WRITTEN: &[(u16, u16)] = &[
    (0x0000, 0),
    (0x1FFE, 0),
    (0x2000, 0x1234),
    (0x3FFF, 0x1234),
    (0x4000, 0),
    (0x7FFE, 0),
    (0x8000, 0x1234),
    (0x82FE, 0x1234),
    (0x8300, 0x1234),
    (0x83FE, 0x1234),
    (0x8400, 0),
    (0x8804, 0),
    (0x9FFE, 0),
    (0xA000, 0x1234),
    (0xFFFF, 0x1234),
];

/// Even addresses of console ROM and of expansion memory.
const LOADABLE: &[u16] = &[0x0002, 0x1FFE, 0x2000, 0x3FFE, 0xA000, 0xFFFE];

/// The eight ports.
const PORTS: &[u16] = &[
    0x8800, 0x8802, 0x8C00, 0x8C02, 0x9800, 0x9802, 0x9C00, 0x9C02,
];

/// Bytes that are written at addresses among the ports, and bytes that are then read there: an address of the video
/// processor to write to, two bytes, and the same address to read from; an address of the GROMs.
const PORT_WRITES: &[(u16, u8)] = &[
    (0x8C02, 0x10),
    (0x8C02, 0x40),
    (0x8C00, 0xBE),
    (0x8C00, 0xEF),
    (0x8C02, 0x10),
    (0x8C02, 0x00),
    (0x9C02, 0x60),
    (0x9C02, 0x00),
    // a port for reading, the GROM's data port, and an odd address
    (0x9800, 0xFF),
    (0x9802, 0xFF),
    (0x9C00, 0xFF),
    (0x8C01, 0xFF),
];

const PORT_READS: &[(u16, u8)] = &[
    (0x8800, 0xBE),
    (0x8800, 0xEF),
    (0x8802, 0x00),
    (0x9800, 0x5A),
    (0x9802, 0x60),
    (0x9802, 0x02),
    // ports for writing, and an odd address
    (0x8C00, 0x00),
    (0x8C02, 0x00),
    (0x9C00, 0x00),
    (0x9C02, 0x00),
    (0x8801, 0x00),
];

/// A new memory over GROMs that hold >5A at >6000.
fn new_bus(alloc: Global) -> Result<Bus, AllocError> {
    let mut image = vec![in alloc; 0u8; 65_536]?;
    image[0x6000] = 0x5A;
    Bus::new(alloc, Vdp::new(alloc)?, Grom::new(alloc, &image)?)
}

/// Whether a word is written at an address so that the word and the two bytes there are what is to be seen.
fn writes_as(bus: &mut Bus, at: u16, seen: u16) -> bool {
    let even = at / 2 * 2;
    bus.write_word(at, 0x1234) == Ok(())
        && bus.read_word(at) == Ok(seen)
        && u16::from_be_bytes([bus.read_byte(even), bus.read_byte(even.wrapping_add(1))]) == seen
}

/// Whether the scratchpad is one memory at its four places, by bytes and by cells.
fn has_mirrors(bus: &mut Bus) -> bool {
    bus.write_byte(0x8123, 0x9A);
    bus.set_cell(0xFF, 0x77);
    bus.cell(0x23) == 0x9A && bus.read_byte(0x80FF) == 0x77 && bus.pad()[0xFF] == 0x77
}

/// Whether a word is loaded at a place that it can be loaded at.
fn loads(bus: &mut Bus, at: u16) -> bool {
    if at % 2 != 0 || (0x4000..0xA000).contains(&at) {
        return false;
    }
    bus.place(at, 0xABCD);
    bus.read_word(at) == Ok(0xABCD)
}

#[test]
fn maps_memory(rt: HostRuntime) -> Result<(), Fail> {
    for &(at, seen) in WRITTEN {
        let mut bus = new_bus(rt.alloc())?;
        assert!(rt; writes_as(&mut bus, at, seen), "at {at:04X}");
    }
    let mut bus = new_bus(rt.alloc())?;
    assert!(rt; has_mirrors(&mut bus));
    for &at in LOADABLE {
        assert!(rt; loads(&mut bus, at), "at {at:04X}");
    }
    Ok(())
}

/// Whether a port stops word accesses at its address and at the next one, and is at its own alone.
fn stops_words(bus: &mut Bus, port: u16) -> bool {
    let stop = Err(PortStop(port));
    let odd = port.wrapping_add(1);
    is_port(port)
        && !is_port(odd)
        && bus.read_word(port) == stop
        && bus.read_word(odd) == stop
        && bus.write_word(odd, 0xFFFF) == Err(PortStop(port))
}

/// Whether each port gets its bytes and gives its bytes.
fn reaches_each_port(bus: &mut Bus) -> bool {
    for &(at, byte) in PORT_WRITES {
        bus.write_byte(at, byte);
    }
    let mut agree = true;
    for &(at, byte) in PORT_READS {
        agree = bus.read_byte(at) == byte && agree;
    }
    agree && bus.vdp().address() == 0x0013 && bus.grom().counter() == 0x0202
}

#[test]
fn reaches_the_ports(rt: HostRuntime) -> Result<(), Fail> {
    let mut bus = new_bus(rt.alloc())?;
    for &port in PORTS {
        assert!(rt; stops_words(&mut bus, port), "at {port:04X}");
    }
    assert!(rt; reaches_each_port(&mut bus));
    Ok(())
}
