//! Cases of the three ports, worked out by hand from their rules.

use crate::grom_ports::Access::{ReadAddress, ReadData, WriteAddress};
use grom_counter::Grom;
use memory_basics::next_in_grom;
use std::alloc::{AllocError, Global};
use std::test::Fail;

/// An access to a port; a read has the byte that it is to give.
#[derive(Clone, Copy)]
enum Access {
    WriteAddress(u8),
    ReadAddress(u8),
    ReadData(u8),
}

/// Accesses to the ports of new GROMs, the counter that they leave, and whether the GROMs are idle then.
const CASES: &[(&str, &[Access], u16, bool)] = &[
    ("new", &[], 0, true),
    (
        "two address reads at the last address of a GROM",
        &[
            WriteAddress(0x7F),
            WriteAddress(0xFF),
            ReadAddress(0x60),
            ReadAddress(0x00),
        ],
        0x0000,
        true,
    ),
    (
        "two data reads",
        &[
            WriteAddress(0x12),
            WriteAddress(0x34),
            ReadData(0x56),
            ReadData(0x78),
        ],
        0x1237,
        true,
    ),
    (
        "two address reads, which leave the fetched byte",
        &[
            WriteAddress(0x12),
            WriteAddress(0x34),
            ReadAddress(0x12),
            ReadAddress(0x35),
            ReadData(0x56),
        ],
        0x3536,
        true,
    ),
    (
        "from the last address of a GROM to its first",
        &[
            WriteAddress(0x1F),
            WriteAddress(0xFF),
            ReadData(0x1F),
            ReadData(0xAA),
        ],
        0x0002,
        true,
    ),
    (
        "first byte of an address",
        &[WriteAddress(0x12)],
        0x1200,
        false,
    ),
    (
        "a data read after the first byte of an address",
        &[WriteAddress(0x12), ReadData(0x00), WriteAddress(0x56)],
        0x5601,
        false,
    ),
    (
        "an address read after the first byte of an address",
        &[
            WriteAddress(0x12),
            ReadAddress(0x12),
            WriteAddress(0x56),
            WriteAddress(0x78),
        ],
        0x5679,
        true,
    ),
];

/// Addresses, each with the next one in its GROM.
const NEXT: &[(u16, u16)] = &[
    (0x0000, 0x0001),
    (0x1FFF, 0x0000),
    (0x7FFF, 0x6000),
    (0xFFFF, 0xE000),
];

/// GROMs with a few bytes that are not 0: >1F at >1FFF, >AA at >0000, >56 and >78 at >1234 and >1235.
fn some_grom(alloc: Global) -> Result<Grom, AllocError> {
    let mut image = vec![in alloc; 0u8; 65_536]?;
    image[0x0000] = 0xAA;
    image[0x1234] = 0x56;
    image[0x1235] = 0x78;
    image[0x1FFF] = 0x1F;
    Grom::new(alloc, &image)
}

/// Whether an access gives the byte that it is to give.
fn agrees(grom: &mut Grom, access: Access) -> bool {
    match access {
        WriteAddress(byte) => grom.write_address(byte),
        ReadAddress(byte) => return grom.read_address() == byte,
        ReadData(byte) => return grom.read_data() == byte,
    }
    true
}

/// Whether all accesses agree.
fn all_agree(grom: &mut Grom, accesses: &[Access]) -> bool {
    let mut agree = true;
    for &access in accesses {
        agree = agrees(grom, access) && agree;
    }
    agree
}

/// Whether the image is shown as it was given.
fn shows_its_image(grom: &Grom) -> bool {
    grom.byte_at(0x1FFF) == 0x1F && grom.byte_at(0x2000) == 0 && grom.image().len() == 65_536
}

#[test]
fn follows_each_port(rt: HostRuntime) -> Result<(), Fail> {
    for &(name, accesses, counter, is_idle) in CASES {
        let mut grom = some_grom(rt.alloc())?;
        let agree = all_agree(&mut grom, accesses) && shows_its_image(&grom);
        assert!(rt;
            agree && grom.counter() == counter && grom.is_idle() == is_idle,
            "{name}"
        );
    }
    for &(at, next) in NEXT {
        assert!(rt; next_in_grom(at) == next, "at {at}");
    }
    Ok(())
}
