//! Cases of the four ports, worked out by hand from their rules.

use crate::video_ports::Access::{ReadData, ReadStatus, WriteAddress, WriteData};
use std::alloc::{AllocError, Global};
use std::test::Fail;
use vdp_ports::Vdp;

/// An access to a port; a read has the byte that it is to give.
#[derive(Clone, Copy)]
enum Access {
    WriteAddress(u8),
    WriteData(u8),
    ReadData(u8),
    ReadStatus,
}

/// Accesses to the ports of a new video processor, the address that they leave, and whether it is idle then.
const CASES: &[(&str, &[Access], u16, bool)] = &[
    ("new", &[], 0, true),
    ("first byte of a pair", &[WriteAddress(0x12)], 0, false),
    (
        "an address to read from is one ahead",
        &[
            WriteAddress(0x00),
            WriteAddress(0x41),
            WriteData(0x12),
            WriteAddress(0x00),
            WriteAddress(0x01),
        ],
        0x0101,
        true,
    ),
    (
        "a write, then a read of the same place",
        &[
            WriteAddress(0x00),
            WriteAddress(0x41),
            WriteData(0x12),
            WriteAddress(0x00),
            WriteAddress(0x01),
            ReadData(0x12),
            ReadData(0x00),
        ],
        0x0103,
        true,
    ),
    (
        "a write setup fetches nothing ahead",
        &[
            WriteData(0x77),
            WriteData(0x88),
            WriteAddress(0x00),
            WriteAddress(0x40),
            ReadData(0x88),
            ReadData(0x77),
        ],
        2,
        true,
    ),
    (
        "the last address, written and read, and the first after it",
        &[
            WriteAddress(0xFF),
            WriteAddress(0x7F),
            WriteData(0x34),
            WriteData(0x56),
            WriteAddress(0xFF),
            WriteAddress(0x3F),
            ReadData(0x34),
            ReadData(0x56),
        ],
        2,
        true,
    ),
    (
        "a write becomes the fetched byte",
        &[
            WriteAddress(0x00),
            WriteAddress(0x50),
            WriteData(0x9A),
            ReadData(0x9A),
            ReadData(0x00),
        ],
        0x1003,
        true,
    ),
    (
        "a data read between the bytes of a pair",
        &[
            WriteAddress(0x12),
            ReadData(0x00),
            WriteAddress(0x34),
            WriteAddress(0x40),
        ],
        0x0034,
        true,
    ),
    (
        "a data write between the bytes of a pair",
        &[
            WriteAddress(0x12),
            WriteData(0x56),
            WriteAddress(0x34),
            WriteAddress(0x40),
        ],
        0x0034,
        true,
    ),
    (
        "a status read between the bytes of a pair",
        &[WriteAddress(0x12), ReadStatus, WriteAddress(0x34)],
        0,
        false,
    ),
    (
        "the top bits 11",
        &[
            WriteAddress(0x12),
            WriteAddress(0x45),
            WriteAddress(0x34),
            WriteAddress(0xC7),
        ],
        0x0512,
        true,
    ),
];

/// Pairs of bytes to the address port that write a register.
const REGISTERS: &[Access] = &[
    WriteAddress(0xE0),
    WriteAddress(0x81),
    WriteAddress(0xA5),
    WriteAddress(0xBF),
];

/// Whether an access gives the byte that it is to give.
fn agrees(vdp: &mut Vdp, access: Access) -> bool {
    match access {
        WriteAddress(byte) => vdp.write_address(byte),
        WriteData(byte) => vdp.write_data(byte),
        ReadData(byte) => return vdp.read_data() == byte,
        ReadStatus => return vdp.read_status() == 0,
    }
    true
}

/// Whether all accesses agree.
fn all_agree(vdp: &mut Vdp, accesses: &[Access]) -> bool {
    let mut agree = true;
    for &access in accesses {
        agree = agrees(vdp, access) && agree;
    }
    agree
}

#[test]
fn follows_each_port(rt: HostRuntime) -> Result<(), Fail> {
    for &(name, accesses, address, is_idle) in CASES {
        let mut vdp = Vdp::new(rt.alloc())?;
        let agree = all_agree(&mut vdp, accesses);
        assert!(rt;
            agree && vdp.address() == address && vdp.is_idle() == is_idle,
            "{name}"
        );
    }
    Ok(())
}

/// Whether the register writes leave two registers with their bytes, and all else 0.
fn writes_registers(alloc: Global) -> Result<bool, AllocError> {
    let mut vdp = Vdp::new(alloc)?;
    let agree = all_agree(&mut vdp, REGISTERS);
    Ok(
        agree
            && vdp.is_idle()
            && vdp.register(0) == 0
            && vdp.register(1) == 0xE0
            && vdp.register(7) == 0xA5
            && vdp.memory().iter().all(|&byte| byte == 0),
    )
}

#[test]
fn writes_registers_by_their_low_three_bits(rt: HostRuntime) -> Result<(), Fail> {
    assert!(rt; writes_registers(rt.alloc())?);
    Ok(())
}
