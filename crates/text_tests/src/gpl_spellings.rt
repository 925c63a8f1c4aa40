//! Other spellings of GPL's instructions, the code bytes that are no instruction's, and the instructions that have no
//! bytes. The shortest spellings are in `tests/rows`.

use gpl_forms::Space::Cpu;
use gpl_forms::{
    GplInstr, GplOperand, GplRead, GplSource, GromImage, MoveLength, MoveSource, MoveTarget,
    OneName, TwoName, is_shortest, is_valid, read_instr,
};
use std::test::Fail;

/// Where the bytes stand.
const HERE: u16 = 0x6000;

/// `@>8305`
const CELL: GplOperand = GplOperand {
    space: Cpu,
    indirect: false,
    address: 0x05,
    index: None,
};

/// `ABS @>8305`
const ABS_CELL: GplInstr = GplInstr::One {
    op: OneName::ABS,
    word: false,
    at: CELL,
};

/// Other spellings of an instruction on the cell.
const LONGER: &[&[u8]] = &[&[0x80, 0x80, 0x05], &[0x80, 0x8F, 0x00, 0x05]];

/// The code bytes that are no instruction's, by the first and the last of each run of them.
const REFUSED: &[(u8, u8)] = &[
    (0x03, 0x03),
    (0x08, 0x08),
    (0x0E, 0x2F),
    (0x36, 0x37),
    (0x3A, 0x3F),
    (0x89, 0x89),
    (0x8D, 0x8D),
    (0x98, 0x9F),
    (0xC2, 0xC3),
    (0xEC, 0xFF),
];

/// Instructions that have no bytes.
const INVALID: &[GplInstr] = &[
    GplInstr::Branch {
        on: true,
        offset: 0x2000,
    },
    GplInstr::One {
        op: OneName::FETCH,
        word: true,
        at: CELL,
    },
    GplInstr::One {
        op: OneName::PUSH,
        word: true,
        at: CELL,
    },
    GplInstr::Two {
        op: TwoName::ADD,
        word: false,
        dst: CELL,
        src: GplSource::Immediate(256),
    },
    GplInstr::Two {
        op: TwoName::EX,
        word: true,
        dst: CELL,
        src: GplSource::Immediate(0),
    },
    GplInstr::Move {
        length: MoveLength::At(CELL),
        target: MoveTarget::Register(0),
        source: MoveSource::At(CELL),
    },
    GplInstr::Move {
        length: MoveLength::At(CELL),
        target: MoveTarget::Register(0),
        source: MoveSource::GromIndexed(0, 0),
    },
];

/// Writes bytes from an address on, which goes on in its GROM.
fn put_all(image: &mut GromImage, at: u16, bytes: &[u8]) {
    let mut place = at;
    for byte in bytes {
        image.put(place, *byte);
        place = place / 0x2000 * 0x2000 + (place % 0x2000 + 1) % 0x2000;
    }
}

/// Whether an instruction is read at an address, with the address after it.
fn is_read_as(image: &GromImage, at: u16, instr: GplInstr, next: u16) -> bool {
    read_instr(image.bytes(), at) == GplRead::Instr { instr, next }
}

/// Whether the instruction at an address, where there is one, is there in its shortest spelling.
fn is_short(image: &GromImage, at: u16) -> bool {
    match read_instr(image.bytes(), at) {
        GplRead::Instr { .. } => is_shortest(image.bytes(), at),
        GplRead::Refused(_) => false,
    }
}

/// Whether a code byte is no instruction's.
fn is_refused(code: u8) -> bool {
    for &(first, last) in REFUSED {
        if first <= code && code <= last {
            return true;
        }
    }
    false
}

/// Whether a code byte is refused where it should be, and no other is.
fn refuses_rightly(image: &mut GromImage, code: u8) -> bool {
    image.put(HERE, code);
    match read_instr(image.bytes(), HERE) {
        GplRead::Instr { .. } => !is_refused(code),
        GplRead::Refused(refused) => is_refused(code) && refused == code,
    }
}

/// Whether bytes from the last of a GROM on, and then from its first, are read as a longer spelling of ABS on the cell.
fn is_read_from_the_last_byte(image: &mut GromImage, bytes: &[u8]) -> bool {
    put_all(image, 0x7FFF, bytes);
    match u16::try_from(bytes.len()) {
        Ok(count) => is_read_as(
            image,
            0x7FFF,
            ABS_CELL,
            HERE.wrapping_add(count).wrapping_sub(1),
        ) && !is_short(image, 0x7FFF),
        Err(_) => false,
    }
}

#[test]
fn other_spellings_are_read_and_other_codes_refused(rt: HostRuntime) -> Result<(), Fail> {
    let mut image = GromImage::new(rt.alloc())?;
    for &bytes in LONGER {
        assert!(rt; is_read_from_the_last_byte(&mut image, bytes));
    }
    for code in 0..=255u8 {
        assert!(rt; refuses_rightly(&mut image, code), "code {code:02X}");
    }
    Ok(())
}

#[test]
fn some_instructions_have_no_bytes(rt: HostRuntime) {
    for instr in INVALID {
        assert!(rt; !is_valid(instr));
    }
}
