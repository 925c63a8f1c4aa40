//! Results, status bits and instruction words that were worked out from the manual.

use tms_words::ShiftOp::{SLA, SRA, SRC, SRL};
use tms_words::{
    BareOp, Flags, ImmOp, Instr, JumpOp, OneOp, Out8, Out16, Place, RegOp, ShiftOp, TwoOp, abs8,
    abs16, add8, add16, compare8, compare16, decode, div16, encode, mul16, neg8, neg16, odd8,
    shift16, sub8, sub16,
};

/// An operation of arithmetic.
#[derive(Clone, Copy, Debug)]
enum Arithmetic {
    Add,
    Subtract,
    Negate,
    Absolute,
}

/// Operations on words: the destination, the source where there is one, the result and the status bits.
const WORDS: &[(Arithmetic, u16, u16, u16, u16)] = &[
    (Arithmetic::Add, 0x0000, 0x0000, 0x0000, 0x2000),
    (Arithmetic::Add, 0x1234, 0x1111, 0x2345, 0xC000),
    (Arithmetic::Add, 0x7FFF, 0x0001, 0x8000, 0x8800),
    (Arithmetic::Add, 0xFFFE, 0x0001, 0xFFFF, 0x8000),
    (Arithmetic::Add, 0xFFFF, 0x0001, 0x0000, 0x3000),
    (Arithmetic::Add, 0x8000, 0x8000, 0x0000, 0x3800),
    (Arithmetic::Add, 0x8000, 0xFFFF, 0x7FFF, 0xD800),
    (Arithmetic::Subtract, 0x0000, 0x0000, 0x0000, 0x3000),
    (Arithmetic::Subtract, 0x0000, 0x0001, 0xFFFF, 0x8000),
    (Arithmetic::Subtract, 0x0005, 0x0003, 0x0002, 0xD000),
    (Arithmetic::Subtract, 0x8000, 0x0001, 0x7FFF, 0xD800),
    (Arithmetic::Subtract, 0x7FFF, 0xFFFF, 0x8000, 0x8800),
    (Arithmetic::Subtract, 0x0000, 0x8000, 0x8000, 0x8800),
    (Arithmetic::Subtract, 0xFFFF, 0x8000, 0x7FFF, 0xD000),
    (Arithmetic::Negate, 0x0000, 0, 0x0000, 0x3000),
    (Arithmetic::Negate, 0x0001, 0, 0xFFFF, 0x8000),
    (Arithmetic::Negate, 0xFFFF, 0, 0x0001, 0xC000),
    (Arithmetic::Negate, 0x7FFF, 0, 0x8001, 0x8000),
    (Arithmetic::Negate, 0x8000, 0, 0x8000, 0x8800),
    (Arithmetic::Absolute, 0x0000, 0, 0x0000, 0x2000),
    (Arithmetic::Absolute, 0x0001, 0, 0x0001, 0xC000),
    (Arithmetic::Absolute, 0xFFFF, 0, 0x0001, 0x8000),
    (Arithmetic::Absolute, 0x8001, 0, 0x7FFF, 0x8000),
    (Arithmetic::Absolute, 0x8000, 0, 0x8000, 0x8800),
];

/// The same of bytes.
const BYTES: &[(Arithmetic, u8, u8, u8, u16)] = &[
    (Arithmetic::Add, 0x00, 0x00, 0x00, 0x2000),
    (Arithmetic::Add, 0x12, 0x11, 0x23, 0xC000),
    (Arithmetic::Add, 0x7F, 0x01, 0x80, 0x8800),
    (Arithmetic::Add, 0xFF, 0x01, 0x00, 0x3000),
    (Arithmetic::Add, 0x80, 0x80, 0x00, 0x3800),
    (Arithmetic::Add, 0x80, 0xFF, 0x7F, 0xD800),
    (Arithmetic::Subtract, 0x05, 0x05, 0x00, 0x3000),
    (Arithmetic::Subtract, 0x00, 0x01, 0xFF, 0x8000),
    (Arithmetic::Subtract, 0x80, 0x01, 0x7F, 0xD800),
    (Arithmetic::Subtract, 0x7F, 0xFF, 0x80, 0x8800),
    (Arithmetic::Subtract, 0xFF, 0x80, 0x7F, 0xD000),
    (Arithmetic::Negate, 0x00, 0, 0x00, 0x3000),
    (Arithmetic::Negate, 0x01, 0, 0xFF, 0x8000),
    (Arithmetic::Negate, 0x80, 0, 0x80, 0x8800),
    (Arithmetic::Absolute, 0x00, 0, 0x00, 0x2000),
    (Arithmetic::Absolute, 0x7F, 0, 0x7F, 0xC000),
    (Arithmetic::Absolute, 0xFF, 0, 0x01, 0x8000),
    (Arithmetic::Absolute, 0x80, 0, 0x80, 0x8800),
];

/// Words that are compared, and the status bits.
const COMPARED_WORDS: &[(u16, u16, u16)] = &[
    (0x0000, 0x0000, 0x2000),
    (0x0002, 0x0001, 0xC000),
    (0x0001, 0x0002, 0x0000),
    (0x8000, 0x7FFF, 0x8000),
    (0x7FFF, 0x8000, 0x4000),
];

/// Bytes that are compared, and the status bits.
const COMPARED_BYTES: &[(u8, u8, u16)] = &[
    (0xFF, 0xFF, 0x2000),
    (0x02, 0x01, 0xC000),
    (0x01, 0x02, 0x0000),
    (0x80, 0x7F, 0x8000),
    (0x7F, 0x80, 0x4000),
];

/// Bytes, and whether their number of ones is odd.
const ODD: &[(u8, bool)] = &[
    (0x00, false),
    (0x01, true),
    (0x03, false),
    (0x07, true),
    (0x80, true),
    (0xFE, true),
    (0xFF, false),
];

/// Shifts of words by counts: the result and the status bits.
const SHIFTS: &[(ShiftOp, u16, u8, u16, u16)] = &[
    (SRA, 0x8000, 1, 0xC000, 0x8000),
    (SRA, 0x7FFF, 15, 0x0000, 0x3000),
    (SRA, 0x7FFF, 16, 0x0000, 0x2000),
    (SRA, 0x8001, 16, 0xFFFF, 0x9000),
    (SRL, 0x8001, 1, 0x4000, 0xD000),
    (SRL, 0xFFFF, 4, 0x0FFF, 0xD000),
    (SRL, 0x8000, 16, 0x0000, 0x3000),
    (SLA, 0x0003, 1, 0x0006, 0xC000),
    (SLA, 0x4000, 1, 0x8000, 0x8800),
    (SLA, 0xC000, 1, 0x8000, 0x9000),
    (SLA, 0xA000, 2, 0x8000, 0x8800),
    (SLA, 0x4000, 2, 0x0000, 0x3800),
    (SLA, 0xFFFF, 15, 0x8000, 0x9000),
    (SLA, 0x0001, 16, 0x0000, 0x3800),
    (SLA, 0x0000, 16, 0x0000, 0x2000),
    (SRC, 0x0001, 1, 0x8000, 0x9000),
    (SRC, 0x1234, 4, 0x4123, 0xC000),
    (SRC, 0x1234, 16, 0x1234, 0xC000),
    (SRC, 0x8000, 16, 0x8000, 0x9000),
];

/// Words and their products.
const PRODUCTS: &[(u16, u16, (u16, u16))] = &[
    (0x0000, 0x1234, (0x0000, 0x0000)),
    (0x0100, 0x0100, (0x0001, 0x0000)),
    (0x1234, 0x0010, (0x0001, 0x2340)),
    (0xFFFF, 0xFFFF, (0xFFFE, 0x0001)),
];

/// The high and the low word of a number, a divisor, and the quotient with the remainder.
const QUOTIENTS: &[(u16, u16, u16, Option<(u16, u16)>)] = &[
    (0x0000, 0x0007, 0x0002, Some((0x0003, 0x0001))),
    (0x0000, 0xFFFF, 0x8000, Some((0x0001, 0x7FFF))),
    (0x0001, 0x0000, 0x0002, Some((0x8000, 0x0000))),
    (0xFFFE, 0xFFFF, 0xFFFF, Some((0xFFFF, 0xFFFE))),
    (0x0001, 0x0000, 0x0001, None),
    (0x0000, 0x0000, 0x0000, None),
    (0xFFFF, 0x0000, 0xFFFF, None),
];

/// Words with two operands: the operation, whether it is the form of bytes, and the mode and register of the
/// destination and of the source.
const TWO: &[(u16, TwoOp, bool, (u8, u8), (u8, u8))] = &[
    (0x4001, TwoOp::SZC, false, (0, 0), (0, 1)),
    (0x5FFF, TwoOp::SZC, true, (3, 15), (3, 15)),
    (0x6210, TwoOp::S, false, (0, 8), (1, 0)),
    (0x7210, TwoOp::S, true, (0, 8), (1, 0)),
    (0x8081, TwoOp::C, false, (0, 2), (0, 1)),
    (0x9831, TwoOp::C, true, (2, 0), (3, 1)),
    (0xA042, TwoOp::A, false, (0, 1), (0, 2)),
    (0xB0A1, TwoOp::A, true, (0, 2), (2, 1)),
    (0xCD60, TwoOp::MOV, false, (3, 5), (2, 0)),
    (0xD7C0, TwoOp::MOV, true, (1, 15), (0, 0)),
    (0xE0A1, TwoOp::SOC, false, (0, 2), (2, 1)),
    (0xF101, TwoOp::SOC, true, (0, 4), (0, 1)),
];

/// Words with a register or number and a source.
const REG: &[(u16, RegOp, u8, (u8, u8))] = &[
    (0x2081, RegOp::COC, 2, (0, 1)),
    (0x2481, RegOp::CZC, 2, (0, 1)),
    (0x2BD3, RegOp::XOR, 15, (1, 3)),
    (0x2C85, RegOp::XOP, 2, (0, 5)),
    (0x30C1, RegOp::LDCR, 3, (0, 1)),
    (0x34C1, RegOp::STCR, 3, (0, 1)),
    (0x3881, RegOp::MPY, 2, (0, 1)),
    (0x3CB1, RegOp::DIV, 2, (3, 1)),
];

/// Words that shift a register by a count.
const SHIFT: &[(u16, ShiftOp, u8, u8)] = &[
    (0x0812, ShiftOp::SRA, 1, 2),
    (0x09F0, ShiftOp::SRL, 15, 0),
    (0x0A01, ShiftOp::SLA, 0, 1),
    (0x0B8F, ShiftOp::SRC, 8, 15),
];

/// Words with one operand.
const ONE: &[(u16, OneOp, (u8, u8))] = &[
    (0x0420, OneOp::BLWP, (2, 0)),
    (0x045B, OneOp::B, (1, 11)),
    (0x0481, OneOp::X, (0, 1)),
    (0x04C1, OneOp::CLR, (0, 1)),
    (0x0501, OneOp::NEG, (0, 1)),
    (0x0541, OneOp::INV, (0, 1)),
    (0x0581, OneOp::INC, (0, 1)),
    (0x05F1, OneOp::INCT, (3, 1)),
    (0x0601, OneOp::DEC, (0, 1)),
    (0x0641, OneOp::DECT, (0, 1)),
    (0x06A0, OneOp::BL, (2, 0)),
    (0x06C1, OneOp::SWPB, (0, 1)),
    (0x0701, OneOp::SETO, (0, 1)),
    (0x077F, OneOp::ABS, (3, 15)),
];

/// Words that jump, or name a bit.
const JUMP: &[(u16, JumpOp, i8)] = &[
    (0x10FF, JumpOp::JMP, -1),
    (0x107F, JumpOp::JMP, 127),
    (0x1180, JumpOp::JLT, -128),
    (0x1202, JumpOp::JLE, 2),
    (0x1302, JumpOp::JEQ, 2),
    (0x1402, JumpOp::JHE, 2),
    (0x1502, JumpOp::JGT, 2),
    (0x1602, JumpOp::JNE, 2),
    (0x1702, JumpOp::JNC, 2),
    (0x1802, JumpOp::JOC, 2),
    (0x1902, JumpOp::JNO, 2),
    (0x1A02, JumpOp::JL, 2),
    (0x1B02, JumpOp::JH, 2),
    (0x1C02, JumpOp::JOP, 2),
    (0x1D02, JumpOp::SBO, 2),
    (0x1E02, JumpOp::SBZ, 2),
    (0x1FFE, JumpOp::TB, -2),
];

/// Words with a register.
const IMM: &[(u16, ImmOp, u8)] = &[
    (0x020B, ImmOp::LI, 11),
    (0x0221, ImmOp::AI, 1),
    (0x0241, ImmOp::ANDI, 1),
    (0x0261, ImmOp::ORI, 1),
    (0x028F, ImmOp::CI, 15),
    (0x02A1, ImmOp::STWP, 1),
    (0x02C1, ImmOp::STST, 1),
];

/// Words without operand.
const BARE: &[(u16, BareOp)] = &[
    (0x02E0, BareOp::LWPI),
    (0x0300, BareOp::LIMI),
    (0x0340, BareOp::IDLE),
    (0x0360, BareOp::RSET),
    (0x0380, BareOp::RTWP),
    (0x03A0, BareOp::CKON),
    (0x03C0, BareOp::CKOF),
    (0x03E0, BareOp::LREX),
];

/// Words that belong to no row.
const NO_INSTRUCTIONS: &[u16] = &[
    0x0000, 0x01FF, 0x0210, 0x02B0, 0x02D1, 0x02E1, 0x0320, 0x0381, 0x03FF, 0x0780, 0x07FF, 0x0C00,
    0x0FFF,
];

/// The status bits in their places: L> is >8000, A> >4000, EQ >2000, C >1000, OV >0800.
fn bits(flags: Flags) -> u16 {
    u16::from(flags.lgt) << 15
        | u16::from(flags.agt) << 14
        | u16::from(flags.eq) << 13
        | u16::from(flags.c) << 12
        | u16::from(flags.ov) << 11
}

fn is_word(out: Out16, value: u16, status: u16) -> bool {
    out.value == value && bits(out.flags) == status
}

fn is_byte(out: Out8, value: u8, status: u16) -> bool {
    out.value == value && bits(out.flags) == status
}

fn of_words(operation: Arithmetic, d: u16, s: u16) -> Out16 {
    match operation {
        Arithmetic::Add => add16(d, s),
        Arithmetic::Subtract => sub16(d, s),
        Arithmetic::Negate => neg16(d),
        Arithmetic::Absolute => abs16(d),
    }
}

fn of_bytes(operation: Arithmetic, d: u8, s: u8) -> Out8 {
    match operation {
        Arithmetic::Add => add8(d, s),
        Arithmetic::Subtract => sub8(d, s),
        Arithmetic::Negate => neg8(d),
        Arithmetic::Absolute => abs8(d),
    }
}

#[test]
fn sets_results_and_status_bits(rt: HostRuntime) {
    for &(operation, d, s, value, status) in WORDS {
        let agrees = is_word(of_words(operation, d, s), value, status);
        assert!(rt; agrees, "{operation:?} of words at {d:04X}, {s:04X}");
    }
    for &(operation, d, s, value, status) in BYTES {
        let agrees = is_byte(of_bytes(operation, d, s), value, status);
        assert!(rt; agrees, "{operation:?} of bytes at {d:02X}, {s:02X}");
    }
}

#[test]
fn compares_and_counts_ones(rt: HostRuntime) {
    for &(a, b, status) in COMPARED_WORDS {
        assert!(rt; bits(compare16(a, b)) == status, "{a:04X}, {b:04X}");
    }
    for &(a, b, status) in COMPARED_BYTES {
        assert!(rt; bits(compare8(a, b)) == status, "{a:02X}, {b:02X}");
    }
    for &(byte, odd) in ODD {
        assert!(rt; odd8(byte) == odd, "{byte:02X}");
    }
}

fn shifts_as(op: ShiftOp, word: u16, count: u8, value: u16, status: u16) -> bool {
    (1..=16).contains(&count) && is_word(shift16(op, word, count), value, status)
}

#[test]
fn shifts_multiplies_and_divides(rt: HostRuntime) {
    for &(op, word, count, value, status) in SHIFTS {
        assert!(rt;
            shifts_as(op, word, count, value, status),
            "{op:?} {word:04X}, {count}"
        );
    }
    for &(a, b, product) in PRODUCTS {
        assert!(rt; mul16(a, b) == product, "{a:04X}, {b:04X}");
    }
    for &(high, low, by, out) in QUOTIENTS {
        assert!(rt;
            div16(high, low, by) == out,
            "{high:04X}, {low:04X}, {by:04X}"
        );
    }
}

/// Whether a word says an instruction, and the instruction says the word.
fn is_word_of(word: u16, instr: Instr) -> bool {
    match decode(word) {
        Some(found) => found == instr && encode(&found) == word,
        None => false,
    }
}

fn place((mode, reg): (u8, u8)) -> Place {
    Place { mode, reg }
}

#[test]
fn reads_and_writes_words_with_operands(rt: HostRuntime) {
    for &(word, op, byte, dst, src) in TWO {
        let (dst, src) = (place(dst), place(src));
        assert!(rt;
            is_word_of(word, Instr::Two { op, byte, dst, src }),
            "{word:04X}"
        );
    }
    for &(word, op, d, src) in REG {
        let src = place(src);
        assert!(rt; is_word_of(word, Instr::Reg { op, d, src }), "{word:04X}");
    }
    for &(word, op, at) in ONE {
        let at = place(at);
        assert!(rt; is_word_of(word, Instr::One { op, at }), "{word:04X}");
    }
}

#[test]
fn reads_and_writes_words_with_numbers(rt: HostRuntime) {
    for &(word, op, count, w) in SHIFT {
        assert!(rt;
            is_word_of(word, Instr::Shift { op, count, w }),
            "{word:04X}"
        );
    }
    for &(word, op, disp) in JUMP {
        assert!(rt; is_word_of(word, Instr::Jump { op, disp }), "{word:04X}");
    }
    for &(word, op, w) in IMM {
        assert!(rt; is_word_of(word, Instr::Imm { op, w }), "{word:04X}");
    }
    for &(word, op) in BARE {
        assert!(rt; is_word_of(word, Instr::Bare { op }), "{word:04X}");
    }
    for &word in NO_INSTRUCTIONS {
        assert!(rt; decode(word).is_none(), "{word:04X}");
    }
}
