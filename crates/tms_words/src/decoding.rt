//! The instruction of a word.
//!
//! The row of a word is found by tests in the order in which programs use the rows. They are a chain of `if`, which
//! keeps its order; a `match` on ranges is compiled in an order of its own. `decode`, `operation_at`, `two_at`,
//! `jump_at` and `operands_at` are inlined into each of their callers, since a call of them takes long beside the
//! rest of a step; of the other parts the compiler decides.
ghost use Rattle.std.specs.Prelude.{◌≡◌, ◌≢◌, ◌≤◌, ◌<◌, ◌/◌, ◌%◌, ◌*◌, ◌==◌, IfSome, IfNone};
ghost use Rattle.tms_defs.specs.Instructions.{two_row, reg_row, shift_row, one_row, jump_row, imm_row};
ghost use Rattle.tms_defs.specs.Instructions.{bare_row, operation_at, operands_at, source_at, destination_at};
ghost use Rattle.tms_defs.specs.Instructions.{instr_at, word_of, HasRoom};

use tms_defs::{BareOp, ImmOp, Instr, JumpOp, OneOp, Operation, Place, RegOp, ShiftOp, TwoOp};

/// The instruction that a word says, and None exactly where the word belongs to no row of the instruction table.
/// TMS9900 data manual, "Instructions".
#[inline(always)]
pub fn decode(word: u16) -> Option<Instr>
    ensures value { result ≡ instr_at word }
    ensures room { IfSome result HasRoom }
    // an instruction that was decoded is encoded as the word again
    ensures encoded { IfSome result (λ instr. word_of instr ≡ word) }
{
    Some(operands_at(operation_at(word)?, word))
}

/// The row that a word belongs to.
#[inline(always)]
fn operation_at(word: u16) -> Option<Operation>
    ensures { result ≡ operation_at word }
{
    if word >= 0x4000 {
        Some(Operation::Two(two_at(word), word >> 12 & 1 == 1))
    } else if word >= 0x2000 {
        Some(Operation::Reg(reg_at(word)))
    } else if word >= 0x1000 {
        Some(Operation::Jump(jump_at(word)))
    } else if word >= 0x0C00 {
        None
    } else if word >= 0x0800 {
        Some(Operation::Shift(shift_at(word)))
    } else if word >= 0x0780 {
        None
    } else if word >= 0x0400 {
        Some(Operation::One(one_at(word)))
    } else if word >= 0x0200 {
        control_at(word)
    } else {
        None
    }
}

/// The row of a word with a register and a following word, or without operand.
fn control_at(word: u16) -> Option<Operation>
    requires { (0x0200 ≤ word) × (word < 0x0400) }
    ensures { result ≡ operation_at word }
{
    if let Some(op) = imm_at(word) {
        return Some(Operation::Imm(op));
    }
    Some(Operation::Bare(bare_at(word)?))
}

/// The operation on two operands in a word, beside the bit that distinguishes words from bytes.
#[inline(always)]
fn two_at(word: u16) -> TwoOp
    requires { 0x4000 ≤ word }
    ensures { (two_row result (word / 4096 % 2 == 1)).code ≡ word / 4096 * 4096 }
{
    match word >> 13 {
        2 => TwoOp::SZC,
        3 => TwoOp::S,
        4 => TwoOp::C,
        5 => TwoOp::A,
        6 => TwoOp::MOV,
        7 => TwoOp::SOC,
        _ => unreachable!(),
    }
}

/// The operation on a source and a register or number in a word.
fn reg_at(word: u16) -> RegOp
    requires { (0x2000 ≤ word) × (word < 0x4000) }
    ensures { (reg_row result).code ≡ word / 1024 * 1024 }
{
    match word >> 10 {
        0x08 => RegOp::COC,
        0x09 => RegOp::CZC,
        0x0A => RegOp::XOR,
        0x0B => RegOp::XOP,
        0x0C => RegOp::LDCR,
        0x0D => RegOp::STCR,
        0x0E => RegOp::MPY,
        0x0F => RegOp::DIV,
        _ => unreachable!(),
    }
}

/// The jump, or the operation on a bit, in a word.
#[inline(always)]
fn jump_at(word: u16) -> JumpOp
    requires { (0x1000 ≤ word) × (word < 0x2000) }
    ensures { (jump_row result).code ≡ word / 256 * 256 }
{
    match word >> 8 {
        0x10 => JumpOp::JMP,
        0x11 => JumpOp::JLT,
        0x12 => JumpOp::JLE,
        0x13 => JumpOp::JEQ,
        0x14 => JumpOp::JHE,
        0x15 => JumpOp::JGT,
        0x16 => JumpOp::JNE,
        0x17 => JumpOp::JNC,
        0x18 => JumpOp::JOC,
        0x19 => JumpOp::JNO,
        0x1A => JumpOp::JL,
        0x1B => JumpOp::JH,
        0x1C => JumpOp::JOP,
        0x1D => JumpOp::SBO,
        0x1E => JumpOp::SBZ,
        0x1F => JumpOp::TB,
        _ => unreachable!(),
    }
}

/// The shift in a word.
fn shift_at(word: u16) -> ShiftOp
    requires { (0x0800 ≤ word) × (word < 0x0C00) }
    ensures { (shift_row result).code ≡ word / 256 * 256 }
{
    match word >> 8 {
        0x08 => ShiftOp::SRA,
        0x09 => ShiftOp::SRL,
        0x0A => ShiftOp::SLA,
        0x0B => ShiftOp::SRC,
        _ => unreachable!(),
    }
}

/// The operation on one operand in a word.
fn one_at(word: u16) -> OneOp
    requires { (0x0400 ≤ word) × (word < 0x0780) }
    ensures { (one_row result).code ≡ word / 64 * 64 }
{
    match word >> 6 {
        0x10 => OneOp::BLWP,
        0x11 => OneOp::B,
        0x12 => OneOp::X,
        0x13 => OneOp::CLR,
        0x14 => OneOp::NEG,
        0x15 => OneOp::INV,
        0x16 => OneOp::INC,
        0x17 => OneOp::INCT,
        0x18 => OneOp::DEC,
        0x19 => OneOp::DECT,
        0x1A => OneOp::BL,
        0x1B => OneOp::SWPB,
        0x1C => OneOp::SETO,
        0x1D => OneOp::ABS,
        _ => unreachable!(),
    }
}

/// The operation on a register and a following word in a word, if it is one.
fn imm_at(word: u16) -> Option<ImmOp>
    ensures found { IfSome result (λ op. (imm_row op).code ≡ word / 16 * 16) }
    ensures none { IfNone result ((op : ImmOp) → (imm_row op).code ≢ word / 16 * 16) }
{
    match word >> 4 {
        0x20 => Some(ImmOp::LI),
        0x22 => Some(ImmOp::AI),
        0x24 => Some(ImmOp::ANDI),
        0x26 => Some(ImmOp::ORI),
        0x28 => Some(ImmOp::CI),
        0x2A => Some(ImmOp::STWP),
        0x2C => Some(ImmOp::STST),
        _ => None,
    }
}

/// The operation without operand in a word, if it is one.
fn bare_at(word: u16) -> Option<BareOp>
    ensures found { IfSome result (λ op. (bare_row op).code ≡ word) }
    ensures none { IfNone result ((op : BareOp) → (bare_row op).code ≢ word) }
{
    match word {
        0x02E0 => Some(BareOp::LWPI),
        0x0300 => Some(BareOp::LIMI),
        0x0340 => Some(BareOp::IDLE),
        0x0360 => Some(BareOp::RSET),
        0x0380 => Some(BareOp::RTWP),
        0x03A0 => Some(BareOp::CKON),
        0x03C0 => Some(BareOp::CKOF),
        0x03E0 => Some(BareOp::LREX),
        _ => None,
    }
}

/// An operation with the operands of a word.
#[inline(always)]
fn operands_at(operation: Operation, word: u16) -> Instr
    ensures { result ≡ operands_at operation word }
{
    match operation {
        Operation::Two(op, byte) => Instr::Two {
            op,
            byte,
            dst: destination_at(word),
            src: source_at(word),
        },
        Operation::Reg(op) => Instr::Reg {
            op,
            d: (word >> 6 & 0xF) as u8,
            src: source_at(word),
        },
        Operation::Shift(op) => Instr::Shift {
            op,
            count: (word >> 4 & 0xF) as u8,
            w: (word & 0xF) as u8,
        },
        Operation::One(op) => Instr::One {
            op,
            at: source_at(word),
        },
        Operation::Jump(op) => Instr::Jump {
            op,
            disp: ((word & 0xFF) as u8).cast_signed(),
        },
        Operation::Imm(op) => Instr::Imm {
            op,
            w: (word & 0xF) as u8,
        },
        Operation::Bare(op) => Instr::Bare { op },
    }
}

/// The operand in the low six bits of a word.
fn source_at(word: u16) -> Place
    ensures { result ≡ source_at word }
{
    Place {
        mode: (word >> 4 & 3) as u8,
        reg: (word & 0xF) as u8,
    }
}

/// The operand in the next six bits of a word.
fn destination_at(word: u16) -> Place
    ensures { result ≡ destination_at word }
{
    Place {
        mode: (word >> 10 & 3) as u8,
        reg: (word >> 6 & 0xF) as u8,
    }
}
