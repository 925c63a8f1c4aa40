//! The word of an instruction.
ghost use Rattle.std.specs.Prelude.{◌≡◌, ◌≤◌, ◌<◌, ◌+◌, Some};
ghost use Rattle.tms_defs.specs.Instructions.{code_of, operation_of, operands_word, two_row, reg_row, shift_row};
ghost use Rattle.tms_defs.specs.Instructions.{one_row, jump_row, imm_row, bare_row, instr_at, word_of};
ghost use Rattle.tms_defs.specs.Instructions.{source_word, destination_word, IsPlace, HasRoom, HasSignedByte};

use tms_defs::{BareOp, ImmOp, Instr, JumpOp, OneOp, Place, RegOp, ShiftOp, TwoOp};

/// The word of an instruction whose modes are below 4 and whose registers, counts and `d` are below 16.
/// TMS9900 data manual, "Instructions".
pub fn encode(instr: &Instr) -> u16
    requires { HasRoom instr.now }
    ensures value { result ≡ word_of instr.now }
    // an instruction is decoded from its word again
    ensures decoded { instr_at result ≡ Some instr.now }
{
    let operands = operands_word(instr);
    code_of(instr) + operands
}

/// The code of an instruction's operation; its operands have room below it.
fn code_of(instr: &Instr) -> u16
    requires room { HasRoom instr.now }
    requires signed { HasSignedByte instr.now }
    ensures value { result ≡ code_of (operation_of instr.now) }
    ensures room { result + operands_word instr.now < 65536 }
{
    match *instr {
        Instr::Two { op, byte, .. } => two_code(op, byte),
        Instr::Reg { op, .. } => reg_code(op),
        Instr::Shift { op, .. } => shift_code(op),
        Instr::One { op, .. } => one_code(op),
        Instr::Jump { op, .. } => jump_code(op),
        Instr::Imm { op, .. } => imm_code(op),
        Instr::Bare { op } => bare_code(op),
    }
}

/// The operands of an instruction in their places of its word.
fn operands_word(instr: &Instr) -> u16
    requires { HasRoom instr.now }
    ensures value { result ≡ operands_word instr.now }
    ensures signed { HasSignedByte instr.now }
{
    match *instr {
        Instr::Two { dst, src, .. } => destination_word(dst) + source_word(src),
        Instr::Reg { d, src, .. } => (u16::from(d) << 6) + source_word(src),
        Instr::Shift { count, w, .. } => (u16::from(count) << 4) + u16::from(w),
        Instr::One { at, .. } => source_word(at),
        Instr::Jump { disp, .. } => u16::from(disp.cast_unsigned()),
        Instr::Imm { w, .. } => u16::from(w),
        Instr::Bare { .. } => 0,
    }
}

/// An operand in the low six bits of a word.
fn source_word(place: Place) -> u16
    requires { IsPlace place }
    ensures { result ≡ source_word place }
{
    (u16::from(place.mode) << 4) + u16::from(place.reg)
}

/// An operand in the next six bits of a word.
fn destination_word(place: Place) -> u16
    requires { IsPlace place }
    ensures { result ≡ destination_word place }
{
    (u16::from(place.mode) << 10) + (u16::from(place.reg) << 6)
}

/// The code of an operation on two operands.
fn two_code(op: TwoOp, byte: bool) -> u16
    ensures value { result ≡ (two_row op byte).code }
    ensures room { result ≤ 0xF000 }
{
    match (op, byte) {
        (TwoOp::SZC, false) => 0x4000,
        (TwoOp::SZC, true) => 0x5000,
        (TwoOp::S, false) => 0x6000,
        (TwoOp::S, true) => 0x7000,
        (TwoOp::C, false) => 0x8000,
        (TwoOp::C, true) => 0x9000,
        (TwoOp::A, false) => 0xA000,
        (TwoOp::A, true) => 0xB000,
        (TwoOp::MOV, false) => 0xC000,
        (TwoOp::MOV, true) => 0xD000,
        (TwoOp::SOC, false) => 0xE000,
        (TwoOp::SOC, true) => 0xF000,
    }
}

/// The code of an operation on a source and a register or number.
fn reg_code(op: RegOp) -> u16
    ensures value { result ≡ (reg_row op).code }
    ensures room { result ≤ 0x3C00 }
{
    match op {
        RegOp::COC => 0x2000,
        RegOp::CZC => 0x2400,
        RegOp::XOR => 0x2800,
        RegOp::XOP => 0x2C00,
        RegOp::LDCR => 0x3000,
        RegOp::STCR => 0x3400,
        RegOp::MPY => 0x3800,
        RegOp::DIV => 0x3C00,
    }
}

/// The code of a shift.
fn shift_code(op: ShiftOp) -> u16
    ensures value { result ≡ (shift_row op).code }
    ensures room { result ≤ 0x0B00 }
{
    match op {
        ShiftOp::SRA => 0x0800,
        ShiftOp::SRL => 0x0900,
        ShiftOp::SLA => 0x0A00,
        ShiftOp::SRC => 0x0B00,
    }
}

/// The code of an operation on one operand.
fn one_code(op: OneOp) -> u16
    ensures value { result ≡ (one_row op).code }
    ensures room { result ≤ 0x0740 }
{
    match op {
        OneOp::BLWP => 0x0400,
        OneOp::B => 0x0440,
        OneOp::X => 0x0480,
        OneOp::CLR => 0x04C0,
        OneOp::NEG => 0x0500,
        OneOp::INV => 0x0540,
        OneOp::INC => 0x0580,
        OneOp::INCT => 0x05C0,
        OneOp::DEC => 0x0600,
        OneOp::DECT => 0x0640,
        OneOp::BL => 0x0680,
        OneOp::SWPB => 0x06C0,
        OneOp::SETO => 0x0700,
        OneOp::ABS => 0x0740,
    }
}

/// The code of a jump or of an operation on a bit.
fn jump_code(op: JumpOp) -> u16
    ensures value { result ≡ (jump_row op).code }
    ensures room { result ≤ 0x1F00 }
{
    match op {
        JumpOp::JMP => 0x1000,
        JumpOp::JLT => 0x1100,
        JumpOp::JLE => 0x1200,
        JumpOp::JEQ => 0x1300,
        JumpOp::JHE => 0x1400,
        JumpOp::JGT => 0x1500,
        JumpOp::JNE => 0x1600,
        JumpOp::JNC => 0x1700,
        JumpOp::JOC => 0x1800,
        JumpOp::JNO => 0x1900,
        JumpOp::JL => 0x1A00,
        JumpOp::JH => 0x1B00,
        JumpOp::JOP => 0x1C00,
        JumpOp::SBO => 0x1D00,
        JumpOp::SBZ => 0x1E00,
        JumpOp::TB => 0x1F00,
    }
}

/// The code of an operation on a register and a word.
fn imm_code(op: ImmOp) -> u16
    ensures value { result ≡ (imm_row op).code }
    ensures room { result ≤ 0x02C0 }
{
    match op {
        ImmOp::LI => 0x0200,
        ImmOp::AI => 0x0220,
        ImmOp::ANDI => 0x0240,
        ImmOp::ORI => 0x0260,
        ImmOp::CI => 0x0280,
        ImmOp::STWP => 0x02A0,
        ImmOp::STST => 0x02C0,
    }
}

/// The code of an operation without operand in its word.
fn bare_code(op: BareOp) -> u16
    ensures value { result ≡ (bare_row op).code }
    ensures room { result ≤ 0x03E0 }
{
    match op {
        BareOp::LWPI => 0x02E0,
        BareOp::LIMI => 0x0300,
        BareOp::IDLE => 0x0340,
        BareOp::RSET => 0x0360,
        BareOp::RTWP => 0x0380,
        BareOp::CKON => 0x03A0,
        BareOp::CKOF => 0x03C0,
        BareOp::LREX => 0x03E0,
    }
}
