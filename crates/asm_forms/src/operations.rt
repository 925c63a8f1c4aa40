//! The operations by their names.

ghost use Rattle.std.specs.Prelude.{◌≡◌, ◌≤◌, false, length, true};
ghost use Rattle.tms_defs.specs.Instructions.{operation_of};
ghost use Rattle.tms_defs.specs.declared.instruction.Operation.TheVariants.{Two, Reg, Shift, One, Jump, Imm, Bare};
ghost use Rattle.tms_defs.specs.Instructions as spec;

use tms_defs::{BareOp, ImmOp, Instr, JumpOp, OneOp, Operation, RegOp, ShiftOp, TwoOp};

/// The name of an operation (Editor/Assembler manual, "Assembly Language Instructions").
pub(crate) fn name_of(operation: Operation) -> &'static str
    ensures name { result.now ≡ spec.name_of operation }
    ensures size { length result.now ≤ 4 }
{
    match operation {
        Operation::Two(op, false) => word_name(op),
        Operation::Two(op, true) => byte_name(op),
        Operation::Reg(op) => register_name(op),
        Operation::Shift(op) => shift_name(op),
        Operation::One(op) => one_name(op),
        Operation::Jump(op) => jump_name(op),
        Operation::Imm(op) => immediate_name(op),
        Operation::Bare(op) => bare_name(op),
    }
}

/// The name of an operation on two words.
fn word_name(op: TwoOp) -> &'static str
    ensures name { result.now ≡ spec.name_of (Two op false) }
    ensures size { length result.now ≤ 4 }
{
    match op {
        TwoOp::SZC => "SZC",
        TwoOp::S => "S",
        TwoOp::C => "C",
        TwoOp::A => "A",
        TwoOp::MOV => "MOV",
        TwoOp::SOC => "SOC",
    }
}

/// The name of an operation on two bytes.
fn byte_name(op: TwoOp) -> &'static str
    ensures name { result.now ≡ spec.name_of (Two op true) }
    ensures size { length result.now ≤ 4 }
{
    match op {
        TwoOp::SZC => "SZCB",
        TwoOp::S => "SB",
        TwoOp::C => "CB",
        TwoOp::A => "AB",
        TwoOp::MOV => "MOVB",
        TwoOp::SOC => "SOCB",
    }
}

/// The name of an operation on a register.
fn register_name(op: RegOp) -> &'static str
    ensures name { result.now ≡ spec.name_of (Reg op) }
    ensures size { length result.now ≤ 4 }
{
    match op {
        RegOp::COC => "COC",
        RegOp::CZC => "CZC",
        RegOp::XOR => "XOR",
        RegOp::XOP => "XOP",
        RegOp::LDCR => "LDCR",
        RegOp::STCR => "STCR",
        RegOp::MPY => "MPY",
        RegOp::DIV => "DIV",
    }
}

/// The name of a shift.
fn shift_name(op: ShiftOp) -> &'static str
    ensures name { result.now ≡ spec.name_of (Shift op) }
    ensures size { length result.now ≤ 4 }
{
    match op {
        ShiftOp::SRA => "SRA",
        ShiftOp::SRL => "SRL",
        ShiftOp::SLA => "SLA",
        ShiftOp::SRC => "SRC",
    }
}

/// The name of an operation on one operand.
fn one_name(op: OneOp) -> &'static str
    ensures name { result.now ≡ spec.name_of (One op) }
    ensures size { length result.now ≤ 4 }
{
    match op {
        OneOp::BLWP => "BLWP",
        OneOp::B => "B",
        OneOp::X => "X",
        OneOp::CLR => "CLR",
        OneOp::NEG => "NEG",
        OneOp::INV => "INV",
        OneOp::INC => "INC",
        OneOp::INCT => "INCT",
        OneOp::DEC => "DEC",
        OneOp::DECT => "DECT",
        OneOp::BL => "BL",
        OneOp::SWPB => "SWPB",
        OneOp::SETO => "SETO",
        OneOp::ABS => "ABS",
    }
}

/// The name of a jump, or of an operation on a bit.
fn jump_name(op: JumpOp) -> &'static str
    ensures name { result.now ≡ spec.name_of (Jump op) }
    ensures size { length result.now ≤ 4 }
{
    match op {
        JumpOp::JMP => "JMP",
        JumpOp::JLT => "JLT",
        JumpOp::JLE => "JLE",
        JumpOp::JEQ => "JEQ",
        JumpOp::JHE => "JHE",
        JumpOp::JGT => "JGT",
        JumpOp::JNE => "JNE",
        JumpOp::JNC => "JNC",
        JumpOp::JOC => "JOC",
        JumpOp::JNO => "JNO",
        JumpOp::JL => "JL",
        JumpOp::JH => "JH",
        JumpOp::JOP => "JOP",
        JumpOp::SBO => "SBO",
        JumpOp::SBZ => "SBZ",
        JumpOp::TB => "TB",
    }
}

/// The name of an operation on a register with a word that follows or a word of the processor.
fn immediate_name(op: ImmOp) -> &'static str
    ensures name { result.now ≡ spec.name_of (Imm op) }
    ensures size { length result.now ≤ 4 }
{
    match op {
        ImmOp::LI => "LI",
        ImmOp::AI => "AI",
        ImmOp::ANDI => "ANDI",
        ImmOp::ORI => "ORI",
        ImmOp::CI => "CI",
        ImmOp::STWP => "STWP",
        ImmOp::STST => "STST",
    }
}

/// The name of an operation without a register or a place.
fn bare_name(op: BareOp) -> &'static str
    ensures name { result.now ≡ spec.name_of (Bare op) }
    ensures size { length result.now ≤ 4 }
{
    match op {
        BareOp::LWPI => "LWPI",
        BareOp::LIMI => "LIMI",
        BareOp::IDLE => "IDLE",
        BareOp::RSET => "RSET",
        BareOp::RTWP => "RTWP",
        BareOp::CKON => "CKON",
        BareOp::CKOF => "CKOF",
        BareOp::LREX => "LREX",
    }
}

/// The operation of an instruction.
pub(crate) fn operation_of(instr: &Instr) -> Operation
    ensures { result ≡ operation_of instr.now }
{
    match *instr {
        Instr::Two { op, byte, .. } => Operation::Two(op, byte),
        Instr::Reg { op, .. } => Operation::Reg(op),
        Instr::Shift { op, .. } => Operation::Shift(op),
        Instr::One { op, .. } => Operation::One(op),
        Instr::Jump { op, .. } => Operation::Jump(op),
        Instr::Imm { op, .. } => Operation::Imm(op),
        Instr::Bare { op } => Operation::Bare(op),
    }
}
