//! What an operation field names.

ghost use Rattle.std.specs.Prelude.{◌≡◌, Some};
ghost use Rattle.asm_text.specs.WordKeys.{with_key};
ghost use Rattle.asm_forms.specs.Named.{named};
ghost use Rattle.instruction_defs.specs.Operations as spec;

use asm_text::{keyed, name_key, named_in, word_key};
use instruction_defs::Mnemonic;
use tms_defs::{BareOp, ImmOp, JumpOp, OneOp, Operation, RegOp, ShiftOp, TwoOp};

/// The operations on two general operands, each after the number of its name.
const ON_TWO: [(u64, Operation); 12] = [
    keyed!(b'S' b'Z' b'C' => Operation::Two(TwoOp::SZC, false)),
    keyed!(b'S' b'Z' b'C' b'B' => Operation::Two(TwoOp::SZC, true)),
    keyed!(b'S' => Operation::Two(TwoOp::S, false)),
    keyed!(b'S' b'B' => Operation::Two(TwoOp::S, true)),
    keyed!(b'C' => Operation::Two(TwoOp::C, false)),
    keyed!(b'C' b'B' => Operation::Two(TwoOp::C, true)),
    keyed!(b'A' => Operation::Two(TwoOp::A, false)),
    keyed!(b'A' b'B' => Operation::Two(TwoOp::A, true)),
    keyed!(b'M' b'O' b'V' => Operation::Two(TwoOp::MOV, false)),
    keyed!(b'M' b'O' b'V' b'B' => Operation::Two(TwoOp::MOV, true)),
    keyed!(b'S' b'O' b'C' => Operation::Two(TwoOp::SOC, false)),
    keyed!(b'S' b'O' b'C' b'B' => Operation::Two(TwoOp::SOC, true)),
];

/// The operations on a general operand and a register or a count, and the shifts, each after the number of its name.
const ON_REGISTER: [(u64, Operation); 12] = [
    keyed!(b'C' b'O' b'C' => Operation::Reg(RegOp::COC)),
    keyed!(b'C' b'Z' b'C' => Operation::Reg(RegOp::CZC)),
    keyed!(b'X' b'O' b'R' => Operation::Reg(RegOp::XOR)),
    keyed!(b'X' b'O' b'P' => Operation::Reg(RegOp::XOP)),
    keyed!(b'L' b'D' b'C' b'R' => Operation::Reg(RegOp::LDCR)),
    keyed!(b'S' b'T' b'C' b'R' => Operation::Reg(RegOp::STCR)),
    keyed!(b'M' b'P' b'Y' => Operation::Reg(RegOp::MPY)),
    keyed!(b'D' b'I' b'V' => Operation::Reg(RegOp::DIV)),
    keyed!(b'S' b'R' b'A' => Operation::Shift(ShiftOp::SRA)),
    keyed!(b'S' b'R' b'L' => Operation::Shift(ShiftOp::SRL)),
    keyed!(b'S' b'L' b'A' => Operation::Shift(ShiftOp::SLA)),
    keyed!(b'S' b'R' b'C' => Operation::Shift(ShiftOp::SRC)),
];

/// The operations on one general operand, each after the number of its name.
const ON_ONE: [(u64, Operation); 14] = [
    keyed!(b'B' b'L' b'W' b'P' => Operation::One(OneOp::BLWP)),
    keyed!(b'B' => Operation::One(OneOp::B)),
    keyed!(b'X' => Operation::One(OneOp::X)),
    keyed!(b'C' b'L' b'R' => Operation::One(OneOp::CLR)),
    keyed!(b'N' b'E' b'G' => Operation::One(OneOp::NEG)),
    keyed!(b'I' b'N' b'V' => Operation::One(OneOp::INV)),
    keyed!(b'I' b'N' b'C' => Operation::One(OneOp::INC)),
    keyed!(b'I' b'N' b'C' b'T' => Operation::One(OneOp::INCT)),
    keyed!(b'D' b'E' b'C' => Operation::One(OneOp::DEC)),
    keyed!(b'D' b'E' b'C' b'T' => Operation::One(OneOp::DECT)),
    keyed!(b'B' b'L' => Operation::One(OneOp::BL)),
    keyed!(b'S' b'W' b'P' b'B' => Operation::One(OneOp::SWPB)),
    keyed!(b'S' b'E' b'T' b'O' => Operation::One(OneOp::SETO)),
    keyed!(b'A' b'B' b'S' => Operation::One(OneOp::ABS)),
];

/// The jumps, and the operations on one bit, each after the number of its name.
const JUMPS: [(u64, Operation); 16] = [
    keyed!(b'J' b'M' b'P' => Operation::Jump(JumpOp::JMP)),
    keyed!(b'J' b'L' b'T' => Operation::Jump(JumpOp::JLT)),
    keyed!(b'J' b'L' b'E' => Operation::Jump(JumpOp::JLE)),
    keyed!(b'J' b'E' b'Q' => Operation::Jump(JumpOp::JEQ)),
    keyed!(b'J' b'H' b'E' => Operation::Jump(JumpOp::JHE)),
    keyed!(b'J' b'G' b'T' => Operation::Jump(JumpOp::JGT)),
    keyed!(b'J' b'N' b'E' => Operation::Jump(JumpOp::JNE)),
    keyed!(b'J' b'N' b'C' => Operation::Jump(JumpOp::JNC)),
    keyed!(b'J' b'O' b'C' => Operation::Jump(JumpOp::JOC)),
    keyed!(b'J' b'N' b'O' => Operation::Jump(JumpOp::JNO)),
    keyed!(b'J' b'L' => Operation::Jump(JumpOp::JL)),
    keyed!(b'J' b'H' => Operation::Jump(JumpOp::JH)),
    keyed!(b'J' b'O' b'P' => Operation::Jump(JumpOp::JOP)),
    keyed!(b'S' b'B' b'O' => Operation::Jump(JumpOp::SBO)),
    keyed!(b'S' b'B' b'Z' => Operation::Jump(JumpOp::SBZ)),
    keyed!(b'T' b'B' => Operation::Jump(JumpOp::TB)),
];

/// The operations with a value or none, each after the number of its name.
const OTHERS: [(u64, Operation); 15] = [
    keyed!(b'L' b'I' => Operation::Imm(ImmOp::LI)),
    keyed!(b'A' b'I' => Operation::Imm(ImmOp::AI)),
    keyed!(b'A' b'N' b'D' b'I' => Operation::Imm(ImmOp::ANDI)),
    keyed!(b'O' b'R' b'I' => Operation::Imm(ImmOp::ORI)),
    keyed!(b'C' b'I' => Operation::Imm(ImmOp::CI)),
    keyed!(b'S' b'T' b'W' b'P' => Operation::Imm(ImmOp::STWP)),
    keyed!(b'S' b'T' b'S' b'T' => Operation::Imm(ImmOp::STST)),
    keyed!(b'L' b'W' b'P' b'I' => Operation::Bare(BareOp::LWPI)),
    keyed!(b'L' b'I' b'M' b'I' => Operation::Bare(BareOp::LIMI)),
    keyed!(b'I' b'D' b'L' b'E' => Operation::Bare(BareOp::IDLE)),
    keyed!(b'R' b'S' b'E' b'T' => Operation::Bare(BareOp::RSET)),
    keyed!(b'R' b'T' b'W' b'P' => Operation::Bare(BareOp::RTWP)),
    keyed!(b'C' b'K' b'O' b'N' => Operation::Bare(BareOp::CKON)),
    keyed!(b'C' b'K' b'O' b'F' => Operation::Bare(BareOp::CKOF)),
    keyed!(b'L' b'R' b'E' b'X' => Operation::Bare(BareOp::LREX)),
];

/// The instruction >1000, a jump to the next instruction.
const NOP: u16 = 0x1000;

/// The instruction >045B, a branch by register 11.
const RT: u16 = 0x045B;

/// The number of the name NOP.
const NOP_KEY: u64 = name_key!(b'N' b'O' b'P');

/// The number of the name RT.
const RT_KEY: u64 = name_key!(b'R' b'T');

/// What an operation field names, in upper or lower case (Editor/Assembler manual, "Assembly Language Instructions",
/// "Pseudo-instructions").
pub(crate) fn mnemonic(text: &[u8]) -> Option<Mnemonic>
    ensures { result ≡ spec.mnemonic text.now }
{
    let key = word_key(text)?;
    if key == NOP_KEY {
        return Some(Mnemonic::Fixed(NOP));
    }
    if key == RT_KEY {
        return Some(Mnemonic::Fixed(RT));
    }
    operation_named(key).map(Mnemonic::Of)
}

/// The operation whose name has a number. The tables are short, so that each search is compiled to tests, one a row,
/// and no loop.
fn operation_named(key: u64) -> Option<Operation>
    ensures { result ≡ with_key (Some key) named }
{
    if let Some(found) = named_in(&ON_TWO, key) {
        return Some(found);
    }
    if let Some(found) = named_in(&ON_REGISTER, key) {
        return Some(found);
    }
    if let Some(found) = named_in(&ON_ONE, key) {
        return Some(found);
    }
    if let Some(found) = named_in(&JUMPS, key) {
        return Some(found);
    }
    named_in(&OTHERS, key)
}
