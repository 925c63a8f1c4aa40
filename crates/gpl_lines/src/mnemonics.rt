//! The instructions by their names.

ghost use Rattle.std.specs.Prelude.{◌≡◌, Some};
ghost use Rattle.asm_text.specs.WordKeys.{with_key};
ghost use Rattle.gpl_source_defs.specs.Mnemonics as spec;
ghost use Rattle.gpl_lines.specs.Named.{named};

use asm_text::{keyed, named_in, word_key};
use gpl_defs::{ByteOp, GoOp, OneName, PlainOp, TwoName};
use gpl_source_defs::Mnemonic;

/// The instructions with a destination and a source, each after the number of its name.
const TWO: [(u64, Mnemonic); 19] = [
    keyed!(b'A' b'D' b'D' => Mnemonic::Two(TwoName::ADD, false)),
    keyed!(b'S' b'U' b'B' => Mnemonic::Two(TwoName::SUB, false)),
    keyed!(b'M' b'U' b'L' => Mnemonic::Two(TwoName::MUL, false)),
    keyed!(b'D' b'I' b'V' => Mnemonic::Two(TwoName::DIV, false)),
    keyed!(b'A' b'N' b'D' => Mnemonic::Two(TwoName::AND, false)),
    keyed!(b'O' b'R' => Mnemonic::Two(TwoName::OR, false)),
    keyed!(b'X' b'O' b'R' => Mnemonic::Two(TwoName::XOR, false)),
    keyed!(b'S' b'T' => Mnemonic::Two(TwoName::ST, false)),
    keyed!(b'E' b'X' => Mnemonic::Two(TwoName::EX, false)),
    keyed!(b'C' b'H' => Mnemonic::Two(TwoName::CH, false)),
    keyed!(b'C' b'H' b'E' => Mnemonic::Two(TwoName::CHE, false)),
    keyed!(b'C' b'G' b'T' => Mnemonic::Two(TwoName::CGT, false)),
    keyed!(b'C' b'G' b'E' => Mnemonic::Two(TwoName::CGE, false)),
    keyed!(b'C' b'E' b'Q' => Mnemonic::Two(TwoName::CEQ, false)),
    keyed!(b'C' b'L' b'O' b'G' => Mnemonic::Two(TwoName::CLOG, false)),
    keyed!(b'S' b'R' b'A' => Mnemonic::Two(TwoName::SRA, false)),
    keyed!(b'S' b'L' b'L' => Mnemonic::Two(TwoName::SLL, false)),
    keyed!(b'S' b'R' b'L' => Mnemonic::Two(TwoName::SRL, false)),
    keyed!(b'S' b'R' b'C' => Mnemonic::Two(TwoName::SRC, false)),
];

/// The same on words, each after the number of its name.
const TWO_WORDS: [(u64, Mnemonic); 19] = [
    keyed!(b'D' b'A' b'D' b'D' => Mnemonic::Two(TwoName::ADD, true)),
    keyed!(b'D' b'S' b'U' b'B' => Mnemonic::Two(TwoName::SUB, true)),
    keyed!(b'D' b'M' b'U' b'L' => Mnemonic::Two(TwoName::MUL, true)),
    keyed!(b'D' b'D' b'I' b'V' => Mnemonic::Two(TwoName::DIV, true)),
    keyed!(b'D' b'A' b'N' b'D' => Mnemonic::Two(TwoName::AND, true)),
    keyed!(b'D' b'O' b'R' => Mnemonic::Two(TwoName::OR, true)),
    keyed!(b'D' b'X' b'O' b'R' => Mnemonic::Two(TwoName::XOR, true)),
    keyed!(b'D' b'S' b'T' => Mnemonic::Two(TwoName::ST, true)),
    keyed!(b'D' b'E' b'X' => Mnemonic::Two(TwoName::EX, true)),
    keyed!(b'D' b'C' b'H' => Mnemonic::Two(TwoName::CH, true)),
    keyed!(b'D' b'C' b'H' b'E' => Mnemonic::Two(TwoName::CHE, true)),
    keyed!(b'D' b'C' b'G' b'T' => Mnemonic::Two(TwoName::CGT, true)),
    keyed!(b'D' b'C' b'G' b'E' => Mnemonic::Two(TwoName::CGE, true)),
    keyed!(b'D' b'C' b'E' b'Q' => Mnemonic::Two(TwoName::CEQ, true)),
    keyed!(b'D' b'C' b'L' b'O' b'G' => Mnemonic::Two(TwoName::CLOG, true)),
    keyed!(b'D' b'S' b'R' b'A' => Mnemonic::Two(TwoName::SRA, true)),
    keyed!(b'D' b'S' b'L' b'L' => Mnemonic::Two(TwoName::SLL, true)),
    keyed!(b'D' b'S' b'R' b'L' => Mnemonic::Two(TwoName::SRL, true)),
    keyed!(b'D' b'S' b'R' b'C' => Mnemonic::Two(TwoName::SRC, true)),
];

/// MOVE, the instructions that lead elsewhere, and those with one operand, each after the number of its name.
const ONE: [(u64, Mnemonic); 17] = [
    keyed!(b'M' b'O' b'V' b'E' => Mnemonic::Move),
    keyed!(b'B' b'R' => Mnemonic::Branch(false)),
    keyed!(b'B' b'S' => Mnemonic::Branch(true)),
    keyed!(b'B' => Mnemonic::Jump(GoOp::B)),
    keyed!(b'C' b'A' b'L' b'L' => Mnemonic::Jump(GoOp::CALL)),
    keyed!(b'A' b'B' b'S' => Mnemonic::One(OneName::ABS, false)),
    keyed!(b'N' b'E' b'G' => Mnemonic::One(OneName::NEG, false)),
    keyed!(b'I' b'N' b'V' => Mnemonic::One(OneName::INV, false)),
    keyed!(b'C' b'L' b'R' => Mnemonic::One(OneName::CLR, false)),
    keyed!(b'F' b'E' b'T' b'C' b'H' => Mnemonic::One(OneName::FETCH, false)),
    keyed!(b'C' b'A' b'S' b'E' => Mnemonic::One(OneName::CASE, false)),
    keyed!(b'P' b'U' b'S' b'H' => Mnemonic::One(OneName::PUSH, false)),
    keyed!(b'C' b'Z' => Mnemonic::One(OneName::CZ, false)),
    keyed!(b'I' b'N' b'C' => Mnemonic::One(OneName::INC, false)),
    keyed!(b'D' b'E' b'C' => Mnemonic::One(OneName::DEC, false)),
    keyed!(b'I' b'N' b'C' b'T' => Mnemonic::One(OneName::INCT, false)),
    keyed!(b'D' b'E' b'C' b'T' => Mnemonic::One(OneName::DECT, false)),
];

/// The same on words, each after the number of its name.
const ONE_WORD: [(u64, Mnemonic); 10] = [
    keyed!(b'D' b'A' b'B' b'S' => Mnemonic::One(OneName::ABS, true)),
    keyed!(b'D' b'N' b'E' b'G' => Mnemonic::One(OneName::NEG, true)),
    keyed!(b'D' b'I' b'N' b'V' => Mnemonic::One(OneName::INV, true)),
    keyed!(b'D' b'C' b'L' b'R' => Mnemonic::One(OneName::CLR, true)),
    keyed!(b'D' b'C' b'A' b'S' b'E' => Mnemonic::One(OneName::CASE, true)),
    keyed!(b'D' b'C' b'Z' => Mnemonic::One(OneName::CZ, true)),
    keyed!(b'D' b'I' b'N' b'C' => Mnemonic::One(OneName::INC, true)),
    keyed!(b'D' b'D' b'E' b'C' => Mnemonic::One(OneName::DEC, true)),
    keyed!(b'D' b'I' b'N' b'C' b'T' => Mnemonic::One(OneName::INCT, true)),
    keyed!(b'D' b'D' b'E' b'C' b'T' => Mnemonic::One(OneName::DECT, true)),
];

/// The instructions with a byte or no operand, each after the number of its name.
const OTHERS: [(u64, Mnemonic); 10] = [
    keyed!(b'R' b'T' b'N' => Mnemonic::Plain(PlainOp::RTN)),
    keyed!(b'R' b'T' b'N' b'C' => Mnemonic::Plain(PlainOp::RTNC)),
    keyed!(b'H' => Mnemonic::Plain(PlainOp::H)),
    keyed!(b'G' b'T' => Mnemonic::Plain(PlainOp::GT)),
    keyed!(b'E' b'X' b'I' b'T' => Mnemonic::Plain(PlainOp::EXIT)),
    keyed!(b'C' b'A' b'R' b'R' b'Y' => Mnemonic::Plain(PlainOp::CARRY)),
    keyed!(b'O' b'V' b'F' => Mnemonic::Plain(PlainOp::OVF)),
    keyed!(b'R' b'A' b'N' b'D' => Mnemonic::Byte(ByteOp::RAND)),
    keyed!(b'B' b'A' b'C' b'K' => Mnemonic::Byte(ByteOp::BACK)),
    keyed!(b'A' b'L' b'L' => Mnemonic::Byte(ByteOp::ALL)),
];

/// The instruction that an operation field names, in upper or lower case (GPL Programmer's Guide, the statements).
pub(crate) fn mnemonic(text: &[u8]) -> Option<Mnemonic>
    ensures { result ≡ spec.mnemonic text.now }
{
    instruction_named(word_key(text)?)
}

/// The instruction whose name has a number. The tables are short, so that each search is compiled to tests, one a row,
/// and no loop.
fn instruction_named(key: u64) -> Option<Mnemonic>
    ensures { result ≡ with_key (Some key) named }
{
    if let Some(found) = named_in(&TWO, key) {
        return Some(found);
    }
    if let Some(found) = named_in(&TWO_WORDS, key) {
        return Some(found);
    }
    if let Some(found) = named_in(&ONE, key) {
        return Some(found);
    }
    if let Some(found) = named_in(&ONE_WORD, key) {
        return Some(found);
    }
    named_in(&OTHERS, key)
}
