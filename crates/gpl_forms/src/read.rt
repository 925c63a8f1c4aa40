//! The instruction at an address of GROM.
//!
//! Each `read_` function of an operand gives what it reads from an address on, and the address after its bytes.
ghost use Rattle.std.specs.Prelude.{◌≡◌, ◌/◌, ◌%◌, ◌==◌, ℕ, length, slice_index, IsSome};
ghost use Rattle.gpl_defs.specs.Codes.{operation_at};
ghost use Rattle.gpl_defs.specs.Reading as spec;

use crate::operations::operation_at;
use crate::write::write_instr;
use gpl_defs::{
    GplInstr, GplOperand, GplOperation, GplRead, GplSource, MoveKind, MoveLength, MoveSource,
    MoveTarget, Space,
};
use memory_basics::{holds_bytes, next_in_grom};

/// The instruction at an address of 65,536 bytes, in any of its spellings, with the address after it; or the code
/// byte there, exactly where it is no instruction's. After the last address of a GROM comes its first.
/// GPL Programmer's Guide, the statements.
pub fn read_instr(image: &[u8], at: u16) -> GplRead
    requires { length image.now ≡ 65536 }
    ensures value { result ≡ spec.reading image.now at }
    // an instruction is what the bytes there mean, in the relation of spellings
    ensures means { spec.IsReadAt image.now at result }
{
    holds_bytes(image);
    read_at(image, at)
}

/// Whether the instruction at an address of 65,536 bytes, whose code byte is one, is there in its shortest
/// spelling.
/// GPL Programmer's Guide, the statements.
pub fn is_shortest(image: &[u8], at: u16) -> bool
    requires size { length image.now ≡ 65536 }
    requires kept { IsSome (operation_at (slice_index image.now at)) }
    ensures { result ≡ spec.is_shortest image.now at }
{
    match read_instr(image, at) {
        GplRead::Instr { instr, .. } => holds_bytes_at(image, write_instr(&instr).as_slice(), at),
        GplRead::Refused(_) => false,
    }
}

/// Whether bytes stand from an address of 65,536 bytes on, one after the other in one GROM: after its last address
/// comes its first. GPL Programmer's Guide, on the GROM address counter.
pub fn holds_bytes_at(image: &[u8], bytes: &[u8], at: u16) -> bool
    requires { length image.now ≡ 65536 }
    ensures { result ≡ spec.are_bytes_at image.now bytes.now at }
{
    let mut place = at;
    for byte in bytes {
        if image[usize::from(place)] != *byte {
            return false;
        }
        place = next_in_grom(place);
    }
    true
}

/// What is read at an address.
#[tactic(auto, unfolding(gpl_defs::specs::Reading::reading))]
fn read_at(image: &[u8], at: u16) -> GplRead
    requires { length image.now ≡ 65536 }
    ensures { result ≡ spec.reading image.now at }
{
    let code = image[usize::from(at)];
    match operation_at(code) {
        Some(operation) => {
            let (instr, next) = read_operands(operation, code, image, next_in_grom(at));
            GplRead::Instr { instr, next }
        }
        None => GplRead::Refused(code),
    }
}

/// The instruction with a code byte whose operands begin at an address.
fn read_operands(operation: GplOperation, code: u8, image: &[u8], at: u16) -> (GplInstr, u16)
    requires { length image.now ≡ 65536 }
    ensures { result ≡ spec.instr_at operation code image.now at }
{
    let word = code % 2 == 1;
    match operation {
        GplOperation::Plain(op) => (GplInstr::Plain(op), at),
        GplOperation::Byte(op) => (
            GplInstr::Byte {
                op,
                value: image[usize::from(at)],
            },
            next_in_grom(at),
        ),
        GplOperation::Jump(op) => {
            let (to, next) = read_word(image, at);
            (GplInstr::Jump { op, to }, next)
        }
        GplOperation::Branch(on) => {
            let offset = u16::from_be_bytes([code % 32, image[usize::from(at)]]);
            (GplInstr::Branch { on, offset }, next_in_grom(at))
        }
        GplOperation::One(op) => {
            let (at, next) = read_operand(image, at);
            (GplInstr::One { op, word, at }, next)
        }
        GplOperation::Two(op) => {
            let (dst, after) = read_operand(image, at);
            let (src, next) = read_source(code / 2 % 2 == 1, word, image, after);
            (GplInstr::Two { op, word, dst, src }, next)
        }
        GplOperation::Move(kind) => read_move(kind, word, image, at),
    }
}

/// MOVE, with an immediate length or one in memory.
fn read_move(kind: MoveKind, immediate: bool, image: &[u8], at: u16) -> (GplInstr, u16)
    requires { length image.now ≡ 65536 }
    ensures { result ≡ spec.move_at kind immediate image.now at }
{
    let (length, after_length) = read_length(immediate, image, at);
    let (target, after_target) = read_target(kind, image, after_length);
    let (source, next) = read_from(kind, image, after_target);
    let instr = GplInstr::Move {
        length,
        target,
        source,
    };
    (instr, next)
}

/// A length of MOVE.
fn read_length(immediate: bool, image: &[u8], at: u16) -> (MoveLength, u16)
    requires { length image.now ≡ 65536 }
    ensures { result ≡ spec.length_at immediate image.now at }
{
    if immediate {
        let (count, next) = read_word(image, at);
        (MoveLength::Immediate(count), next)
    } else {
        let (operand, next) = read_operand(image, at);
        (MoveLength::At(operand), next)
    }
}

/// A target of MOVE.
fn read_target(kind: MoveKind, image: &[u8], at: u16) -> (MoveTarget, u16)
    requires { length image.now ≡ 65536 }
    ensures { result ≡ spec.target_at kind image.now at }
{
    if let MoveKind::GromToRegisters = kind {
        (
            MoveTarget::Register(image[usize::from(at)]),
            next_in_grom(at),
        )
    } else {
        let (operand, next) = read_operand(image, at);
        (MoveTarget::At(operand), next)
    }
}

/// A source of MOVE.
fn read_from(kind: MoveKind, image: &[u8], at: u16) -> (MoveSource, u16)
    requires { length image.now ≡ 65536 }
    ensures { result ≡ spec.from_at kind image.now at }
{
    if let MoveKind::MemoryToMemory = kind {
        let (operand, next) = read_operand(image, at);
        return (MoveSource::At(operand), next);
    }
    let (address, after) = read_word(image, at);
    match kind {
        MoveKind::GromIndexedToMemory => (
            MoveSource::GromIndexed(address, image[usize::from(after)]),
            next_in_grom(after),
        ),
        _ => (MoveSource::Grom(address), after),
    }
}

/// The second operand, immediate or in memory, of an instruction of words or of bytes.
fn read_source(immediate: bool, word: bool, image: &[u8], at: u16) -> (GplSource, u16)
    requires { length image.now ≡ 65536 }
    ensures { result ≡ spec.source_at immediate word image.now at }
{
    if immediate && word {
        let (value, next) = read_word(image, at);
        (GplSource::Immediate(value), next)
    } else if immediate {
        (
            GplSource::Immediate(u16::from(image[usize::from(at)])),
            next_in_grom(at),
        )
    } else {
        let (operand, next) = read_operand(image, at);
        (GplSource::At(operand), next)
    }
}

/// An operand in memory, in any of its spellings.
#[tactic(auto, unfolding(gpl_defs::specs::Reading::operand_at))]
fn read_operand(image: &[u8], at: u16) -> (GplOperand, u16)
    requires { length image.now ≡ 65536 }
    ensures { result ≡ spec.operand_at image.now at }
{
    let first = image[usize::from(at)];
    let after = next_in_grom(at);
    if first < 0x80 {
        let operand = GplOperand {
            space: Space::Cpu,
            indirect: false,
            address: u16::from(first),
            index: None,
        };
        return (operand, after);
    }
    let (address, after_address) = read_address(first, image, after);
    let (index, next) = read_index(first / 64 % 2 == 1, image, after_address);
    let operand = GplOperand {
        space: read_space(first),
        indirect: first / 16 % 2 == 1,
        address,
        index,
    };
    (operand, next)
}

/// The space of an operand by its first byte.
fn read_space(first: u8) -> Space
    ensures { result ≡ spec.space_of (first / 32 % 2 == 1) }
{
    if first / 32 % 2 == 1 {
        Space::Vdp
    } else {
        Space::Cpu
    }
}

/// The address of an operand after its first byte, whose low four bits begin it unless they are ones.
fn read_address(first: u8, image: &[u8], at: u16) -> (u16, u16)
    requires { length image.now ≡ 65536 }
    ensures { result ≡ spec.address_at first image.now at }
{
    if first % 16 == 15 {
        return read_word(image, at);
    }
    let address = u16::from_be_bytes([first % 16, image[usize::from(at)]]);
    (address, next_in_grom(at))
}

/// The index of an operand after its address, if it has one.
fn read_index(is_there: bool, image: &[u8], at: u16) -> (Option<u8>, u16)
    requires { length image.now ≡ 65536 }
    ensures { result ≡ spec.index_by is_there image.now at }
{
    if is_there {
        (Some(image[usize::from(at)]), next_in_grom(at))
    } else {
        (None, at)
    }
}

/// A word, its high byte first.
fn read_word(image: &[u8], at: u16) -> (u16, u16)
    requires { length image.now ≡ 65536 }
    ensures { result ≡ spec.word_at image.now at }
{
    let after = next_in_grom(at);
    let word = u16::from_be_bytes([image[usize::from(at)], image[usize::from(after)]]);
    (word, next_in_grom(after))
}
