//! The bytes of an instruction in its shortest spelling.
ghost use Rattle.std.specs.Prelude.{◌≡◌, ◌+◌, ◌≤◌, ◌++◌, IsTrue, length, is_some};
ghost use Rattle.arrayvec.specs.ArrayVec.{array_vec_len};
ghost use Rattle.gpl_defs.specs.Bytes as spec;
ghost use Rattle.gpl_defs.specs.Reading.{AreReadAs};
ghost use Rattle.gpl_defs.specs.Spellings.{IsShortest};
ghost use Rattle.gpl_defs.specs.Valid.{is_valid};

use crate::operations::code_of;
use arrayvec::ArrayVec;
use gpl_defs::{
    GplInstr, GplOperand, GplOperation, GplSource, MoveKind, MoveLength, MoveSource, MoveTarget,
    Space,
};

/// The bytes of an instruction: no instruction has more.
type Bytes = ArrayVec<u8, 13>;

/// The bytes of a valid instruction in its shortest spelling.
/// GPL Programmer's Guide, the statements.
pub fn write_instr(instr: &GplInstr) -> ArrayVec<u8, 13>
    requires { IsTrue (is_valid instr.now) }
    ensures value { result.items ≡ spec.bytes_of instr.now }
    // of all spellings of the instruction these are the fewest bytes
    ensures shortest { IsShortest instr.now result.items }
    ensures read { AreReadAs instr.now result.items }
{
    written(instr)
}

/// The code byte and the operands of a valid instruction.
fn written(instr: &GplInstr) -> Bytes
    requires { IsTrue (is_valid instr.now) }
    ensures { result.items ≡ spec.bytes_of instr.now }
{
    let mut bytes = Bytes::new();
    bytes.push(code_of(operation_of(instr)) + variant_of(instr));
    push_operands(&mut bytes, instr);
    bytes
}

/// The row of the table of codes.
fn operation_of(instr: &GplInstr) -> GplOperation
    ensures { result ≡ spec.operation_of instr.now }
{
    match instr {
        GplInstr::Plain(op) => GplOperation::Plain(*op),
        GplInstr::Byte { op, .. } => GplOperation::Byte(*op),
        GplInstr::Jump { op, .. } => GplOperation::Jump(*op),
        GplInstr::Branch { on, .. } => GplOperation::Branch(*on),
        GplInstr::One { op, .. } => GplOperation::One(*op),
        GplInstr::Two { op, .. } => GplOperation::Two(*op),
        GplInstr::Move { target, source, .. } => GplOperation::Move(kind_of(target, source)),
    }
}

/// The form of MOVE by its target and source.
fn kind_of(target: &MoveTarget, source: &MoveSource) -> MoveKind
    ensures { result ≡ spec.kind_of target.now source.now }
{
    match (target, source) {
        (MoveTarget::Register(_), _) => MoveKind::GromToRegisters,
        (MoveTarget::At(_), MoveSource::Grom(_)) => MoveKind::GromToMemory,
        (MoveTarget::At(_), MoveSource::GromIndexed(..)) => MoveKind::GromIndexedToMemory,
        (MoveTarget::At(_), MoveSource::At(_)) => MoveKind::MemoryToMemory,
    }
}

/// Which of the code bytes of its row a valid instruction has.
fn variant_of(instr: &GplInstr) -> u8
    requires { IsTrue (is_valid instr.now) }
    ensures value { result ≡ spec.variant_of instr.now }
    ensures small { result ≤ 31 }
{
    match instr {
        GplInstr::Plain(_) | GplInstr::Byte { .. } | GplInstr::Jump { .. } => 0,
        GplInstr::Branch { offset, .. } => {
            let [high, _] = offset.to_be_bytes();
            high
        }
        GplInstr::One { word, .. } => u8::from(*word),
        GplInstr::Two { word, src, .. } => 2 * u8::from(is_immediate(src)) + u8::from(*word),
        GplInstr::Move { length, .. } => u8::from(is_counted(length)),
    }
}

/// Whether a source is immediate.
fn is_immediate(src: &GplSource) -> bool
    ensures { result ≡ spec.is_immediate src.now }
{
    matches!(src, GplSource::Immediate(_))
}

/// Whether a length is immediate.
fn is_counted(length: &MoveLength) -> bool
    ensures { result ≡ spec.is_counted length.now }
{
    matches!(length, MoveLength::Immediate(_))
}

/// Appends the operands of a valid instruction after its code byte.
fn push_operands(bytes: &mut Bytes, instr: &GplInstr)
    requires valid { IsTrue (is_valid instr.now) }
    requires room { array_vec_len bytes.old ≤ 1 }
    ensures { bytes.new.items ≡ bytes.old.items ++ spec.rest_of instr.now }
{
    match instr {
        GplInstr::Plain(_) => {}
        GplInstr::Byte { value, .. } => bytes.push(*value),
        GplInstr::Jump { to, .. } => push_word(bytes, *to),
        GplInstr::Branch { offset, .. } => {
            let [_, low] = offset.to_be_bytes();
            bytes.push(low);
        }
        GplInstr::One { at, .. } => push_operand(bytes, at),
        GplInstr::Two { word, dst, src, .. } => {
            push_operand(bytes, dst);
            push_source(bytes, *word, src);
        }
        GplInstr::Move {
            length,
            target,
            source,
        } => {
            push_length(bytes, length);
            push_target(bytes, target);
            push_from(bytes, source);
        }
    }
}

/// Appends a source, an immediate one as a byte or a word.
fn push_source(bytes: &mut Bytes, word: bool, src: &GplSource)
    requires fits { spec.FitsSource word src.now }
    requires room { array_vec_len bytes.old ≤ 9 }
    ensures items { bytes.new.items ≡ bytes.old.items ++ spec.source_bytes word src.now }
{
    match src {
        GplSource::At(operand) => push_operand(bytes, operand),
        GplSource::Immediate(value) => {
            if word {
                push_word(bytes, *value);
            } else {
                bytes.push(*value as u8);
            }
        }
    }
}

/// Appends a length of MOVE.
fn push_length(bytes: &mut Bytes, length: &MoveLength)
    requires { array_vec_len bytes.old ≤ 9 }
    ensures items { bytes.new.items ≡ bytes.old.items ++ spec.length_bytes length.now }
    ensures size { array_vec_len bytes.new ≤ array_vec_len bytes.old + 4 }
{
    match length {
        MoveLength::At(operand) => push_operand(bytes, operand),
        MoveLength::Immediate(count) => push_word(bytes, *count),
    }
}

/// Appends a target of MOVE.
fn push_target(bytes: &mut Bytes, target: &MoveTarget)
    requires { array_vec_len bytes.old ≤ 9 }
    ensures items { bytes.new.items ≡ bytes.old.items ++ spec.target_bytes target.now }
    ensures size { array_vec_len bytes.new ≤ array_vec_len bytes.old + 4 }
{
    match target {
        MoveTarget::At(operand) => push_operand(bytes, operand),
        MoveTarget::Register(number) => bytes.push(*number),
    }
}

/// Appends a source of MOVE.
fn push_from(bytes: &mut Bytes, source: &MoveSource)
    requires { array_vec_len bytes.old ≤ 9 }
    ensures items { bytes.new.items ≡ bytes.old.items ++ spec.from_bytes source.now }
{
    match source {
        MoveSource::At(operand) => push_operand(bytes, operand),
        MoveSource::Grom(address) => push_word(bytes, *address),
        MoveSource::GromIndexed(address, index) => {
            push_word(bytes, *address);
            bytes.push(*index);
        }
    }
}

/// Appends an operand, in one byte, with twelve bits of address, or with sixteen.
fn push_operand(bytes: &mut Bytes, operand: &GplOperand)
    requires { array_vec_len bytes.old ≤ 9 }
    ensures items { bytes.new.items ≡ bytes.old.items ++ spec.operand_bytes operand.now }
    ensures size { array_vec_len bytes.new ≤ array_vec_len bytes.old + 4 }
{
    if fits_one_byte(operand) {
        bytes.push(operand.address as u8);
    } else if fits_twelve_bits(operand) {
        let [high, low] = operand.address.to_be_bytes();
        bytes.push(form_bits(operand) + high);
        bytes.push(low);
        push_index(bytes, operand.index);
    } else {
        bytes.push(form_bits(operand) + 15);
        push_word(bytes, operand.address);
        push_index(bytes, operand.index);
    }
}

/// Whether an operand may be spelled in one byte.
pub(crate) fn fits_one_byte(operand: &GplOperand) -> bool
    ensures { result ≡ spec.fits_one_byte operand.now }
{
    !is_vdp(operand.space) && !operand.indirect && operand.index.is_none() && operand.address < 0x80
}

/// Whether the address of an operand may have twelve bits.
pub(crate) fn fits_twelve_bits(operand: &GplOperand) -> bool
    ensures { result ≡ spec.fits_twelve_bits operand.now }
{
    operand.address < 0x0F00
}

/// Whether a space is the video processor's.
fn is_vdp(space: Space) -> bool
    ensures { result ≡ spec.is_vdp space }
{
    matches!(space, Space::Vdp)
}

/// The bits of an operand's first byte that say what it is.
fn form_bits(operand: &GplOperand) -> u8
    ensures value { result ≡ spec.form_bits operand.now }
    ensures room { result ≤ 0xF0 }
{
    let index = u8::from(operand.index.is_some());
    let vdp = u8::from(is_vdp(operand.space));
    0x80 + index * 0x40 + vdp * 0x20 + u8::from(operand.indirect) * 0x10
}

/// Appends the index byte, where there is one.
fn push_index(bytes: &mut Bytes, index: Option<u8>)
    requires { array_vec_len bytes.old ≤ 12 }
    ensures items { bytes.new.items ≡ bytes.old.items ++ spec.index_bytes index }
    ensures size { array_vec_len bytes.new ≤ array_vec_len bytes.old + 1 }
{
    if let Some(index) = index {
        bytes.push(index);
    }
}

/// Appends a word, its high byte first.
fn push_word(bytes: &mut Bytes, word: u16)
    requires { array_vec_len bytes.old ≤ 11 }
    ensures items { bytes.new.items ≡ bytes.old.items ++ spec.word_bytes word }
    ensures size { array_vec_len bytes.new ≡ array_vec_len bytes.old + 2 }
{
    let [high, low] = word.to_be_bytes();
    bytes.push(high);
    bytes.push(low);
}
