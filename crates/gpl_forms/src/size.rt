//! How many bytes an instruction has in its shortest spelling.
ghost use Rattle.std.specs.Prelude.{◌≡◌, ◌≤◌, length};
ghost use Rattle.gpl_defs.specs.Bytes as spec;
ghost use Rattle.gpl_forms.specs.Sizes as sizes;

use crate::write::{fits_one_byte, fits_twelve_bits};
use base_defs::GROM_SIZE;
use gpl_defs::{GplInstr, GplOperand, GplSource, MoveLength, MoveSource, MoveTarget};

/// How many bytes an instruction has in its shortest spelling.
/// GPL Programmer's Guide, the statements.
pub fn size_of(instr: &GplInstr) -> u32
    ensures value { result ≡ length (spec.bytes_of instr.now) }
    ensures few { result ≤ 13 }
{
    match instr {
        GplInstr::Plain(_) => 1,
        GplInstr::Byte { .. } | GplInstr::Branch { .. } => 2,
        GplInstr::Jump { .. } => 3,
        GplInstr::One { at, .. } => 1 + operand_size(at),
        GplInstr::Two { word, dst, src, .. } => 1 + operand_size(dst) + source_size(*word, src),
        GplInstr::Move {
            length,
            target,
            source,
        } => 1 + length_size(length) + target_size(target) + from_size(source),
    }
}

/// How many bytes lie from an address up to one after it in the same GROM.
pub fn size_between(at: u16, next: u16) -> u32
    ensures { result ≡ sizes.size_between at next }
{
    u32::from(next.wrapping_sub(at) % GROM_SIZE)
}

/// How many bytes a source has.
fn source_size(word: bool, src: &GplSource) -> u32
    ensures value { result ≡ length (spec.source_bytes word src.now) }
    ensures few { result ≤ 4 }
{
    match src {
        GplSource::At(operand) => operand_size(operand),
        GplSource::Immediate(_) => { if word { 2 } else { 1 } }
    }
}

/// How many bytes a length of MOVE has.
fn length_size(count: &MoveLength) -> u32
    ensures value { result ≡ length (spec.length_bytes count.now) }
    ensures few { result ≤ 4 }
{
    match count {
        MoveLength::At(operand) => operand_size(operand),
        MoveLength::Immediate(_) => 2,
    }
}

/// How many bytes a target of MOVE has.
fn target_size(target: &MoveTarget) -> u32
    ensures value { result ≡ length (spec.target_bytes target.now) }
    ensures few { result ≤ 4 }
{
    match target {
        MoveTarget::At(operand) => operand_size(operand),
        MoveTarget::Register(_) => 1,
    }
}

/// How many bytes a source of MOVE has.
fn from_size(source: &MoveSource) -> u32
    ensures value { result ≡ length (spec.from_bytes source.now) }
    ensures few { result ≤ 4 }
{
    match source {
        MoveSource::At(operand) => operand_size(operand),
        MoveSource::Grom(_) => 2,
        MoveSource::GromIndexed(..) => 3,
    }
}

/// How many bytes an operand has.
fn operand_size(operand: &GplOperand) -> u32
    ensures value { result ≡ length (spec.operand_bytes operand.now) }
    ensures few { result ≤ 4 }
{
    if fits_one_byte(operand) {
        1
    } else if fits_twelve_bits(operand) {
        2 + index_size(operand.index)
    } else {
        3 + index_size(operand.index)
    }
}

/// How many bytes an index has.
fn index_size(index: Option<u8>) -> u32
    ensures value { result ≡ length (spec.index_bytes index) }
    ensures few { result ≤ 1 }
{
    match index {
        Some(_) => 1,
        None => 0,
    }
}
