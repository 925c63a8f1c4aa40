//! How many words an instruction has.

ghost use Rattle.std.specs.Prelude.{◌≡◌, ◌≤◌};
ghost use Rattle.instruction_defs.specs.Operands as spec;

use tms_defs::{BareOp, ImmOp, Instr, Place};

/// How many words an instruction has: its first, and the words of its operands.
pub(crate) fn size_in_words(instr: &Instr) -> u8
    ensures words { result ≡ spec.size_in_words instr.now }
    ensures some { (1 ≤ result) × (result ≤ 3) }
{
    match *instr {
        Instr::Two { dst, src, .. } => 1 + following_words(src) + following_words(dst),
        Instr::Reg { src, .. } => 1 + following_words(src),
        Instr::One { at, .. } => 1 + following_words(at),
        Instr::Imm { op, .. } => 1 + u8::from(has_immediate(op)),
        Instr::Bare { op } => 1 + u8::from(has_value(op)),
        Instr::Shift { .. } | Instr::Jump { .. } => 1,
    }
}

/// How many words follow for an operand.
pub(crate) fn following_words(place: Place) -> u8
    ensures words { result ≡ spec.following_words place }
    ensures limit { result ≤ 1 }
{
    u8::from(place.mode == 2)
}

/// Whether an operation on a register takes a word that follows.
pub(crate) fn has_immediate(op: ImmOp) -> bool
    ensures { result ≡ spec.has_immediate op }
{
    !matches!(op, ImmOp::STWP | ImmOp::STST)
}

/// Whether an operation without register takes a word that follows.
pub(crate) fn has_value(op: BareOp) -> bool
    ensures { result ≡ spec.has_value op }
{
    matches!(op, BareOp::LWPI | BareOp::LIMI)
}
