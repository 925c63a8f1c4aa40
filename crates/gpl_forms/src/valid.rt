//! Which instructions have bytes.
ghost use Rattle.std.specs.Prelude.{◌≡◌};
ghost use Rattle.gpl_defs.specs.Valid as spec;

use base_defs::GROM_SIZE;
use gpl_defs::{GplInstr, GplSource, MoveSource, MoveTarget, OneName, TwoName};

/// Whether an instruction has bytes: the offset of a BR or BS is below `>2000`, FETCH and PUSH are no words, an
/// immediate source of a form of bytes is below 256, EX has no immediate source, and MOVE loads registers of the
/// video processor from GROM without an index.
pub fn is_valid(instr: &GplInstr) -> bool
    ensures { result ≡ spec.is_valid instr.now }
{
    match instr {
        GplInstr::Plain(_) | GplInstr::Byte { .. } | GplInstr::Jump { .. } => true,
        GplInstr::Branch { offset, .. } => *offset < GROM_SIZE,
        GplInstr::One { op, word, .. } => has_words(*op) || !*word,
        GplInstr::Two { op, word, src, .. } => is_valid_source(*op, *word, src),
        GplInstr::Move { target, source, .. } => is_valid_move(target, source),
    }
}

/// Whether an operation with one operand has a form of words.
fn has_words(op: OneName) -> bool
    ensures { result ≡ spec.has_words op }
{
    !matches!(op, OneName::FETCH | OneName::PUSH)
}

/// Whether an operation may have this source.
fn is_valid_source(op: TwoName, word: bool, src: &GplSource) -> bool
    ensures { result ≡ spec.is_valid_source op word src.now }
{
    match src {
        GplSource::At(_) => true,
        GplSource::Immediate(value) => has_immediate(op) && (word || *value < 256),
    }
}

/// Whether an operation with two operands may have an immediate source.
pub fn has_immediate(op: TwoName) -> bool
    ensures { result ≡ spec.has_immediate op }
{
    !matches!(op, TwoName::EX)
}

/// Whether MOVE may have this target and source.
fn is_valid_move(target: &MoveTarget, source: &MoveSource) -> bool
    ensures { result ≡ spec.is_valid_move target.now source.now }
{
    match target {
        MoveTarget::At(_) => true,
        MoveTarget::Register(_) => matches!(source, MoveSource::Grom(_)),
    }
}
