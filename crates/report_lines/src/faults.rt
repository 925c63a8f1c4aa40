//! The lines that standard error gets of a source that is refused.

ghost use Rattle.std.specs.Prelude.{◌≡◌, ◌≤◌, length};
ghost use Rattle.arrayvec.specs.ArrayVec.{array_vec_len};
ghost use Rattle.report_defs.specs.FaultLine as faults;
ghost use Rattle.report_defs.specs.SourceFaults as spec;

use crate::line::{Line, append, append_count};
use asm_defs::AsmCause;
use expression_defs::ExprError;
use gpl_source_defs::GplCause;
use instruction_defs::FormError;
use source_defs::TextError;

/// The line of a refused line of an assembler source, by its number, from 1. It has room for a file's name before it.
pub fn asm_line(number: u32, cause: AsmCause) -> Line
    ensures line { result.items ≡ spec.asm_line (record { line = number; cause = cause }) }
    ensures short { array_vec_len result ≤ 128 }
{
    refusal_line(number, asm_cause_text(cause))
}

/// The line of a refused line of a GPL source, by its number, from 1.
pub fn gpl_line(number: u32, cause: GplCause) -> Line
    ensures { result.items ≡ spec.gpl_line (record { line = number; cause = cause }) }
{
    refusal_line(number, gpl_cause_text(cause))
}

/// The text of a refused line, by its number, from 1, in at most 64 bytes. It has room for a file's name before it.
#[tactic(auto, using(std::proofs::Common::append_assoc), unfolding(report_defs::specs::FaultLine::refusal_line))]
pub fn refusal_line(number: u32, text: &[u8]) -> Line
    requires { length text.now ≤ 64 }
    ensures line { result.items ≡ faults.refusal_line number text.now }
    ensures short { array_vec_len result ≤ 128 }
{
    let mut line = Line::new();
    append(&mut line, b"line ");
    append_count(&mut line, u64::from(number));
    append(&mut line, b": ");
    append(&mut line, text);
    line.push(b'\n');
    line
}

fn asm_cause_text(cause: AsmCause) -> &'static [u8]
    ensures text { result.now ≡ spec.asm_cause_text cause }
    ensures short { length result.now ≤ 64 }
{
    match cause {
        AsmCause::Text(error) => text_error_text(error),
        AsmCause::Expr(error) => expr_error_text(error),
        AsmCause::Form(error) => form_error_text(error),
        AsmCause::DuplicateLabel => b"duplicate label",
        AsmCause::BadDirective => b"bad directive",
        AsmCause::Overflow => b"out of room",
        AsmCause::Overlap => b"overlap",
    }
}

fn gpl_cause_text(cause: GplCause) -> &'static [u8]
    ensures text { result.now ≡ spec.gpl_cause_text cause }
    ensures short { length result.now ≤ 64 }
{
    match cause {
        GplCause::UnknownOperation => b"unknown operation",
        GplCause::OperandCount => b"operand count",
        GplCause::BadOperand => b"bad operand",
        GplCause::OtherGrom => b"other grom",
        GplCause::GromFull => b"out of room",
        GplCause::DuplicateLabel => b"duplicate label",
        GplCause::Expr(error) => expr_error_text(error),
        GplCause::Text(error) => text_error_text(error),
        GplCause::Overlap => b"overlap",
        GplCause::BadDirective => b"bad directive",
    }
}

fn text_error_text(error: TextError) -> &'static [u8]
    ensures text { result.now ≡ spec.text_error_text error }
    ensures short { length result.now ≤ 64 }
{
    match error {
        TextError::LineTooLong => b"line too long",
        TextError::BadLabel => b"bad label",
    }
}

fn expr_error_text(error: ExprError) -> &'static [u8]
    ensures text { result.now ≡ spec.expr_error_text error }
    ensures short { length result.now ≤ 64 }
{
    match error {
        ExprError::BadToken => b"bad token",
        ExprError::UnknownName => b"unknown name",
        ExprError::BadRelocation => b"bad relocation",
        ExprError::TooLarge => b"number too large",
        ExprError::DivideByZero => b"division by zero",
        ExprError::Memory => b"out of memory",
    }
}

fn form_error_text(error: FormError) -> &'static [u8]
    ensures text { result.now ≡ spec.form_error_text error }
    ensures short { length result.now ≤ 64 }
{
    match error {
        FormError::UnknownOperation => b"unknown operation",
        FormError::OperandCount => b"operand count",
        FormError::BadOperand => b"bad operand",
        FormError::JumpTooFar => b"jump too far",
        FormError::Expr(error) => expr_error_text(error),
        FormError::Memory => b"out of memory",
    }
}
