//! Why a line is not taken, before its number is known.

ghost use Rattle.std.specs.Prelude.{◌≡◌};
ghost use Rattle.asm_defs.specs.Growing as growing;
ghost use Rattle.asm_checks.specs.Answers.{expr_failure, form_failure, operand_failure};
ghost use Rattle.asm_checks.specs.declared.failure.Failure.TheVariants.{Memory};

use asm_defs::AsmCause;
use expression_defs::ExprError;
use instruction_defs::FormError;
use source_defs::OperandError;
use std::alloc::AllocError;

/// Why a line is not taken.
#[derive(Clone, Copy, PartialEq, Eq)]
pub enum Failure {
    /// The line is refused.
    Refused(AsmCause),
    /// Memory ran out.
    Memory,
}

impl From<AllocError> for Failure {
    ghost from_gives = { λ _ error. error ≡ Memory };

    fn from(_: AllocError) -> Self {
        Failure::Memory
    }
}

impl From<ExprError> for Failure {
    ghost from_gives = { λ error failure. failure ≡ expr_failure error };

    fn from(error: ExprError) -> Self {
        match error {
            ExprError::Memory => Failure::Memory,
            error => Failure::Refused(AsmCause::Expr(error)),
        }
    }
}

impl From<OperandError> for Failure {
    ghost from_gives = { λ error failure. failure ≡ operand_failure error };

    fn from(error: OperandError) -> Self {
        let error = match error {
            OperandError::Count => FormError::OperandCount,
            OperandError::Form => FormError::BadOperand,
        };
        Failure::Refused(AsmCause::Form(error))
    }
}

impl From<FormError> for Failure {
    ghost from_gives = { λ error failure. failure ≡ form_failure error };

    fn from(error: FormError) -> Self {
        match error {
            FormError::Memory | FormError::Expr(ExprError::Memory) => Failure::Memory,
            error => Failure::Refused(AsmCause::Form(error)),
        }
    }
}

/// Whether a refusal may be lifted by names that are still to come.
pub fn is_unresolved(cause: AsmCause) -> bool
    ensures { result ≡ growing.is_unresolved cause }
{
    matches!(
        cause,
        AsmCause::Expr(ExprError::UnknownName)
            | AsmCause::Form(FormError::Expr(ExprError::UnknownName))
    )
}
