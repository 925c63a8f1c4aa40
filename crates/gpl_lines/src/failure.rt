//! Why a line is refused, before its number is known.

ghost use Rattle.std.specs.Prelude.{◌≡◌};
ghost use Rattle.gpl_source_defs.specs.Skeletons.{operand_cause};
ghost use Rattle.gpl_lines.specs.Answers.{expr_failure};
ghost use Rattle.gpl_lines.specs.declared.failure.Failure.TheVariants.{Refused, Memory};

use expression_defs::ExprError;
use gpl_source_defs::GplCause;
use source_defs::OperandError;
use std::alloc::AllocError;

/// Why a line is not taken.
#[derive(Clone, Copy, PartialEq, Eq)]
pub enum Failure {
    /// The line is refused.
    Refused(GplCause),
    /// Memory ran out.
    Memory,
}

impl From<AllocError> for Failure {
    ghost from_gives = { λ _ failure. failure ≡ Memory };

    fn from(_: AllocError) -> Self {
        Failure::Memory
    }
}

impl From<GplCause> for Failure {
    ghost from_gives = { λ cause failure. failure ≡ Refused cause };

    fn from(cause: GplCause) -> Self {
        Failure::Refused(cause)
    }
}

impl From<OperandError> for Failure {
    ghost from_gives = { λ error failure. failure ≡ Refused (operand_cause error) };

    fn from(error: OperandError) -> Self {
        match error {
            OperandError::Count => Failure::Refused(GplCause::OperandCount),
            OperandError::Form => Failure::Refused(GplCause::BadOperand),
        }
    }
}

impl From<ExprError> for Failure {
    ghost from_gives = { λ error failure. failure ≡ expr_failure error };

    fn from(error: ExprError) -> Self {
        match error {
            ExprError::Memory => Failure::Memory,
            error => Failure::Refused(GplCause::Expr(error)),
        }
    }
}
