//! Why a line of an assembler source is refused.

use expression_defs::ExprError;
use instruction_defs::FormError;
use source_defs::TextError;

/// Why a line of an assembler source is refused. No inner error is its `Memory`.
#[derive(Clone, Copy, Debug, PartialEq, Eq)]
pub enum AsmCause {
    /// The line has no fields.
    Text(TextError),
    /// An expression of a directive is refused.
    Expr(ExprError),
    /// An instruction is refused, or a directive by the same rule.
    Form(FormError),
    /// The label, or a name of REF, stands for something already, or REF names it twice or names the label.
    DuplicateLabel,
    /// EQU without a label; IDT or TITL without a quoted text; a module name that is none; a name that DEF names twice,
    /// or that REF names too.
    BadDirective,
    /// A location past the end of its part, the 257th name of DEF or of REF, or the 32,769th word.
    Overflow,
    /// A byte that was placed before.
    Overlap,
}
