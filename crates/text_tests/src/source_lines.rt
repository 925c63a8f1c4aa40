//! Lines of a source that are given one at a time. What whole sources give is in `tests/rows`.

use asm_core::{AsmCause, AsmError, AsmLines};
use expression_defs::ExprError;
use instruction_defs::FormError;
use std::alloc::Global;
use std::test::Fail;

/// The refusal of the second line.
const UNKNOWN_OPERATION: AsmError = AsmError::At {
    line: 2,
    cause: AsmCause::Form(FormError::UnknownOperation),
};

/// The refusal of the first line.
const UNKNOWN_NAME: AsmError = AsmError::At {
    line: 1,
    cause: AsmCause::Expr(ExprError::UnknownName),
};

/// A builder that has taken a line whose name is not known yet, and then refuses one.
fn refuses_a_line(alloc: Global) -> bool {
    let mut builder = AsmLines::new(alloc);
    if builder.line(b" DATA Q").is_err() || builder.is_ended() || builder.taken() != 1 {
        return false;
    }
    if builder.line(b" FOO").err() != Some(UNKNOWN_OPERATION) || builder.taken() != 1 {
        return false;
    }
    match builder.finish() {
        Ok(_) => false,
        Err(error) => error == UNKNOWN_NAME,
    }
}

#[test]
fn takes_lines_one_at_a_time(rt: HostRuntime) -> Result<(), Fail> {
    assert!(rt; refuses_a_line(rt.alloc()));
    Ok(())
}
