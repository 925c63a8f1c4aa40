//! Lines of a GPL source that are given one at a time. What whole sources give is in `tests/rows`.

use expression_defs::ExprError;
use gpl_asm::{GplCause, GplError, GplLines};
use std::alloc::Global;
use std::test::Fail;

/// A builder that has taken two lines, of which the first needs the name of the second.
fn takes_a_forward_branch(alloc: Global) -> bool {
    let mut builder = match GplLines::new(alloc) {
        Ok(builder) => builder,
        Err(_) => return false,
    };
    if builder.line(b" BR T").is_err() || builder.is_ended() || builder.taken() != 1 {
        return false;
    }
    if builder.line(b"T EXIT").is_err() || builder.taken() != 2 {
        return false;
    }
    match builder.finish() {
        Ok(program) => program.image.written() == [0x40, 0x02, 0x0B].as_slice(),
        Err(_) => false,
    }
}

/// The refusal of the second line.
const UNKNOWN_OPERATION: GplError = GplError::At {
    line: 2,
    cause: GplCause::UnknownOperation,
};

/// The refusal of the first line.
const UNKNOWN_NAME: GplError = GplError::At {
    line: 1,
    cause: GplCause::Expr(ExprError::UnknownName),
};

/// A builder that has taken a line whose name is not known yet, and then refuses one.
fn refuses_a_line(alloc: Global) -> bool {
    let mut builder = match GplLines::new(alloc) {
        Ok(builder) => builder,
        Err(_) => return false,
    };
    if builder.line(b" DATA Q").is_err() || builder.is_ended() || builder.taken() != 1 {
        return false;
    }
    if builder.line(b"Q FMT").err() != Some(UNKNOWN_OPERATION) || builder.taken() != 1 {
        return false;
    }
    match builder.finish() {
        Ok(_) => false,
        Err(error) => error == UNKNOWN_NAME,
    }
}

#[test]
fn takes_lines_one_at_a_time(rt: HostRuntime) -> Result<(), Fail> {
    assert!(rt; takes_a_forward_branch(rt.alloc()));
    assert!(rt; refuses_a_line(rt.alloc()));
    Ok(())
}
