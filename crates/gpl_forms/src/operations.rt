//! The rows of the table of operations, by operation and by code byte.

ghost use Rattle.std.specs.Prelude.{◌≡◌, ◌≤◌, ◌<◌, ◌+◌, ◌&&◌, [], length, map, nat_le, nat_lt, slice_index_or};
ghost use Rattle.gpl_defs.specs.Codes as spec;
ghost use Rattle.gpl_forms.specs.Operations.{IsRowAt, operation_in};

use gpl_defs::{GplOperation, OPERATIONS};

/// The name of an operation, in its form of bytes.
pub fn name_of(operation: GplOperation) -> &'static str
    ensures name { result.now ≡ (spec.row_of operation).name }
    ensures size { length result.now ≤ 5 }
{
    name_in(&OPERATIONS, place_of(operation))
}

/// The first code byte of an operation.
pub(crate) fn code_of(operation: GplOperation) -> u8
    ensures value { result ≡ (spec.row_of operation).code }
    ensures room { (spec.row_of operation).code + (spec.row_of operation).count ≤ 256 }
{
    code_in(&OPERATIONS, place_of(operation))
}

/// The name in a row.
fn name_in(rows: &[(&'static str, u8, u8, GplOperation)], place: usize) -> &'static str
    requires { place < length rows.now }
    ensures { result.now ≡ slice_index_or (map (λ row. row.0.now) rows.now) place [] }
{
    rows[place].0
}

/// The first code byte in a row.
fn code_in(rows: &[(&str, u8, u8, GplOperation)], place: usize) -> u8
    requires { place < length rows.now }
    ensures { result ≡ slice_index_or (map (λ row. row.1) rows.now) place 0 }
{
    rows[place].1
}

/// The place of an operation's row: in the rows of its form of operands it is the place that it has in its type.
fn place_of(operation: GplOperation) -> usize
    ensures { IsRowAt result operation }
{
    match operation {
        GplOperation::Plain(op) => op as usize,
        GplOperation::Byte(op) => 7 + op as usize,
        GplOperation::Jump(op) => 10 + op as usize,
        GplOperation::Branch(on) => 12 + usize::from(on),
        GplOperation::One(op) => 14 + op as usize,
        GplOperation::Two(op) => 26 + op as usize,
        GplOperation::Move(kind) => 45 + kind as usize,
    }
}

/// The operation that a code byte belongs to, and None exactly where it belongs to none. GPL Programmer's Guide, the
/// statements and their codes.
pub fn operation_at(code: u8) -> Option<GplOperation>
    ensures { result ≡ spec.operation_at code }
{
    operation_in(&OPERATIONS, code)
}

/// The operation that a code byte belongs to in rows of the table.
fn operation_in(mut rows: &[(&str, u8, u8, GplOperation)], code: u8) -> Option<GplOperation>
    ensures { result ≡ operation_in (map (λ row. (row.1, row.2, row.3)) rows.entry.now) code }
{
    while let [(_, first, count, operation), rest @ ..] = rows {
        if has_code(*first, *count, code) {
            return Some(*operation);
        }
        rows = rest;
    }
    None
}

/// Whether a code byte is one of some that follow one another from the first on.
fn has_code(first: u8, count: u8, code: u8) -> bool
    ensures { result ≡ (nat_le first code && nat_lt code (first + count)) }
{
    u32::from(code).wrapping_sub(u32::from(first)) < u32::from(count)
}
