//! The rows by their numbers.

ghost use Rattle.std.specs.Prelude.{◌≡◌, IsTrue, ◌<◌, ◌++◌, length, map, slice_index_or};
ghost use Rattle.native_interp.specs.Source.{lines};
ghost use Rattle.line_table.specs.Table.{defined, nothing};
ghost use Rattle.line_table.specs.Rows.{IsRow, IsNameRow, named};
ghost use Rattle.expression_defs.specs.Expression.{Absolute};
ghost use Rattle.source_defs.specs.Names.{is_kept_name};
ghost use Rattle.line_table.specs.declared.rows.tables.TheConstants.{TABLE_ROWS};
ghost use Rattle.line_table.specs.declared.rows.routines.TheConstants.{ROUTINE_ROWS};
ghost use Rattle.line_table.specs.declared.rows.operations.TheConstants.{OPERATION_ROWS};
ghost use Rattle.line_table.specs.declared.rows.flow.TheConstants.{FLOW_ROWS};
ghost use Rattle.line_table.specs.declared.rows.copy.TheConstants.{COPY_ROWS};

use crate::line_row::{LineRow, NameRow};
use crate::names::NAMES;
use crate::rows::{COPY_ROWS, FLOW_ROWS, OPERATION_ROWS, ROUTINE_ROWS, Row, TABLE_ROWS};
use asm_text::Name;

/// The names with their values.
fn names() -> &'static [(&'static str, u16)]
    ensures { map (λ name. (name.0.now, Absolute name.1)) result.now ≡ defined }
{
    &NAMES
}

/// The rows of the first part of the source.
fn table_rows() -> &'static [Row]
    ensures { result.now ≡ TABLE_ROWS }
{
    &TABLE_ROWS
}

/// The rows of the second part.
fn routine_rows() -> &'static [Row]
    ensures { result.now ≡ ROUTINE_ROWS }
{
    &ROUTINE_ROWS
}

/// The rows of the third part.
fn operation_rows() -> &'static [Row]
    ensures { result.now ≡ OPERATION_ROWS }
{
    &OPERATION_ROWS
}

/// The rows of the fourth part.
fn flow_rows() -> &'static [Row]
    ensures { result.now ≡ FLOW_ROWS }
{
    &FLOW_ROWS
}

/// The rows of the last part.
fn copy_rows() -> &'static [Row]
    ensures { result.now ≡ COPY_ROWS }
{
    &COPY_ROWS
}

/// A row by its number in five lists of rows, one after the other.
fn row_of(
    index: usize,
    first: &[Row],
    second: &[Row],
    third: &[Row],
    fourth: &[Row],
    fifth: &[Row],
) -> Row
    requires { index < length (first.now ++ (second.now ++ (third.now ++ (fourth.now ++ fifth.now)))) }
    ensures { result ≡ slice_index_or (first.now ++ (second.now ++ (third.now ++ (fourth.now ++ fifth.now)))) index nothing }
{
    if index < first.len() {
        return first[index];
    }
    let index = index - first.len();
    if index < second.len() {
        return second[index];
    }
    let index = index - second.len();
    if index < third.len() {
        return third[index];
    }
    let index = index - third.len();
    if index < fourth.len() {
        fourth[index]
    } else {
        fifth[index - fourth.len()]
    }
}

/// How many names the interpreter's source has: each label is one.
pub fn name_count() -> usize
    ensures { result ≡ length defined }
{
    names().len()
}

/// How many lines the interpreter's source has.
pub fn row_count() -> usize
    ensures { result ≡ length lines }
{
    table_rows().len()
        + routine_rows().len()
        + operation_rows().len()
        + flow_rows().len()
        + copy_rows().len()
}

/// The row of a line of the interpreter's source, by the line's number from 0, which is below [`row_count`].
pub fn row(index: usize) -> LineRow
    requires { index < length lines }
    ensures { IsRow index result }
{
    let found = row_of(
        index,
        table_rows(),
        routine_rows(),
        operation_rows(),
        flow_rows(),
        copy_rows(),
    );
    let words = found.2;
    LineRow {
        place: found.0,
        count: found.1,
        words,
    }
}

/// The row of a text that is a name.
fn named_row(text: &[u8], value: u16) -> NameRow
    requires { IsTrue (is_kept_name text.now) }
    ensures { named result ≡ (text.now, Absolute value) }
{
    match Name::read(text) {
        Some(name) => NameRow { name, value },
        None => unreachable!(),
    }
}

/// The row of a name, by its number below [`name_count`]. They are in the order of their lines, and no name stands
/// twice.
pub fn name_row(index: usize) -> NameRow
    requires { index < length defined }
    ensures { IsNameRow index result }
{
    let (text, value) = names()[index];
    named_row(text.as_bytes(), value)
}
