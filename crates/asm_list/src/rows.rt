//! The rows of a listing, each with its line feed.

ghost use Rattle.std.specs.Prelude.{◌≡◌, ◌≤◌, ◌+◌, ◌%◌, ◌++◌, ◌∷◌, [], IfOk, length, take, drop};
ghost use Rattle.std.specs.Option.{option_map};
ghost use Rattle.arrayvec.specs.ArrayVec.{array_vec_len};
ghost use Rattle.asm_text.specs.GivenValues.{model_of_value};
ghost use Rattle.object_defs.specs.Digits.{padded};
ghost use Rattle.asm_list_defs.specs.Rows as spec;
ghost use Rattle.bench_shelf.specs.Kept.{model_of_kept};

use asm_defs::{Location, Part};
use asm_text::{Name, Value};
use bench_shelf::{FileName, KeptLine};
use report_lines::{Line, append, append_right, append_word};
use std::alloc::{AllocError, Global};

/// The columns of what is placed.
pub(crate) const PLACED_COLUMNS: usize = 24;

/// The blanks of a row that places nothing.
const PLACED_BLANKS: &[u8] = b"                        ";

/// In how many columns the number of a line stands.
const NUMBER_COLUMNS: usize = 7;

/// The row of a file, or of the source itself.
#[tactic(auto, using(std::proofs::Common::append_assoc), unfolding(asm_list_defs::specs::Rows::file_row))]
pub(crate) fn file_row(alloc: Global, file: &Option<FileName>) -> Result<Vec<u8>, AllocError>
    ensures { IfOk result (λ row. row.items ≡ spec.file_row file.now) }
{
    let mut line = Line::new();
    append(&mut line, b"file");
    append_file(&mut line, file);
    Vec::from_slice(alloc, line.as_slice())
}

/// The row of a line, with the first of what it places.
#[tactic(auto, using(std::proofs::Common::append_assoc), unfolding(asm_list_defs::specs::Rows::first_row))]
pub(crate) fn first_row(
    alloc: Global,
    line: &KeptLine,
    at: Location,
    text: &[u8],
) -> Result<Vec<u8>, AllocError>
    requires { length text.now ≤ 24 }
    ensures { IfOk result (λ row. row.items ≡ spec.first_row (model_of_kept line.now) at text.now) }
{
    let mut front = Line::new();
    append_right(&mut front, NUMBER_COLUMNS, line.line);
    front.push(b' ');
    append_placed(&mut front, at, text);
    let size = front.len().saturating_add(line.text.len());
    let mut row = Vec::with_capacity(alloc, size.saturating_add(1))?;
    row.extend_from_slice(front.as_slice())?;
    row.extend_from_slice(line.text.as_slice())?;
    row.push(b'\n')?;
    Ok(row)
}

/// A row below a line.
#[tactic(auto, using(std::proofs::Common::append_assoc), unfolding(asm_list_defs::specs::Rows::row_below))]
pub(crate) fn row_below(alloc: Global, at: Location, text: &[u8]) -> Result<Vec<u8>, AllocError>
    requires { length text.now ≤ 24 }
    ensures { IfOk result (λ row. row.items ≡ spec.row_below at text.now) }
{
    let mut line = Line::new();
    append(&mut line, b"        ");
    append_placed(&mut line, at, text);
    line.push(b'\n');
    Vec::from_slice(alloc, line.as_slice())
}

/// The row of a name that a line defines.
#[tactic(auto, using(std::proofs::Common::append_assoc))]
pub(crate) fn name_row(
    alloc: Global,
    line: &KeptLine,
    name: &Name,
    value: Option<Value>,
) -> Result<Vec<u8>, AllocError>
    ensures { IfOk result (λ row. row.items ≡ spec.name_row (record {
      place = (model_of_kept line.now).place;
      name = name.now;
      value = option_map model_of_value value;
    })) }
{
    let mut row = Line::new();
    append(&mut row, b"name ");
    append_value(&mut row, value);
    row.push(b' ');
    append_right(&mut row, NUMBER_COLUMNS, line.line);
    row.push(b' ');
    append(&mut row, name.as_bytes());
    append_file(&mut row, &line.file);
    Vec::from_slice(alloc, row.as_slice())
}

/// Appends the name of a file after a blank, where one is copied, and a line feed.
#[tactic(auto, using(std::proofs::Common::append_assoc, crate::proofs::RowLaws::short_name))]
fn append_file(line: &mut Line, file: &Option<FileName>)
    requires { array_vec_len line.old + 62 ≤ 192 }
    ensures { line.new.items ≡ line.old.items ++ spec.of_file file.now }
{
    if let Some(name) = file {
        line.push(b' ');
        append(line, name.as_bytes());
    }
    line.push(b'\n');
}

/// Appends a place and what is placed there, in 24 columns.
#[tactic(auto, using(std::proofs::Common::append_assoc), unfolding(asm_list_defs::specs::Rows::placed_text))]
fn append_placed(line: &mut Line, at: Location, text: &[u8])
    requires room { array_vec_len line.old + 31 ≤ 192 }
    requires few { length text.now ≤ 24 }
    ensures text { line.new.items ≡ line.old.items ++ spec.placed_text at text.now }
    ensures len { array_vec_len line.new ≡ array_vec_len line.old + 31 }
{
    append_place(line, at);
    append_columns(line, text);
}

/// Appends what is placed, in 24 columns.
#[tactic(auto, using(std::proofs::Common::append_assoc))]
fn append_columns(line: &mut Line, text: &[u8])
    requires room { array_vec_len line.old + 24 ≤ 192 }
    requires few { length text.now ≤ 24 }
    ensures text { line.new.items ≡ line.old.items ++ padded 24 text.now }
    ensures len { array_vec_len line.new ≡ array_vec_len line.old + 24 }
{
    append(line, text);
    append(line, &PLACED_BLANKS[text.len()..]);
}

/// Appends a place with its mark, and a blank.
#[tactic(auto, using(std::proofs::Common::append_assoc), unfolding(asm_list_defs::specs::Rows::place_text))]
fn append_place(line: &mut Line, at: Location)
    requires { array_vec_len line.old + 7 ≤ 192 }
    ensures text { line.new.items ≡ line.old.items ++ spec.place_text at }
    ensures len { array_vec_len line.new ≡ array_vec_len line.old + 7 }
{
    append_word(line, (at.number % 0x10000) as u16);
    line.push(part_mark(at.part));
    line.push(b' ');
}

/// The mark of a part.
fn part_mark(part: Part) -> u8
    ensures { result ≡ spec.part_mark part }
{
    match part {
        Part::Absolute => b' ',
        Part::Relocatable => b'\'',
        Part::Dummy => b'-',
    }
}

/// Appends what a name stands for, with its kind.
#[tactic(auto, using(std::proofs::Common::append_assoc))]
fn append_value(line: &mut Line, value: Option<Value>)
    requires { array_vec_len line.old + 18 ≤ 192 }
    ensures text { line.new.items ≡ line.old.items ++ spec.value_text (option_map model_of_value value) }
    ensures len { array_vec_len line.new ≡ array_vec_len line.old + 18 }
{
    match value {
        Some(Value::Absolute(number)) => {
            append_word(line, number);
            append(line, b"  absolute   ");
        }
        Some(Value::Relocatable(number)) => {
            append_word(line, number);
            append(line, b"' relocatable");
        }
        Some(Value::External(_)) => append(line, b">0000* external   "),
        None => append(line, b">0000  absolute   "),
    }
}
