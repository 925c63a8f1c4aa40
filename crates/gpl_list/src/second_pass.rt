//! The second pass over the lines of a source: their bytes, by all names.

ghost use Rattle.std.specs.Prelude.{◌≡◌, ℕ, List, [], ◌∷◌, ◌++◌, OnOk};
ghost use Rattle.gpl_source_defs.specs.Locations.{Line};
ghost use Rattle.gpl_source_defs.specs.Programs.{bytes_in};
ghost use Rattle.gpl_lines.specs.Defined.{model_of_outcome};
ghost use Rattle.gpl_list.specs.Reading.{Describes, model_of_row, onto};
ghost use Rattle.gpl_list.specs.SecondPass.{Fits, AssemblesRow, AssemblesRows};

use crate::rows::Row;
use asm_text::Symbols;
use gpl_asm::{GplError, line_outcome, put, refusal_at};
use gpl_forms::GromImage;
use gpl_lines::{Failure, Outcome};
use gpl_source_defs::Location;
use std::alloc::{AllocError, Global};

/// Gives rows of lines their bytes by all names, one after the other, up to the first that the second checks refuse.
/// Those before it are given.
pub(crate) fn assemble_rows(
    alloc: Global,
    names: &Symbols,
    rows: Vec<Row>,
    assembled_lines: &mut Vec<Row>,
) -> Result<(), GplError>
    requires none { assembled_lines.old.items ≡ [] }
    requires described { (texts : List (ℕ × List ℕ)) × (rest : List Line)
        × Describes texts names.now [] rest rows.items }
    ensures { (texts : List (ℕ × List ℕ)) → (rest : List Line) → Describes texts names.now [] rest rows.items →
        AssemblesRows texts names.now (onto rest []) result assembled_lines.new.items }
{
    let mut image = GromImage::new(alloc)?;
    for row in rows {
        match assemble_row(alloc, names, row.at, row.text.as_slice(), &mut image) {
            Ok(bytes) => push_row(assembled_lines, with_bytes(row, bytes))?,
            Err(failure) => return Err(refusal_at(row.number, failure)),
        }
    }
    Ok(())
}

/// A row with these bytes.
fn with_bytes(row: Row, bytes: Vec<u8>) -> Row
    ensures { model_of_row result ≡ record (model_of_row row) { bytes = bytes.items } }
{
    Row {
        number: row.number,
        at: row.at,
        address: row.address,
        bytes,
        text: row.text,
    }
}

/// Appends a row.
fn push_row(rows: &mut Vec<Row>, row: Row) -> Result<(), AllocError>
    ensures { OnOk result (rows.new.items ≡ rows.old.items ++ row ∷ []) }
{
    rows.push(row)?;
    Ok(())
}

/// Places the bytes of a line after others, by all names, and gives them.
fn assemble_row(
    alloc: Global,
    names: &Symbols,
    at: Location,
    text: &[u8],
    image: &mut GromImage,
) -> Result<Vec<u8>, Failure>
    requires { Fits names.now at text.now }
    ensures { AssemblesRow (λ bytes. bytes.items) names.now at text.now image.old result image.new }
{
    let outcome = line_outcome(alloc, names, at, text)?;
    match put(image, None, at, &outcome) {
        Ok(_) => Ok(bytes_of(alloc, outcome)),
        Err(cause) => Err(Failure::Refused(cause)),
    }
}

/// The bytes that a line places.
fn bytes_of(alloc: Global, outcome: Outcome) -> Vec<u8>
    ensures { result.items ≡ bytes_in (model_of_outcome outcome) }
{
    match outcome {
        Outcome::Bytes(bytes) => bytes,
        Outcome::Entry(_) => Vec::new(alloc),
    }
}
