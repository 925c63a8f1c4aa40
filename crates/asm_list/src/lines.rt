//! The rows of lines.

ghost use Rattle.std.specs.Prelude.{◌≡◌, ◌≤◌, ◌<◌, ◌+◌, ◌^◌, ◌++◌, ◌∷◌, [], OnOk, length, take, drop};
ghost use Rattle.asm_list_defs.specs.Rows as spec;
ghost use Rattle.bench_shelf.specs.Kept.{model_of_kept};
ghost use Rattle.bench_shelf.specs.Listed.{listed_line};
ghost use Rattle.asm_list.specs.Adding.{texts_in, known_to, rows_by_names, below};

use crate::rows::{PLACED_COLUMNS, file_row, first_row, row_below};
use crate::shown::{Lister, Shown};
use asm_defs::Location;
use bench_shelf::{FileName, KeptLine, same_file};
use std::alloc::{AllocError, Global};

impl Lister<'_> {
    /// Appends the rows of lines.
    pub(crate) fn put_lines(
        &self,
        lines: &[KeptLine],
        rows: &mut Vec<Vec<u8>>,
    ) -> Result<(), AllocError>
        ensures { OnOk result (texts_in rows.new.items
            ≡ texts_in rows.old.items ++ rows_by_names (known_to self.now) lines.now) }
    {
        let mut before = None;
        let mut rest = lines;
        while let [line, others @ ..] = rest {
            put_file(self.alloc, &before, &line.file, rows)?;
            self.put_line(line, rows)?;
            before = line.file;
            rest = others;
        }
        Ok(())
    }

    /// Appends the rows of a line.
    fn put_line(&self, line: &KeptLine, rows: &mut Vec<Vec<u8>>) -> Result<(), AllocError>
        ensures { OnOk result (texts_in rows.new.items
            ≡ texts_in rows.old.items ++ spec.line_rows (listed_line (known_to self.now) line.now)) }
    {
        let shown = self.shown_line(line)?;
        put_shown(self.alloc, line, &shown, rows)?;
        Ok(())
    }
}

/// Appends the rows of a line with what is shown of it.
fn put_shown(
    alloc: Global,
    line: &KeptLine,
    shown: &Shown,
    rows: &mut Vec<Vec<u8>>,
) -> Result<(), AllocError>
    ensures { OnOk result (texts_in rows.new.items
        ≡ texts_in rows.old.items ++ spec.rows_of (model_of_kept line.now) shown.now.at shown.now.placed.items) }
{
    let text = shown.placed.as_slice();
    push_row(rows, first_row(alloc, line, shown.at, first_part(text))?)?;
    put_below(alloc, eight_on(shown.at), further_part(text), rows)?;
    Ok(())
}

/// Appends the row of a file, where the line before is in another.
fn put_file(
    alloc: Global,
    before: &Option<FileName>,
    file: &Option<FileName>,
    rows: &mut Vec<Vec<u8>>,
) -> Result<(), AllocError>
    ensures { OnOk result (texts_in rows.new.items ≡ texts_in rows.old.items ++ spec.file_rows before.now file.now) }
{
    if same_file(before, file) {
        return Ok(());
    }
    push_row(rows, file_row(alloc, file)?)
}

/// Appends the rows below a line.
#[tactic(auto, using(std::proofs::Common::append_assoc, crate::proofs::RowLaws::one_row, crate::proofs::RowLaws::less))]
fn put_below(
    alloc: Global,
    at: Location,
    text: &[u8],
    rows: &mut Vec<Vec<u8>>,
) -> Result<(), AllocError>
    ensures { OnOk result (texts_in rows.new.items ≡ texts_in rows.old.items ++ below at text.now) }
{
    let mut place = at;
    let mut rest = text;
    while !rest.is_empty() {
        push_row(rows, row_below(alloc, place, first_part(rest))?)?;
        place = eight_on(place);
        rest = further_part(rest);
    }
    Ok(())
}

/// Appends a row.
pub(crate) fn push_row(rows: &mut Vec<Vec<u8>>, row: Vec<u8>) -> Result<(), AllocError>
    ensures { OnOk result (texts_in rows.new.items ≡ texts_in rows.old.items ++ row.items ∷ []) }
{
    rows.push(row)?;
    Ok(())
}

/// The place eight bytes on.
fn eight_on(at: Location) -> Location
    ensures { result ≡ spec.eight_on at }
{
    Location {
        part: at.part,
        number: (at.number % 0x10000 + 8) % 0x10000,
    }
}

/// What is in one row.
fn first_part(text: &[u8]) -> &[u8]
    ensures text { result.now ≡ take 24 text.now }
    ensures few { length result.now ≤ 24 }
{
    if text.len() > PLACED_COLUMNS {
        return &text[..PLACED_COLUMNS];
    }
    text
}

/// What is in further rows.
fn further_part(text: &[u8]) -> &[u8]
    ensures { result.now ≡ drop 24 text.now }
{
    if text.len() > PLACED_COLUMNS {
        return &text[PLACED_COLUMNS..];
    }
    &[]
}
