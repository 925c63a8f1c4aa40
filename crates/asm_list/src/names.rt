//! The rows of names.

ghost use Rattle.std.specs.Prelude.{◌≡◌, ◌++◌, OnOk, map};
ghost use Rattle.asm_list_defs.specs.Listed.{names_of_line};
ghost use Rattle.asm_list_defs.specs.Rows as spec;
ghost use Rattle.bench_shelf.specs.Listed.{named_line};
ghost use Rattle.asm_list.specs.Adding.{texts_in, named_rows, rows_of_names};

use crate::lines::push_row;
use crate::rows::name_row;
use asm_text::{Name, Symbols};
use bench_shelf::KeptLine;
use std::alloc::{AllocError, Global};

/// Appends the rows of the names that lines define.
pub(crate) fn put_names(
    alloc: Global,
    known: &Symbols,
    lines: &[KeptLine],
    rows: &mut Vec<Vec<u8>>,
) -> Result<(), AllocError>
    ensures { OnOk result (texts_in rows.new.items ≡ texts_in rows.old.items ++ rows_of_names known.now lines.now) }
{
    let mut rest = lines;
    while let [line, others @ ..] = rest {
        put_names_of(alloc, known, line, rows)?;
        rest = others;
    }
    Ok(())
}

/// Appends the rows of the names that a line defines: its label, and its names of REF.
#[tactic(auto, using(std::proofs::Common::append_assoc))]
fn put_names_of(
    alloc: Global,
    known: &Symbols,
    line: &KeptLine,
    rows: &mut Vec<Vec<u8>>,
) -> Result<(), AllocError>
    ensures { OnOk result (texts_in rows.new.items
        ≡ texts_in rows.old.items ++ map spec.name_row (names_of_line known.now (named_line line.now))) }
{
    if let Some(label) = &line.taken.label {
        push_row(rows, name_row(alloc, line, label, known.get(label))?)?;
    }
    put_names_in(alloc, known, line, line.taken.refs.as_slice(), rows)
}

/// Appends the rows of names that a line defines.
fn put_names_in(
    alloc: Global,
    known: &Symbols,
    line: &KeptLine,
    names: &[Name],
    rows: &mut Vec<Vec<u8>>,
) -> Result<(), AllocError>
    ensures { OnOk result (texts_in rows.new.items
        ≡ texts_in rows.old.items ++ map spec.name_row (named_rows known.now line.now names.now)) }
{
    let mut rest = names;
    while let [name, others @ ..] = rest {
        push_row(rows, name_row(alloc, line, name, known.get(name))?)?;
        rest = others;
    }
    Ok(())
}
