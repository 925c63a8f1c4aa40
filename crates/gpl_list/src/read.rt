//! The first pass over a source: its lines with their addresses, and its names.

ghost use Rattle.std.specs.Prelude.{◌≡◌, ◌<◌, ◌≤◌, ◌+◌, ◌-◌, ◌^◌, ◌++◌, ℕ, List, IfOk, OnOk, length, map};
ghost use Rattle.source_defs.specs.Lines.{line_texts};
ghost use Rattle.expression_defs.specs.Layout.{set_or};
ghost use Rattle.gpl_source_defs.specs.Locations.{Line};
ghost use Rattle.gpl_asm.specs.Building.{CanCount, IsOpen};
ghost use Rattle.gpl_list_defs.specs.Rows.{text_of};
ghost use Rattle.gpl_list.specs.Reading.{Keeps, KeepsNone, ReadsLine, ReadsLines, model_of_name, named};
ghost use Rattle.gpl_list.specs.Reading.{OneMore};

use crate::rows::{NameRow, Row};
use asm_text::{Name, lines};
use gpl_asm::{GplError, GplLines, TakenLine};
use gpl_source_defs::Location;
use std::alloc::{AllocError, Global};

/// The lines of a source that the first checks accept.
#[derive(Drop)]
pub(crate) struct ReadLines {
    pub(crate) alloc: Global,
    /// The lines, without bytes.
    pub(crate) rows: Vec<Row>,
    /// Their names.
    pub(crate) names: Vec<NameRow>,
    /// What the assembler keeps of them.
    pub(crate) builder: GplLines,
}

impl ReadLines {
    /// No lines.
    pub(crate) fn new(alloc: Global) -> Result<ReadLines, AllocError>
        ensures { IfOk result KeepsNone }
    {
        Ok(ReadLines {
            alloc,
            rows: Vec::new(alloc),
            names: Vec::new(alloc),
            builder: GplLines::new(alloc)?,
        })
    }

    /// Reads the lines of a source up to its end, or up to the first that is refused. Those that were accepted are
    /// kept.
    pub(crate) fn read(&mut self, text: &[u8]) -> Result<(), GplError>
        requires none { KeepsNone self.old }
        requires size { length text.now < 2 ^ 32 }
        ensures { ReadsLines (line_texts text.now) result self.new }
    {
        for line in lines(text) {
            self.take(line.number, &text[line.span.start..line.span.end])?;
            if self.builder.is_ended() {
                break;
            }
        }
        Ok(())
    }

    /// Takes the next line, which has a number. A refused line leaves all as before.
    fn take(&mut self, number: u32, text: &[u8]) -> Result<(), GplError>
        requires going { IsOpen self.old.builder }
        requires count { CanCount self.old.builder }
        ensures { (texts : List (ℕ × List ℕ)) → (lines : List Line) → Keeps texts lines self.old →
            number ≡ length lines + 1 → text_of texts number ≡ text.now →
            ReadsLine texts lines text.now result self.new }
    {
        let TakenLine {
            at,
            origin,
            label,
            value,
        } = self.builder.line(text)?;
        self.keep_row(number, at, address_of(at, origin), text)?;
        self.keep_name(label, value, number)?;
        Ok(())
    }

    /// Keeps the row of a line that was taken.
    fn keep_row(
        &mut self,
        number: u32,
        at: Location,
        address: u32,
        text: &[u8],
    ) -> Result<(), AllocError>
        requires { length text.now ≤ 256 }
        ensures builder { self.new.builder ≡ self.old.builder }
        ensures rows { OnOk result (OneMore number at address text.now self.old.rows.items self.new.rows.items) }
        ensures names { self.new.names.items ≡ self.old.names.items }
    {
        let text = Vec::from_slice(self.alloc, text)?;
        self.rows.push(Row {
            number,
            at,
            address,
            bytes: Vec::new(self.alloc),
            text,
        })?;
        Ok(())
    }

    /// Keeps the name of a line that was taken, if it has one.
    fn keep_name(&mut self, label: Option<Name>, value: u16, line: u32) -> Result<(), AllocError>
        ensures builder { self.new.builder ≡ self.old.builder }
        ensures rows { self.new.rows.items ≡ self.old.rows.items }
        ensures names { OnOk result (map model_of_name self.new.names.items
            ≡ map model_of_name self.old.names.items ++ named label value line) }
    {
        let Some(name) = label else {
            return Ok(());
        };
        self.names.push(NameRow { name, value, line })?;
        Ok(())
    }
}

/// The address of a line at a place: the one that it sets, or the address of its place.
fn address_of(at: Location, origin: Option<Location>) -> u32
    ensures { result ≡ (set_or origin at).number }
{
    match origin {
        Some(origin) => origin.number,
        None => at.number,
    }
}
