//! Reads an object text: records or lines, plain or compressed, as modules.

ghost use Rattle.std.specs.Prelude.{◌≡◌, ◌<◌, ◌^◌, ◌*◌, ◌+◌, length, map, slice_range};
ghost use Rattle.source_defs.specs.Lines.{lines as lines_of};
ghost use Rattle.object_defs.specs.declared.form.TextForm.TheVariants.{Plain};
ghost use Rattle.object_defs.specs.Reading as reading;
ghost use Rattle.object_tags.specs.Answers.{Gives, model_of_modules};
ghost use Rattle.object_tags.specs.Reads.{Reads};

use crate::error::TagError;
use crate::fields::front;
use crate::parts::Module;
use crate::reader::Reader;
use asm_text::{is_line_feed, lines};
use object_defs::TextForm;
use std::alloc::Global;

/// How many characters a record has.
const COLUMNS: usize = 80;

/// The modules of an object text of fewer than 2^32 bytes. A text whose first byte is >01 is compressed, and is cut
/// into records of 80 bytes, of which the last may be shorter. Every other text is plain: lines, or records of 80
/// characters where it has no line feed and its length is a positive multiple of 80.
///
/// # Errors
/// `At` carries the first bad place of the text with the number of its line or record, and comes exactly where the text
/// has one. `Memory` means that memory ran out.
pub fn read_modules(alloc: Global, bytes: &[u8]) -> Result<Vec<Module>, TagError>
    requires { length bytes.now < 2 ^ 32 }
    ensures { Gives (λ modules. model_of_modules modules.items) result (reading.read bytes.now) }
{
    let mut reader = Reader::new(alloc);
    take_text(alloc, &mut reader, bytes)?;
    reader.finish()
}

/// The form of a text, by its first byte.
fn form_of(text: &[u8]) -> TextForm
    ensures { result ≡ reading.form_of text.now }
{
    match text {
        [0x01, ..] => TextForm::Compressed,
        _ => TextForm::Plain,
    }
}

/// Reads a whole text.
fn take_text(alloc: Global, reader: &mut Reader, text: &[u8]) -> Result<(), TagError>
    requires { length text.now < 2 ^ 32 }
    ensures { Reads (reading.form_of text.now) result reader.old reader.new (reading.text_lines text.now) }
{
    match form_of(text) {
        TextForm::Plain if !is_records(text) => take_lines(alloc, reader, text),
        form => take_records(alloc, reader, form, text),
    }
}

/// Whether a plain text is made of records.
fn is_records(text: &[u8]) -> bool
    ensures { result ≡ reading.is_records text.now }
{
    !has_line_feed(text) && !text.is_empty() && text.len() % COLUMNS == 0
}

fn has_line_feed(text: &[u8]) -> bool
    ensures { result ≡ reading.has_line_feed text.now }
{
    text.iter().any(|&byte| is_line_feed(byte))
}

/// Reads the records of a text.
fn take_records(
    alloc: Global,
    reader: &mut Reader,
    form: TextForm,
    text: &[u8],
) -> Result<(), TagError>
    requires { length text.now < 2 ^ 32 }
    ensures { Reads form result reader.old reader.new (reading.records text.now) }
{
    for k in 0..text.len().div_ceil(COLUMNS) {
        reader.take_line(alloc, form, k as u32 + 1, record_at(text, k))?;
    }
    Ok(())
}

/// A record, by its number from 0. The last one may be shorter.
fn record_at(text: &[u8], k: usize) -> &[u8]
    requires { 80 * k < length text.now }
    ensures { result.now ≡ slice_range text.now (80 * k) (80 * k + 80) }
{
    front(&text[COLUMNS * k..], COLUMNS)
}

/// Reads the lines of a plain text.
fn take_lines(alloc: Global, reader: &mut Reader, text: &[u8]) -> Result<(), TagError>
    requires { length text.now < 2 ^ 32 }
    ensures { Reads Plain result reader.old reader.new (map (reading.numbered_line text.now) (lines_of text.now)) }
{
    for line in lines(text) {
        let line_text = &text[line.span.start..line.span.end];
        reader.take_line(alloc, TextForm::Plain, line.number, line_text)?;
    }
    Ok(())
}
