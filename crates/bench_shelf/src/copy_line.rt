//! Lines that copy a file.

ghost use Rattle.std.specs.Prelude.{◌≡◌};
ghost use Rattle.shelf_defs.specs.CopyLines as spec;
ghost use Rattle.bench_shelf.specs.Asking.{model_of_asked};

use crate::file_name::FileName;
use asm_text::{Name, SplitLine, between_quotes, is_quote, is_word, part};

/// What a line of a source asks for.
pub(crate) enum LineKind {
    /// It stands for itself.
    Itself,
    /// The lines of a file.
    File(FileName),
    /// A file, in a way that is none.
    Bad,
}

/// What a line of a source asks for. A line with the operation COPY asks for a file. It has no label, and its operand
/// is the name of the file in quotes.
#[tactic(auto, unfolding(shelf_defs::specs::CopyLines::asked))]
pub(crate) fn line_kind(line: &SplitLine<'_>) -> LineKind
    ensures { model_of_asked result ≡ spec.asked line.now.text.now }
{
    let Ok(found) = line.fields else {
        return LineKind::Itself;
    };
    let Some(operation) = found.operation else {
        return LineKind::Itself;
    };
    if !is_word(part(line.text, operation), b"COPY") {
        return LineKind::Itself;
    }
    asked_for(found.label, quoted_name(part(line.text, found.operands)))
}

/// What a line with the operation COPY asks for, by its label and the name in its operand field.
fn asked_for(label: Option<Name>, name: Option<FileName>) -> LineKind
    ensures { model_of_asked result ≡ spec.asked_for label name }
{
    match (label, name) {
        (None, Some(name)) => LineKind::File(name),
        _ => LineKind::Bad,
    }
}

/// The name of a file that is in quotes.
fn quoted_name(operand: &[u8]) -> Option<FileName>
    ensures { result ≡ spec.quoted_name operand.now }
{
    if stands_in_quotes(operand) {
        FileName::read(between_quotes(operand))
    } else {
        None
    }
}

/// Whether a quote is at both ends of a text, the same at each.
fn stands_in_quotes(text: &[u8]) -> bool
    ensures { result ≡ spec.stands_in_quotes text.now }
{
    text.len() >= 2 && is_either_quote(text[0]) && text[0] == text[text.len() - 1]
}

/// Whether a byte is a single or a double quote.
fn is_either_quote(byte: u8) -> bool
    ensures { result ≡ spec.is_either_quote byte }
{
    is_quote(byte) || byte == b'"'
}
