//! A text as lines, and its parts.

ghost use Rattle.std.specs.Prelude.{◌≡◌, ◌<◌, ◌^◌, length};
ghost use Rattle.source_defs.specs.Lines as spec;

use crate::text_lines::line_iter::Lines;
use source_defs::Span;

/// The lines of a text, in order, counted from 1. Each ends at a line feed, and a carriage return
/// before it is dropped; what follows the last line feed is a line where it is not empty.
#[tactic(auto, using(source_defs::proofs::LineLaws::line_places))]
pub fn lines(bytes: &[u8]) -> Lines<'_>
    requires { length bytes.now < 2 ^ 32 }
    ensures all { result ≡ spec.lines bytes.now }
    ensures inside { spec.LinesLieInside bytes.now result }
{
    Lines {
        text: bytes,
        at: 0,
        given: 0,
    }
}

/// A part of a text.
pub fn part(text: &[u8], span: Span) -> &[u8]
    requires { spec.IsInside text.now span }
    ensures { result.now ≡ spec.part text.now span }
{
    &text[span.start..span.end]
}
