//! What is in a line.

ghost use Rattle.std.specs.Prelude.{◌≡◌, ◌≤◌, ◌↔◌, length, IfOk, IfSome, IsTrue, Ok};
ghost use Rattle.std.proofs.Props.{props};
ghost use Rattle.source_defs.specs.Fields as spec;
ghost use Rattle.source_defs.specs.Names.{IsUpperCaseName};
ghost use Rattle.asm_text.specs.GivenFields.{model_of_answer, FieldsLieInside};

use crate::name::Name;
use source_defs::{Span, TextError};

/// The fields of a line, by their places. A comment after the operand field is no part of them.
#[derive(Clone, Copy, Debug, PartialEq, Eq)]
pub struct Fields {
    /// The name in column 1, with its letters in upper case.
    pub label: Option<Name>,
    /// The operation, as it is written. A line without one is blank, a comment or a label alone.
    pub operation: Option<Span>,
    /// The operand field, as it is written; its start is its end where the line has none.
    pub operands: Span,
}

/// A line with its fields, which are read once for whatever is asked of the line.
#[derive(Clone, Copy)]
pub struct SplitLine<'a> {
    /// The line, without its line feed.
    pub text: &'a [u8],
    /// Its fields, or why it has none.
    pub fields: Result<Fields, TextError>,
    ghost read: { model_of_answer fields ≡ spec.fields text.now },
    ghost short: { IfOk fields (λ _. length text.now ≤ spec.longest_line) } by { Prim.hlevel props },
    ghost inside: { IfOk fields (FieldsLieInside text.now) } by { Prim.hlevel props },
    ghost names: { IfOk fields (λ found. IfSome found.label IsUpperCaseName) } by { Prim.hlevel props },
}

impl SplitLine<'_> {
    /// Whether the line has no fields: at most 256 bytes, and blank or with an asterisk in column 1.
    pub fn is_comment(&self) -> bool
        ensures { IsTrue result ↔ (spec.fields self.now.text.now ≡ Ok spec.no_fields) }
    {
        matches!(
            self.fields,
            Ok(Fields {
                label: None,
                operation: None,
                operands: Span { start: 0, end: 0 },
            })
        )
    }
}
