//! The operands of a field, one after the other.

ghost use Rattle.std.specs.Prelude.{◌≡◌, ◌≤◌, ◌<◌, ◌+◌, IsFalse, length};
ghost use Rattle.source_defs.specs.Fields.{in_quotes};
ghost use Rattle.source_defs.proofs.OperandSteps.{comma_place};

use crate::characters::{is_comma, is_quote};
use source_defs::Span;
use std::marker::Model;

/// The operands of a field that are left. Contracts see it as their list.
#[derive(Debug, Drop)]
pub struct Operands<'a> {
    pub(crate) field: &'a [u8],
    // Where the next operand begins.
    pub(crate) at: usize,
    // The last operand was given, or the field has none.
    pub(crate) ended: bool,
}

impl<'a> Model for Operands<'a> {
    ghost use Rattle.std.specs.Prelude.{◌≡◌, ◌≤◌, IsFalse, if◌then◌else◌, List, [], length};
    ghost use Rattle.source_defs.specs.declared.text.Span.{Span};
    ghost use Rattle.source_defs.specs.Fields.{in_quotes};
    ghost use Rattle.source_defs.specs.Operands.{operands_from};

    ghost Value = { List Span };

    ghost view = { λ s. (if s.ended then [] else operands_from s.field.now s.at) };

    ghost invariant = { λ s. (s.at ≤ length s.field.now) × IsFalse (in_quotes s.field.now 0 s.at) };
}

impl<'a> Iterator for Operands<'a> {
    ghost use Rattle.std.specs.Iterator.{YieldsFirst, item_count};

    type Item = Span;

    ghost next_gives = { YieldsFirst (λ s. s) };

    ghost remaining = { item_count (λ s. s) };

    #[tactic(auto, using(source_defs::proofs::OperandSteps::operands_from_step))]
    fn next(&mut self) -> Option<Span> {
        if self.ended {
            return None;
        }
        let start = self.at;
        let end = comma_place(self.field, start);
        if end < self.field.len() {
            self.at = end + 1;
        } else {
            self.ended = true;
        }
        Some(Span { start, end })
    }
}

/// From a place outside quotes on, the first comma outside quotes, or the field's end.
#[tactic(auto, using(source_defs::proofs::LeastLaws::leasts, source_defs::proofs::Quotes::quoting))]
fn comma_place(field: &[u8], from: usize) -> usize
    requires within { from ≤ length field.now }
    requires outside { IsFalse (in_quotes field.now 0 from) }
    ensures place { result ≡ comma_place field.now from }
    ensures within { result ≤ length field.now }
    ensures outside { result < length field.now → IsFalse (in_quotes field.now 0 (result + 1)) }
{
    let mut quoted = false;
    for at in from..field.len() {
        let byte = field[at];
        if is_comma(byte) {
            if !quoted {
                return at;
            }
        } else if is_quote(byte) {
            quoted = !quoted;
        }
    }
    field.len()
}
