//! Texts that end in parentheses.

ghost use Rattle.std.specs.Prelude.{◌≡◌, ◌<◌, ◌≤◌, ◌+◌, ◌==◌, Some, None, if◌then◌else◌, IsTrue, IfSome, length};
ghost use Rattle.std.specs.Prelude.{slice_index};
ghost use Rattle.source_defs.specs.Fields.{in_quotes};
ghost use Rattle.source_defs.specs.Parentheses as spec;

use crate::characters::is_quote;

/// Where a text ends with a parenthesis that closes outside quotes, the place of the first that opens outside quotes.
pub fn parentheses_at(text: &[u8]) -> Option<usize>
    ensures place { result ≡ (if spec.has_parentheses text.now then Some (spec.opening text.now) else None) }
    ensures before { IfSome result (λ place. place + 1 < length text.now) }
    ensures last { IfSome result (λ place. slice_index text.now (spec.last_place text.now) ≡ 0x29) }
{
    if !closes(text) {
        return None;
    }
    let place = opening(text);
    if place == text.len() {
        return None;
    }
    Some(place)
}

/// Whether a text ends with a parenthesis that closes outside quotes.
fn closes(text: &[u8]) -> bool
    ensures value { result ≡ spec.closes_at text.now (spec.last_place text.now) }
    ensures last { IsTrue result → slice_index text.now (spec.last_place text.now) ≡ 0x29 }
    ensures some { IsTrue result → 0 < length text.now }
{
    if text.is_empty() {
        return false;
    }
    let last = text.len() - 1;
    is_closing(text[last]) && !in_quotes(text, last)
}

fn is_closing(byte: u8) -> bool
    ensures value { result ≡ (byte == 0x29) }
    ensures is { IsTrue result → byte ≡ 0x29 }
{
    byte == b')'
}

/// Whether a parenthesis opens.
fn is_opening(byte: u8) -> bool
    ensures value { result ≡ (byte == 0x28) }
    ensures is { IsTrue result → byte ≡ 0x28 }
{
    byte == b'('
}

/// Whether an odd number of quotes is in a text up to a place.
#[tactic(auto, unfolding(source_defs::specs::Fields::in_quotes))]
fn in_quotes(text: &[u8], to: usize) -> bool
    requires { to ≤ length text.now }
    ensures { result ≡ in_quotes text.now 0 to }
{
    text[..to].iter().filter(|&&byte| is_quote(byte)).count() % 2 == 1
}

/// The first parenthesis that opens outside quotes, or the text's end.
#[tactic(auto, using(source_defs::proofs::LeastLaws::leasts, source_defs::proofs::Quotes::quoting))]
fn opening(text: &[u8]) -> usize
    ensures place { result ≡ spec.opening text.now }
    ensures within { result ≤ length text.now }
    ensures opens { result < length text.now → slice_index text.now result ≡ 0x28 }
{
    let mut quoted = false;
    for at in 0..text.len() {
        let byte = text[at];
        if is_opening(byte) && !quoted {
            return at;
        }
        if is_quote(byte) {
            quoted = !quoted;
        }
    }
    text.len()
}
