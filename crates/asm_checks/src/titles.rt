//! The module's name that a quoted text gives.

ghost use Rattle.std.specs.Prelude.{◌≡◌, ◌<◌, Some, None, if◌then◌else◌, length, IfSome};
ghost use Rattle.expression_defs.specs.Expression as spec;
ghost use Rattle.std.specs.Option.{IfNone};
ghost use Rattle.asm_defs.specs.FirstChecks.{is_title, title_in};

use arrayvec::ArrayVec;
use asm_text::{between_quotes, is_quote};
use object_tags::ModuleName;

/// The module's name that a quoted text gives, filled up with blanks; none where the text is no name of a module.
pub fn title_in(quoted: &[u8]) -> Option<ModuleName>
    ensures { result ≡ (if is_title quoted.now then Some (title_in quoted.now) else None) }
{
    let mut name = first_eight(quoted)?;
    while !name.is_full() {
        name.push(b' ');
    }
    ModuleName::read(name.as_slice())
}

/// The characters of a quoted text of at most eight.
fn first_eight(quoted: &[u8]) -> Option<ArrayVec<u8, 8>>
    ensures some { IfSome result (λ characters. characters.items ≡ spec.characters quoted.now) }
    ensures none { IfNone result (8 < length (spec.characters quoted.now)) }
{
    let mut characters = ArrayVec::new();
    let mut quote = false;
    for &byte in between_quotes(quoted) {
        quote = is_quote(byte) && !quote;
        if quote || !is_quote(byte) {
            if characters.is_full() {
                return None;
            }
            characters.push(byte);
        }
    }
    Some(characters)
}
