//! The directives by their names.

ghost use Rattle.std.specs.Prelude.{◌≡◌};
ghost use Rattle.gpl_source_defs.specs.Directives as spec;

use asm_text::{keyed, named_in, word_key};
use gpl_source_defs::Directive;

/// The directives, each after the number of its name.
const NAMED: [(u64, Directive); 8] = [
    keyed!(b'D' b'A' b'T' b'A' => Directive::Data),
    keyed!(b'B' b'Y' b'T' b'E' => Directive::Byte),
    keyed!(b'T' b'E' b'X' b'T' => Directive::Text),
    keyed!(b'E' b'Q' b'U' => Directive::Equ),
    keyed!(b'B' b'S' b'S' => Directive::Bss),
    keyed!(b'A' b'O' b'R' b'G' => Directive::Aorg),
    keyed!(b'G' b'R' b'O' b'M' => Directive::Grom),
    keyed!(b'E' b'N' b'D' => Directive::End),
];

/// The directive that an operation field names, in upper or lower case.
pub(crate) fn directive(text: &[u8]) -> Option<Directive>
    ensures { result ≡ spec.directive text.now }
{
    named_in(&NAMED, word_key(text)?)
}
