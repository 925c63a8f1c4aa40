//! The directives by their names.

ghost use Rattle.std.specs.Prelude.{◌≡◌};
ghost use Rattle.asm_defs.specs.Directives as spec;

use asm_defs::Directive;
use asm_text::{keyed, named_in, word_key};

/// The directives, each after the number of its name.
const NAMED: [(u64, Directive); 18] = [
    keyed!(b'D' b'A' b'T' b'A' => Directive::Data),
    keyed!(b'B' b'Y' b'T' b'E' => Directive::Byte),
    keyed!(b'T' b'E' b'X' b'T' => Directive::Text),
    keyed!(b'E' b'Q' b'U' => Directive::Equ),
    keyed!(b'B' b'S' b'S' => Directive::Bss),
    keyed!(b'B' b'E' b'S' => Directive::Bes),
    keyed!(b'E' b'V' b'E' b'N' => Directive::Even),
    keyed!(b'A' b'O' b'R' b'G' => Directive::Aorg),
    keyed!(b'R' b'O' b'R' b'G' => Directive::Rorg),
    keyed!(b'D' b'O' b'R' b'G' => Directive::Dorg),
    keyed!(b'D' b'E' b'F' => Directive::Def),
    keyed!(b'R' b'E' b'F' => Directive::Ref),
    keyed!(b'I' b'D' b'T' => Directive::Idt),
    keyed!(b'T' b'I' b'T' b'L' => Directive::Titl),
    keyed!(b'P' b'A' b'G' b'E' => Directive::Quiet),
    keyed!(b'L' b'I' b'S' b'T' => Directive::Quiet),
    keyed!(b'U' b'N' b'L' => Directive::Quiet),
    keyed!(b'E' b'N' b'D' => Directive::End),
];

/// The directive that an operation field names, in upper or lower case (Editor/Assembler manual, "Assembler
/// Directives").
pub(crate) fn directive(text: &[u8]) -> Option<Directive>
    ensures { result ≡ spec.directive text.now }
{
    named_in(&NAMED, word_key(text)?)
}
