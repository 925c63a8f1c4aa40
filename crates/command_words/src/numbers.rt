//! The numbers of the words.

ghost use Rattle.std.specs.Prelude.{◌≡◌, ◌≤◌, IfSome};
ghost use Rattle.report_defs.specs.Commands as spec;

use asm_text::{decimal_up_to, hexadecimal_number};

/// The address that a word spells by four hexadecimal digits of either case, or `None` where it spells none.
pub fn address_word(word: &[u8]) -> Option<u16>
    ensures { result ≡ spec.address_word word.now }
{
    if word.len() != 4 {
        return None;
    }
    hexadecimal_number(word)
}

/// The number that a word spells by decimal digits without a leading zero, or `None` where it spells none or the number
/// is above a limit of up to 10,000,000.
pub fn number_word(word: &[u8], limit: u32) -> Option<u32>
    requires { limit ≤ 10000000 }
    ensures number { result ≡ spec.number_word limit word.now }
    ensures limit { IfSome result (λ number. number ≤ limit) }
{
    if word.len() > 1 && word[0] == b'0' {
        return None;
    }
    decimal_up_to(word, limit)
}
