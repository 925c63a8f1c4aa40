//! The sizes of ranges.

ghost use Rattle.std.specs.Prelude.{◌≡◌, ◌≤◌, IfSome};
ghost use Rattle.report_defs.specs.ProgramCommands.{size_word};

use command_words::number_word;

/// The most bytes of a range.
const MOST_BYTES: u32 = 0x4000;

/// The size that a word spells by a plus sign and a number up to 16,384.
pub(crate) fn size_word(word: &[u8]) -> Option<u32>
    ensures size { result ≡ size_word word.now }
    ensures limit { IfSome result (λ size. size ≤ 0x4000) }
{
    if word.is_empty() || word[0] != b'+' {
        return None;
    }
    number_word(&word[1..], MOST_BYTES)
}
