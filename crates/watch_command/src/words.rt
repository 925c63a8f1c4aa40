//! The words of `watch`.

ghost use Rattle.std.specs.Prelude.{◌≡◌, ◌≤◌, ◌<◌, ◌∷◌, length, map, option_map, IfSome};
ghost use Rattle.report_defs.specs.ProgramCommands as spec;
ghost use Rattle.report_defs.specs.Commands.{most_steps};
ghost use Rattle.watch_defs.specs.Items.{IsItem};

use crate::item::item_word;
use crate::items::{MOST_ITEMS, WatchedItems};
use command_words::number_word;
use gpl_watch::Item;
use report_defs::MOST_STEPS;

/// The most steps and the items that the words after `watch` say: a number up to 100,000, and the words of one to
/// eight items. It takes no memory.
pub fn watch_words(words: &[Vec<u8>]) -> Option<(u32, WatchedItems)>
    ensures parsed { option_map (λ parsed. spec.Watch parsed.0 parsed.1) result
        ≡ spec.watch_command (map (λ word. word.items) words.now) }
    ensures limit { IfSome result (λ parsed. parsed.0 ≤ most_steps) }
{
    let (number, words) = words.split_first()?;
    let limit = number_word(number.as_slice(), MOST_STEPS)?;
    let items = item_words(words)?;
    Some((limit, items))
}

/// The items that one to eight words say. It takes no memory.
pub fn item_words(words: &[Vec<u8>]) -> Option<WatchedItems>
    ensures { result ≡ spec.some_items (map (λ word. word.items) words.now) }
{
    let (first, others) = words.split_first()?;
    if others.len() >= MOST_ITEMS {
        return None;
    }
    items_from(item_word(first.as_slice())?, others)
}

/// An item, and those that fewer than eight words say.
fn items_from(first: Item, words: &[Vec<u8>]) -> Option<WatchedItems>
    requires few { length words.now < 8 }
    requires item { IsItem first }
    ensures { result ≡ option_map (λ items. first ∷ items) (spec.item_words (map (λ word. word.items) words.now)) }
{
    let mut items = WatchedItems::one(first);
    for word in words {
        items.push(item_word(word.as_slice())?);
    }
    Some(items)
}
