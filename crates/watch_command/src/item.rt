//! The words of items.

ghost use Rattle.std.specs.Prelude.{◌≡◌, ◌≤◌, take, drop, option_map, IfSome};
ghost use Rattle.report_defs.specs.Commands.{address_word};
ghost use Rattle.report_defs.specs.ProgramCommands as spec;
ghost use Rattle.watch_defs.specs.Items.{IsItem};
ghost use Rattle.watch_defs.specs.declared.item.Item.TheVariants.{Pc};

use crate::size::size_word;
use command_words::address_word;
use gpl_watch::{Item, Space, is_item};

/// The item that a word says: `pad:AAAA+LEN` or `vdp:AAAA+LEN`, a range in what a program sees, or `pc:AAAA`.
pub fn item_word(word: &[u8]) -> Option<Item>
    ensures item { result ≡ spec.item_word word.now }
    ensures is_item { IfSome result IsItem }
{
    if let Some(text) = word.strip_prefix(b"pad:".as_slice()) {
        return range_word(Space::Cpu, text);
    }
    if let Some(text) = word.strip_prefix(b"vdp:".as_slice()) {
        return range_word(Space::Vdp, text);
    }
    if let Some(text) = word.strip_prefix(b"pc:".as_slice()) {
        return pc_word(text);
    }
    None
}

/// The item of an address.
fn pc_word(text: &[u8]) -> Option<Item>
    ensures item { result ≡ option_map Pc (address_word text.now) }
    ensures is_item { IfSome result IsItem }
{
    let at = address_word(text)?;
    Some(Item::Pc(at))
}

/// The range of a memory that a text says by its address and its size.
fn range_word(space: Space, text: &[u8]) -> Option<Item>
    ensures item { result ≡ spec.range_word space text.now }
    ensures is_item { IfSome result IsItem }
{
    let at = address_word(front(text, 4))?;
    let size = size_word(after(text, 4))?;
    range_in(space, at, size)
}

/// The first bytes of a text, a given number or all.
fn front(text: &[u8], count: usize) -> &[u8]
    ensures { result.now ≡ take count text.now }
{
    &text[..count.min(text.len())]
}

/// The bytes of a text after a given number of first bytes.
fn after(text: &[u8], count: usize) -> &[u8]
    ensures { result.now ≡ drop count text.now }
{
    &text[count.min(text.len())..]
}

/// A range of a given number of bytes from an address on, where it lies in what a program sees.
fn range_in(space: Space, at: u16, size: u32) -> Option<Item>
    requires { size ≤ 0x4000 }
    ensures item { result ≡ spec.range_in space at size }
    ensures is_item { IfSome result IsItem }
{
    let len = size as u16;
    let item = Item::Range { space, at, len };
    if is_item(&item) { Some(item) } else { None }
}
