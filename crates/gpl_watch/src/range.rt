//! The bytes that a program shows.

ghost use Rattle.std.specs.Prelude.{◌≡◌, ◌↔◌, length, IsTrue};
ghost use Rattle.gpl_run.specs.Sessions.{gpl_state_of};
ghost use Rattle.watch_defs.specs.Items.{IsItem, IsRange, base_of, bytes_in, item_bytes, size_of};
ghost use Rattle.watch_defs.specs.declared.item.Item.TheVariants.{Range};
ghost use Rattle.gpl_watch.specs.Watches.{count_of};

use gpl_defs::Space;
use gpl_run::Session;
use gpl_step_defs::VISIBLE_CELLS;
use watch_defs::Item;

/// The bytes of a memory that a program sees.
fn shown_bytes(session: &Session, space: Space) -> &[u8]
    ensures bytes { result.now ≡ bytes_in space (gpl_state_of session.now) }
    ensures size { length result.now ≡ size_of space }
{
    let bus = session.machine().bus();
    match space {
        Space::Cpu => &bus.pad()[..VISIBLE_CELLS as usize],
        Space::Vdp => bus.vdp().memory(),
    }
}

/// The address of the first byte that a program sees of a memory.
fn base_of(space: Space) -> u16
    ensures { result ≡ base_of space }
{
    match space {
        Space::Cpu => 0x8300,
        Space::Vdp => 0,
    }
}

/// How many bytes a program sees of a memory.
fn size_of(space: Space) -> u16
    ensures { result ≡ size_of space }
{
    match space {
        Space::Cpu => VISIBLE_CELLS as u16,
        Space::Vdp => 0x4000,
    }
}

/// The bytes of a range that a program shows.
pub(crate) fn range_bytes(session: &Session, space: Space, at: u16, len: u16) -> &[u8]
    requires { IsRange space at len }
    ensures bytes { result.now ≡ item_bytes (Range space at len) (gpl_state_of session.now) }
    ensures size { length result.now ≡ len }
{
    let start = (at - base_of(space)) as usize;
    &shown_bytes(session, space)[start..start + len as usize]
}

/// The bytes of an item's range that a program shows. An address has none.
pub(crate) fn item_bytes(session: &Session, item: Item) -> &[u8]
    requires { IsItem item }
    ensures bytes { result.now ≡ item_bytes item (gpl_state_of session.now) }
    ensures size { length result.now ≡ count_of item }
{
    match item {
        Item::Range { space, at, len } => range_bytes(session, space, at, len),
        Item::Pc(_) => &[],
    }
}

/// Whether an item can be watched.
///
/// A range has a byte at least and lies in what a program sees: from `>8300` to `>83C1` of the processor's memory, or
/// in the video memory.
pub fn is_item(item: &Item) -> bool
    ensures { IsTrue result ↔ IsItem item.now }
{
    match *item {
        Item::Range { space, at, len } => is_range(space, at, len),
        Item::Pc(_) => true,
    }
}

/// Whether a range lies in what a program sees.
fn is_range(space: Space, at: u16, len: u16) -> bool
    ensures { IsTrue result ↔ IsRange space at len }
{
    let base = base_of(space);
    len >= 1 && at >= base && at as u32 + len as u32 <= base as u32 + size_of(space) as u32
}
