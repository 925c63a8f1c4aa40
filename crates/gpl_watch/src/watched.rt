//! An item that is watched.

ghost use Rattle.std.specs.Prelude.{◌≡◌, IfOk};
ghost use Rattle.gpl_run.specs.Sessions.{gpl_state_of};
ghost use Rattle.watch_defs.specs.Items.{IsItem, holds_since, change_since};
ghost use Rattle.gpl_watch.specs.Watches.{at_address, watched_in};

use crate::range::{item_bytes, range_bytes};
use gpl_run::Session;
use lane_scan::first_difference;
use std::alloc::{AllocError, Global};
use std::marker::Model;
use watch_defs::Item;

/// An item that is watched, and the bytes of its range that a program has shown.
#[derive(Drop)]
pub(crate) struct Watched {
    item: Item,
    kept: Vec<u8>,
}

impl Model for Watched {
    ghost use Rattle.gpl_watch.specs.Watches.{WatchedItem, IsWatched};

    ghost Value = { WatchedItem };

    ghost view = { λ w. record { item = w.item; kept = w.kept.items } };

    ghost invariant = { λ w. IsWatched w.item w.kept.items };
}

impl Watched {
    /// Keeps the bytes of an item's range that a program shows.
    pub(crate) fn new(alloc: Global, item: Item, session: &Session) -> Result<Watched, AllocError>
        requires { IsItem item }
        ensures { IfOk result (λ watched. watched ≡ watched_in (gpl_state_of session.now) item) }
    {
        let kept = Vec::from_slice(alloc, item_bytes(session, item))?;
        Ok(Watched { item, kept })
    }

    /// Whether the item holds at the step that the program has just made, and that led to `reached`.
    pub(crate) fn holds(&self, session: &Session, reached: u16) -> bool
        ensures { result ≡ holds_since self.now.item self.now.kept (at_address reached (gpl_state_of session.now)) }
    {
        match self.item {
            Item::Range { space, at, len } => first_difference(
                &self.kept,
                range_bytes(session, space, at, len),
            ).is_some(),
            Item::Pc(at) => reached == at,
        }
    }

    /// The lowest address of the range at which the program shows another byte than was kept, and that byte.
    pub(crate) fn change(&self, session: &Session) -> Option<(u16, u8)>
        ensures { result ≡ change_since self.now.item self.now.kept (gpl_state_of session.now) }
    {
        let Item::Range { space, at, len } = self.item else {
            return None;
        };
        let now = range_bytes(session, space, at, len);
        let place = first_difference(&self.kept, now)?;
        Some((at + place as u16, now[place]))
    }

    /// Keeps what the program shows now of the range.
    pub(crate) fn keep(&mut self, session: &Session)
        ensures { self.new ≡ watched_in (gpl_state_of session.now) self.old.item }
    {
        let now = item_bytes(session, self.item);
        if first_difference(&self.kept, now).is_some() {
            self.kept.copy_from_slice(now);
        }
    }
}
